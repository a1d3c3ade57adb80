//! An index of ready tasks: for each worker the ready slot of the least priority, found by three levels of bitmaps.
#![tactic(auto)]

pub mod bitmaps;
pub mod index;
pub mod marks;
pub mod steps;
pub mod words;
pub mod workers;

pub use index::ReadyIndex;
pub use marks::Mark;
pub use steps::Steps;

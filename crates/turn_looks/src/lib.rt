//! Turns, looks and pauses of a seat of a turn cell, over every object.
//!
//! [`turn`] makes one turn. A [`LookFor`] says what one look asks and which reply means "not yet"; [`look`] makes one turn for each look
//! until there is an answer or the looks are used up. With a limit it waits between two looks by a [`Pause`], a millisecond at most;
//! without one it sleeps until the cell's bell for ends rings.
#![tactic(auto)]

pub mod ends;
pub mod looks;
pub mod pauses;
pub mod services;
pub mod turns;

pub use looks::{LookFor, look};
pub use pauses::Pause;
pub use services::ServeEnd;
pub use turns::turn;

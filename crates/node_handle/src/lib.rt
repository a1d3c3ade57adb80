//! A node for a program that isn't Rattle: a counted node, and the handle by which C holds it.
//!
//! No thread waits here: whoever calls sees to it that one call is made at a time.
#![tactic(auto)]

pub mod calls;
pub mod counted;
pub mod handle;
pub mod held;
pub mod journals;
pub mod moves;
mod parts;

pub use calls::{call, create, discard};
pub use counted::CountedNode;
pub use handle::NodeHandle;
pub use held::Held;
pub use journals::{JournalEnd, end_in_text, piece_of};

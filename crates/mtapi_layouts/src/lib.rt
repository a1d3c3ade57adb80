//! A node has its handles in layout one, and its callers see layout two: how the handles of ops and replies turn, and the law that a
//! history of layout two comes of it.
#![tactic(auto)]

mod laws;
mod ops;

pub use laws::law_layouts;
pub use ops::{Inwards, answered_kind, turn_outward};

//! Settled workloads: their report depends on no schedule.
//!
//! The definitions stand in `specs/`. The functions have no body: each contract is a fact on the definitions, or a law that follows
//! from them.
#![tactic(auto)]

mod laws;
mod worked;

pub use laws::{
    law_plain_replies, law_quiet, law_settled_ends, law_settled_granted, law_settled_replies,
    law_settled_report,
};
pub use worked::{worked_settled, worked_unsettled};

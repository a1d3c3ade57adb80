//! The node as its callers see it, and a node with a journal of its calls.
//!
//! `specs/Stands.antt` says what it means that a node stands for a history. The node inside, of `node_steps`, executes each op.
#![tactic(auto)]

pub mod journaled;
pub mod node;
pub mod run_journals;
mod worked;

pub use history::Object;
pub use journaled::{Journaled, JournaledTerms};
pub use mtapi_machine::{Entry, Op, Phase, Reply, Terms};
pub use node::Node;
pub use node_journals::{EntryList, Journal, ShortList};
pub use run_journals::{RunJournal, journal_of};
pub use worked::worked_agreement;

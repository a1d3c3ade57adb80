//! Short messages between endpoints of one process.
//!
//! Callers open endpoints, each with a port, and send one another messages of at most 64 bytes with four priorities. All endpoints
//! stand in a [`Post`], which the callers share in a turn cell: each call of a [`Mailer`] makes one turn for each look.
#![tactic(auto)]

mod boxes;
pub mod laws;
pub mod mailer;
pub mod messages;
mod object;
pub mod ops;
pub mod post;
mod rings;
pub mod statuses;

pub use mailer::Mailer;
pub use messages::{EndpointHandle, Msg, Waiting};
pub use ops::{MsgEntry, MsgOp, MsgReply};
pub use post::{Post, PostTerms};
pub use statuses::MsgStatus;

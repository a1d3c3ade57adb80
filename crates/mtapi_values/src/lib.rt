//! The values that every part of the runtime speaks of: statuses, masks, attributes, argument lists, kinds of action and handles.
#![tactic(auto)]

pub mod attributes;
pub mod ends;
pub mod handles;
pub mod kinds;
pub mod lists;
pub mod looks;
pub mod masks;
mod names;
pub mod seats;
pub mod statuses;
pub mod timeouts;
pub mod worked;

pub use attributes::{ActionAttr, MutexAttr, NodeAttr, QueueAttr, TaskAttr};
pub use ends::TaskEnd;
pub use handles::{
    ActionHandle, GroupHandle, JobHandle, Layout, MutexHandle, ObjectKind, QueueHandle, RwlHandle,
    SemHandle, ShmemHandle, TaskHandle, inner, outer,
};
pub use kinds::Kind;
pub use lists::Args;
pub use looks::Look;
pub use masks::Mask;
pub use statuses::{MrapiStatus, MtapiStatus};
pub use timeouts::Timeout;

//! What programs that show a run say of its entries, beside the words of their ops. It is safe code.

use crate::handles::kind_letter;
use crate::op_words::kind_answered;
use mtapi_machine::{Op, Reply};
use mtapi_values::{ObjectKind, TaskEnd};
use std::alloc::{AllocError, Global};

/// An object of a node, by its kind and its handle.
#[derive(Clone, Copy, Drop, PartialEq, Eq)]
pub struct NodeObject {
    pub kind: ObjectKind,
    pub handle: u64,
}

/// The object whose handle an entry answers.
pub fn object_made(op: &Op, reply: &Reply) -> Option<NodeObject> {
    match (kind_answered(op), reply) {
        (Some(kind), Reply::Handle(handle)) => Some(NodeObject {
            kind,
            handle: *handle,
        }),
        _ => None,
    }
}

/// The handle of an object, as journals of text two have it: the letter of its kind, the generation and the slot.
pub fn handle_word(alloc: Global, object: NodeObject) -> Result<String, AllocError> {
    let letter = char::from(kind_letter(object.kind));
    let generation = object.handle >> 32;
    let slot = object.handle & 0xff_ffff;
    format!(in alloc; "{letter}{generation}.{slot}")
}

/// How a task ended.
pub fn end_word(end: &TaskEnd) -> &'static str {
    match end {
        TaskEnd::Completed(_) => "completed",
        TaskEnd::Cancelled => "cancelled",
        TaskEnd::Failed(status) => status.name(),
    }
}

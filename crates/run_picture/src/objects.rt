//! The objects that entries speak of.

use journal_text::{NodeObject, object_made, object_named};
use mtapi_machine::{Entry, Op, Reply};
use mtapi_values::{ObjectKind, TaskHandle};

fn task_of(task: &TaskHandle) -> Option<NodeObject> {
    Some(NodeObject {
        kind: ObjectKind::Task,
        handle: task.0,
    })
}

/// The object that an entry speaks of: what it gives, and else what it asks about.
pub fn object_of(entry: &Entry) -> Option<NodeObject> {
    match (&entry.op, &entry.reply) {
        (Op::Pick, Reply::Picked { task, .. }) => task_of(task),
        (Op::AnyLook { .. }, Reply::Given(task, _)) => task_of(task),
        (op, Reply::Handle(_)) => object_made(op, &entry.reply),
        (op, _) => object_named(op),
    }
}

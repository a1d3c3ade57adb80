//! What an entry says: the object that it names or makes, and the answer.

use action_fn::ActEnd;
use journal_text::{NodeObject, end_word};
use mtapi_machine::{Op, Reply};

/// A number that no other object of the node has: the handle that layout two gives it.
pub fn key_of(object: NodeObject) -> u64 {
    object.handle | u64::from(object.kind.number()) << 24
}

/// The answer in a word, with the name of a status.
pub fn answer_of(reply: &Reply) -> &'static str {
    match reply {
        Reply::Ok => "ok",
        Reply::Handle(_) => "handle",
        Reply::Number(_) => "number",
        Reply::Ended(end) => end_word(end),
        Reply::Given(_, end) => end_word(end),
        Reply::Pending => "pending",
        Reply::Picked { .. } => "picked",
        Reply::Idle => "idle",
        Reply::Stop => "stop",
        Reply::Asked(true) => "yes",
        Reply::Asked(false) => "no",
        Reply::Mtapi(status) => status.name(),
        Reply::Mrapi(status) => status.name(),
    }
}

/// The end of the task that a worker runs, where an entry of the worker ends it.
pub fn end_of(op: &Op, reply: &Reply) -> Option<&'static str> {
    match (op, reply) {
        (Op::Finish { done, .. }, Reply::Ok) => match done.end() {
            ActEnd::Done(_) => Some("completed"),
            ActEnd::Fails(status) => Some(status.name()),
        },
        (Op::WatchEnd { .. }, Reply::Ended(end)) => Some(end_word(end)),
        (Op::TallyEnd { .. }, Reply::Ended(end)) => Some(end_word(end)),
        _ => None,
    }
}

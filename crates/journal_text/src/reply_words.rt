//! The replies as words: the word of each reply, the shapes of its fields in order, and their values.
ghost use Rattle.std.specs.Prelude.{◌≡◌, IfOk};
ghost use Rattle.journal_text.specs.Replies.{reply_row, reply_word_of, reply_spelled, status_reply, reply_of};

use crate::values::{Shape, Status, Value, spelled};
use mtapi_machine::Reply;
use mtapi_values::{ActionHandle, TaskHandle};
use std::alloc::{AllocError, Global};

/// The word of a reply.
#[rattlefmt::skip]
#[derive(Clone, Copy, PartialEq, Eq, Debug)]
pub enum ReplyWord {
    Ok, Handle, Number, Ended, Given, Pending, Picked, Idle, Stop, Asked, Status,
}

/// Each word once.
#[rattlefmt::skip]
pub const REPLY_WORDS: [ReplyWord; 11] = [
    ReplyWord::Ok, ReplyWord::Handle, ReplyWord::Number, ReplyWord::Ended, ReplyWord::Given, ReplyWord::Pending, ReplyWord::Picked,
    ReplyWord::Idle, ReplyWord::Stop, ReplyWord::Asked, ReplyWord::Status,
];

impl ReplyWord {
    /// The text of the word, and the shapes of the fields behind it.
    #[tactic(auto, unfolding(crate::specs::Replies::reply_row))]
    pub fn row(self) -> (&'static [u8], &'static [Shape])
        ensures word { result.0.now ≡ (reply_row self).0 }
        ensures shapes { result.1.now ≡ (reply_row self).1 }
    {
        match self {
            ReplyWord::Ok => (b"ok", &[]),
            ReplyWord::Handle => (b"handle", &[Shape::Handle]),
            ReplyWord::Number => (b"number", &[Shape::Whole]),
            ReplyWord::Ended => (b"ended", &[Shape::End]),
            ReplyWord::Given => (b"given", &[Shape::Handle, Shape::End]),
            ReplyWord::Pending => (b"pending", &[]),
            ReplyWord::Picked => (
                b"picked",
                &[Shape::Handle, Shape::Handle, Shape::Kind, Shape::Args],
            ),
            ReplyWord::Idle => (b"idle", &[]),
            ReplyWord::Stop => (b"stop", &[]),
            ReplyWord::Asked => (b"asked", &[Shape::Flag]),
            ReplyWord::Status => (b"status", &[Shape::Status]),
        }
    }

    /// The word with this text.
    #[tactic(auto, unfolding(crate::specs::Replies::reply_word_of))]
    pub fn of(text: &[u8]) -> Option<ReplyWord>
        ensures { result ≡ reply_word_of text.now }
    {
        REPLY_WORDS
            .iter()
            .copied()
            .find(|word| word.row().0 == text)
    }
}

/// A reply's word, and the values of its fields.
#[rattlefmt::skip]
#[tactic(auto, unfolding(crate::specs::Replies::reply_spelled))]
pub fn reply_spelled(alloc: Global, reply: &Reply) -> Result<(ReplyWord, Vec<Value>), AllocError>
    ensures word { IfOk result (λ x. x.0 ≡ (reply_spelled reply.now).0) }
    ensures values { IfOk result (λ x. x.1.items ≡ (reply_spelled reply.now).1) }
{
    match reply {
        Reply::Ok => spelled(alloc, ReplyWord::Ok, []),
        Reply::Handle(handle) => spelled(alloc, ReplyWord::Handle, [Value::Handle(*handle)]),
        Reply::Number(number) => spelled(alloc, ReplyWord::Number, [Value::Whole(*number)]),
        Reply::Ended(end) => spelled(alloc, ReplyWord::Ended, [Value::End(end.again())]),
        Reply::Given(task, end) => spelled(alloc, ReplyWord::Given, [Value::Handle(task.0), Value::End(end.again())]),
        Reply::Pending => spelled(alloc, ReplyWord::Pending, []),
        Reply::Picked { task, action, kind, args } => spelled(alloc, ReplyWord::Picked, [Value::Handle(task.0), Value::Handle(action.0), Value::Kind(*kind), Value::Args(args.again())]),
        Reply::Idle => spelled(alloc, ReplyWord::Idle, []),
        Reply::Stop => spelled(alloc, ReplyWord::Stop, []),
        Reply::Asked(requested) => spelled(alloc, ReplyWord::Asked, [Value::Flag(*requested)]),
        Reply::Mtapi(status) => spelled(alloc, ReplyWord::Status, [Value::Status(Status::Mtapi(*status))]),
        Reply::Mrapi(status) => spelled(alloc, ReplyWord::Status, [Value::Status(Status::Mrapi(*status))]),
    }
}

fn status_reply(status: Status) -> Reply
    ensures { result ≡ status_reply status }
{
    match status {
        Status::Mtapi(status) => Reply::Mtapi(status),
        Status::Mrapi(status) => Reply::Mrapi(status),
    }
}

/// The reply of a word with these values.
#[rattlefmt::skip]
#[tactic(auto, unfolding(crate::specs::Replies::reply_of))]
pub fn reply_of(word: ReplyWord, values: &[Value]) -> Option<Reply>
    ensures { result ≡ reply_of word values.now }
{
    match word {
        ReplyWord::Ok => match values { [] => Some(Reply::Ok), _ => None },
        ReplyWord::Handle => match values { [Value::Handle(handle)] => Some(Reply::Handle(*handle)), _ => None },
        ReplyWord::Number => match values { [Value::Whole(number)] => Some(Reply::Number(*number)), _ => None },
        ReplyWord::Ended => match values { [Value::End(end)] => Some(Reply::Ended(end.again())), _ => None },
        ReplyWord::Given => match values { [Value::Handle(task), Value::End(end)] => Some(Reply::Given(TaskHandle(*task), end.again())), _ => None },
        ReplyWord::Pending => match values { [] => Some(Reply::Pending), _ => None },
        ReplyWord::Picked => match values {
            [Value::Handle(task), Value::Handle(action), Value::Kind(kind), Value::Args(args)] => Some(Reply::Picked { task: TaskHandle(*task), action: ActionHandle(*action), kind: *kind, args: args.again() }),
            _ => None,
        },
        ReplyWord::Idle => match values { [] => Some(Reply::Idle), _ => None },
        ReplyWord::Stop => match values { [] => Some(Reply::Stop), _ => None },
        ReplyWord::Asked => match values { [Value::Flag(requested)] => Some(Reply::Asked(*requested)), _ => None },
        ReplyWord::Status => match values { [Value::Status(status)] => Some(status_reply(*status)), _ => None },
    }
}

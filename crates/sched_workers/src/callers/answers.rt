//! What a caller reads from the reply to its call.

ghost use Rattle.std.specs.Prelude.{◌≡◌, true, IfOk};
ghost use Rattle.workload_runners.specs.Replies.{done, handle_told, the_job, key, number_in_answer, end_in_reply, given, mtapi_standard, mrapi_standard, says_something};
ghost use Rattle.sched_workers.specs.Answers.{AnsweredBy};

use mtapi_values::{MrapiStatus, MtapiStatus, TaskEnd, TaskHandle};
use node_core::Reply;
use turn_cell::Spent;

/// That an op of MTAPI was done.
pub(crate) fn done(reply: Result<Reply, Spent>) -> Result<(), MtapiStatus>
    requires { IfOk reply (λ r. says_something mtapi_standard done r ≡ true) }
    ensures { AnsweredBy mtapi_standard done reply result }
{
    match reply {
        Ok(Reply::Ok) => Ok(()),
        Ok(Reply::Mtapi(status)) => Err(status),
        Ok(_) => unreachable!(),
        Err(_) => Err(MtapiStatus::ErrSpent),
    }
}

/// The handle that an op of MTAPI gives.
pub(crate) fn handle(reply: Result<Reply, Spent>) -> Result<u64, MtapiStatus>
    requires { IfOk reply (λ r. says_something mtapi_standard handle_told r ≡ true) }
    ensures { AnsweredBy mtapi_standard handle_told reply result }
{
    match reply {
        Ok(Reply::Handle(handle)) => Ok(handle),
        Ok(Reply::Mtapi(status)) => Err(status),
        Ok(_) => unreachable!(),
        Err(_) => Err(MtapiStatus::ErrSpent),
    }
}

/// The number of the job that was asked for.
pub(crate) fn the_job(reply: Result<Reply, Spent>, job: u32) -> Result<u32, MtapiStatus>
    requires { IfOk reply (λ r. says_something mtapi_standard (the_job job) r ≡ true) }
    ensures { AnsweredBy mtapi_standard (the_job job) reply result }
{
    match reply {
        Ok(Reply::Number(_)) => Ok(job),
        Ok(Reply::Mtapi(status)) => Err(status),
        Ok(_) => unreachable!(),
        Err(_) => Err(MtapiStatus::ErrSpent),
    }
}

/// The end of a task.
pub(crate) fn ended(reply: Result<Reply, Spent>) -> Result<TaskEnd, MtapiStatus>
    requires { IfOk reply (λ r. says_something mtapi_standard end_in_reply r ≡ true) }
    ensures { AnsweredBy mtapi_standard end_in_reply reply result }
{
    match reply {
        Ok(Reply::Ended(end)) => Ok(end),
        Ok(Reply::Mtapi(status)) => Err(status),
        Ok(_) => unreachable!(),
        Err(_) => Err(MtapiStatus::ErrSpent),
    }
}

/// A member of a group, and its end.
pub(crate) fn given(reply: Result<Reply, Spent>) -> Result<(TaskHandle, TaskEnd), MtapiStatus>
    requires { IfOk reply (λ r. says_something mtapi_standard given r ≡ true) }
    ensures { AnsweredBy mtapi_standard given reply result }
{
    match reply {
        Ok(Reply::Given(task, end)) => Ok((task, end)),
        Ok(Reply::Mtapi(status)) => Err(status),
        Ok(_) => unreachable!(),
        Err(_) => Err(MtapiStatus::ErrSpent),
    }
}

/// That an op of MRAPI was done.
pub(crate) fn resource_done(reply: Result<Reply, Spent>) -> Result<(), MrapiStatus>
    requires { IfOk reply (λ r. says_something mrapi_standard done r ≡ true) }
    ensures { AnsweredBy mrapi_standard done reply result }
{
    match reply {
        Ok(Reply::Ok) => Ok(()),
        Ok(Reply::Mrapi(status)) => Err(status),
        Ok(_) => unreachable!(),
        Err(_) => Err(MrapiStatus::ErrSpent),
    }
}

/// The handle that an op of MRAPI gives.
pub(crate) fn resource_handle(reply: Result<Reply, Spent>) -> Result<u64, MrapiStatus>
    requires { IfOk reply (λ r. says_something mrapi_standard handle_told r ≡ true) }
    ensures { AnsweredBy mrapi_standard handle_told reply result }
{
    match reply {
        Ok(Reply::Handle(handle)) => Ok(handle),
        Ok(Reply::Mrapi(status)) => Err(status),
        Ok(_) => unreachable!(),
        Err(_) => Err(MrapiStatus::ErrSpent),
    }
}

/// The number that an op of MRAPI gives.
pub(crate) fn resource_number(reply: Result<Reply, Spent>) -> Result<i64, MrapiStatus>
    requires { IfOk reply (λ r. says_something mrapi_standard number_in_answer r ≡ true) }
    ensures { AnsweredBy mrapi_standard number_in_answer reply result }
{
    match reply {
        Ok(Reply::Number(number)) => Ok(number),
        Ok(Reply::Mrapi(status)) => Err(status),
        Ok(_) => unreachable!(),
        Err(_) => Err(MrapiStatus::ErrSpent),
    }
}

/// The key of a lock.
pub(crate) fn key(reply: Result<Reply, Spent>) -> Result<u32, MrapiStatus>
    requires { IfOk reply (λ r. says_something mrapi_standard key r ≡ true) }
    ensures { AnsweredBy mrapi_standard key reply result }
{
    match reply {
        Ok(Reply::Number(key)) => Ok(key as u32),
        Ok(Reply::Mrapi(status)) => Err(status),
        Ok(_) => unreachable!(),
        Err(_) => Err(MrapiStatus::ErrSpent),
    }
}

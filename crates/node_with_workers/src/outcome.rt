//! What the clients of a node were told.

ghost use Rattle.std.specs.Prelude.{◌≡◌, true, Ok, IfOk, IfErr, map};
ghost use Rattle.workload_runners.specs.Replies.{done, mtapi_standard, says_something};
ghost use Rattle.node_with_workers.specs.Ends.{IsLostOf, IsRefusal, IsUnpacked, IsUnpackedTo};
ghost use Rattle.mtapi_machine.specs.declared.replies.Reply.TheVariants as reply;

use crate::failure::Failure;
use crate::run::AllDone;
use node_core::Reply;
use std::alloc::Global;
use workload_runners::RanNode;

// What all of them were told, if each was told something.
fn all_told<U: Drop>(alloc: Global, others: Vec<Result<U, Failure>>) -> Result<Vec<U>, Failure>
    ensures told { IfOk result (λ v. map Ok v.items ≡ others.items) }
    ensures lost { IfErr result (IsLostOf others.items) }
{
    let mut told = Vec::with_capacity(alloc, others.len())?;
    for other in others {
        match other {
            Ok(one) => {
                let Ok(()) = told.push(one) else {
                    return Err(Failure::Memory);
                };
            }
            Err(failure) => return Err(failure),
        }
    }
    Ok(told)
}

// Whether main ended the node.
fn ended(last: Reply) -> Result<(), Failure>
    requires { says_something mtapi_standard done last ≡ true }
    ensures done { IfOk result (λ _. last ≡ reply.Ok) }
    ensures refused { IfErr result (IsRefusal last) }
{
    match last {
        Reply::Ok => Ok(()),
        Reply::Mtapi(status) => Err(Failure::Refused(status)),
        _ => unreachable!(),
    }
}

/// What a node gives back, if all its callers were let in and main ended it.
pub(crate) fn unpacked<T: Drop, U: Drop, A: Drop>(
    alloc: Global,
    ran: RanNode<Result<T, Failure>, Result<U, Failure>, A>,
) -> Result<AllDone<T, U, A>, Failure>
    requires { says_something mtapi_standard done ran.last ≡ true }
    ensures all { IfOk result (IsUnpacked ran) }
    ensures lost { IfErr result (IsUnpackedTo ran) }
{
    let RanNode {
        told,
        others,
        last,
        journal,
        sets,
    } = ran;
    let told = told?;
    let others = all_told(alloc, others)?;
    ended(last)?;
    Ok(AllDone {
        told,
        others,
        journal,
        sets,
    })
}

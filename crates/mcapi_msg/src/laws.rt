//! Laws that follow from the definitions of the machine alone. Each function does nothing: its contract is the law.

ghost use Rattle.history.specs.Histories.{StartsWith};
ghost use Rattle.mcapi_msg.specs.Fifo.{sent_to, received_at};
ghost use Rattle.mcapi_msg.specs.Laws.{MsgRefusalsStay};
ghost use Rattle.mcapi_msg.specs.Legal.{MsgLegal};
ghost use Rattle.mcapi_msg.specs.Worked.{WorkedMsgHistories};
ghost use Rattle.mcapi_msg.specs.WorkedWords.{WorkedMsgWords};

use crate::messages::EndpointHandle;
use crate::ops::MsgEntry;

/// Over a legal list, what was received of one sender at one endpoint with one priority is a beginning of what that sender put there with
/// that priority, in the order of its sends, each message once.
pub fn law_fifo(
    seats: u32,
    endpoints: u32,
    limit: u32,
    entries: &[MsgEntry],
    at: EndpointHandle,
    sender: u32,
    priority: u32,
)
    requires { MsgLegal (record { seats = seats; endpoints = endpoints; limit = limit }) entries.now }
    ensures { StartsWith (sent_to at sender priority entries.now) (received_at at sender priority entries.now) }
{
    let _ = (seats, endpoints, limit, at, sender, priority);
    let _ = entries;
}

/// A refusal, and a look that finds nothing yet, leave the state as it was.
pub fn law_refused()
    ensures { MsgRefusalsStay }
{}

/// The worked histories are legal or not, as they should be; what the words of the laws say of worked lists, and which lists the laws
/// refuse; and the numbers of the statuses.
pub fn worked_histories()
    ensures histories { WorkedMsgHistories }
    ensures words { WorkedMsgWords }
{}

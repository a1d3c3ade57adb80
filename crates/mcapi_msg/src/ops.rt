//! What a seat asks of the endpoints, and what it is answered.

use crate::messages::{EndpointHandle, Msg};
use crate::statuses::MsgStatus;
use history::Entry;

/// One op on the endpoints. The machine says for each op when it is refused and what it changes.
#[derive(Drop)]
pub enum MsgOp {
    /// Makes an endpoint with this port, which this seat owns.
    Open {
        port: u32,
    },
    /// Asks for the live endpoint with this port.
    Find {
        port: u32,
    },
    /// Puts a message at an endpoint. Priority 0 goes first, and 3 last.
    Send {
        to: EndpointHandle,
        priority: u32,
        msg: Msg,
    },
    /// Looks for a message at an endpoint of this seat. With `last` the caller won't look again.
    Recv {
        at: EndpointHandle,
        last: bool,
    },
    /// Gives up an endpoint of this seat, with the messages that wait there.
    Shut {
        at: EndpointHandle,
    },
}

/// The reply to an op.
#[derive(Drop)]
pub enum MsgReply {
    /// The op was executed.
    Ok,
    /// The endpoint that was made, or asked for.
    Handle(EndpointHandle),
    /// A message that waited: who sent it, its priority, and its bytes. It waits no more.
    Got {
        sender: u32,
        priority: u32,
        msg: Msg,
    },
    /// No message waits yet.
    Pending,
    /// Refused, or out of looks.
    Refused(MsgStatus),
}

/// One call of a seat, as the history keeps it.
pub type MsgEntry = Entry<MsgOp, MsgReply>;

//! The endpoints of one process, as an object that seats call in turns.

ghost use Rattle.std.specs.Prelude.{◌≡◌, ◌≤◌, [], List, IfOk, IfSome};
ghost use Rattle.handle_pool.specs.Issued.{Listed};
ghost use Rattle.mcapi_msg.specs.declared.ops.MsgOp.TheVariants as op;
ghost use Rattle.handle_pool.specs.Slots.{slot_value};
ghost use Rattle.mcapi_msg.specs.Boxes.{owner_refusal};
ghost use Rattle.mcapi_msg.specs.Endpoints.{Endpoint};
ghost use Rattle.mcapi_msg.specs.Stands.{HoldsEndpoints, PostSteps, PostStands, post_terms_of};

use crate::boxes::Boxes;
use crate::messages::{EndpointHandle, Msg, Waiting};
use crate::ops::{MsgOp, MsgReply};
use crate::statuses::MsgStatus;
use std::alloc::{AllocError, Global};

/// The number of priorities. 0 goes first.
const PRIORITIES: u32 = 4;

/// What no op changes.
#[derive(Clone, Copy, Debug, Drop, PartialEq, Eq)]
pub struct PostTerms {
    /// How many seats call it, 1 to 25.
    pub seats: u32,
    /// How many endpoints may be live at once, 1 to 64.
    pub endpoints: u32,
    /// How many messages may wait at one endpoint, 1 to 256.
    pub limit: u32,
}

/// Endpoints that seats open and send messages to: each op is executed as the machine says.
#[derive(Drop)]
pub struct Post {
    pub(crate) seats: u32,
    pub(crate) boxes: Boxes,
}

impl Post {
    /// No endpoint yet, with all the memory that a post of these terms uses, 5 MB at most.
    ///
    /// # Errors
    ///
    /// - `AllocError`: memory ran out.
    pub fn new(alloc: Global, seats: u32, endpoints: u32, limit: u32) -> Result<Post, AllocError>
        requires some_seat { 1 ≤ seats }
        requires seats { seats ≤ 25 }
        requires some_endpoint { 1 ≤ endpoints }
        requires endpoints { endpoints ≤ 64 }
        requires some_message { 1 ≤ limit }
        requires messages { limit ≤ 256 }
        ensures terms { IfOk result (λ p. post_terms_of p ≡ record { seats = seats; endpoints = endpoints; limit = limit }) }
        ensures stands { IfOk result (λ p. PostStands p []) }
    {
        let boxes = Boxes::new(alloc, endpoints, limit)?;
        Ok(Post { seats, boxes })
    }

    // One op, by its own method.
    pub(crate) fn dispatch(&mut self, who: u32, op: MsgOp) -> MsgReply
        ensures { (l : List (Listed Endpoint)) → HoldsEndpoints self.old l → PostSteps self.old l who op result self.new }
    {
        match op {
            MsgOp::Open { port } => self.open(who, port),
            MsgOp::Find { port } => self.find(port),
            MsgOp::Send { to, priority, msg } => self.send(who, to, priority, msg),
            MsgOp::Recv { at, last } => self.recv(who, at, last),
            MsgOp::Shut { at } => self.shut(who, at),
        }
    }

    fn open(&mut self, who: u32, port: u32) -> MsgReply
        ensures { (l : List (Listed Endpoint)) → HoldsEndpoints self.old l → PostSteps self.old l who (op.Open port) result self.new }
    {
        if let Some(_taken) = self.boxes.find(port) {
            return MsgReply::Refused(MsgStatus::PortTaken);
        }
        if self.boxes.is_full() {
            return MsgReply::Refused(MsgStatus::EndpointLimit);
        }
        MsgReply::Handle(EndpointHandle(self.boxes.insert(port, who)))
    }

    fn find(&self, port: u32) -> MsgReply
        ensures { (l : List (Listed Endpoint)) (who : _) → HoldsEndpoints self.now l → PostSteps self.now l who (op.Find port) result self.now }
    {
        match self.boxes.find(port) {
            Some(handle) => MsgReply::Handle(handle),
            None => MsgReply::Refused(MsgStatus::PortUnknown),
        }
    }

    fn send(&mut self, who: u32, to: EndpointHandle, priority: u32, msg: Msg) -> MsgReply
        ensures { (l : List (Listed Endpoint)) → HoldsEndpoints self.old l → PostSteps self.old l who (op.Send to priority msg) result self.new }
    {
        let Some(mailbox) = self.boxes.get(to) else {
            return MsgReply::Refused(MsgStatus::EndpointInvalid);
        };
        if priority >= PRIORITIES {
            return MsgReply::Refused(MsgStatus::PriorityRange);
        }
        if mailbox.rings.is_full() {
            return MsgReply::Refused(MsgStatus::Full);
        }
        let message = Waiting {
            sender: who,
            priority,
            msg,
        };
        self.boxes.put(to, message);
        MsgReply::Ok
    }

    // Why an op that only the owner may ask for is refused.
    fn owner_refusal(&self, who: u32, at: EndpointHandle) -> Option<MsgStatus>
        ensures { result ≡ owner_refusal who (slot_value self.now.boxes.pool at.0) }
    {
        match self.boxes.get(at) {
            None => Some(MsgStatus::EndpointInvalid),
            Some(mailbox) => {
                if mailbox.owner == who {
                    None
                } else {
                    Some(MsgStatus::NotOwner)
                }
            }
        }
    }

    fn recv(&mut self, who: u32, at: EndpointHandle, last: bool) -> MsgReply
        ensures { (l : List (Listed Endpoint)) → HoldsEndpoints self.old l → PostSteps self.old l who (op.Recv at last) result self.new }
    {
        if let Some(status) = self.owner_refusal(who, at) {
            return MsgReply::Refused(status);
        }
        match self.boxes.take(at) {
            Some(message) => {
                let Waiting {
                    sender,
                    priority,
                    msg,
                } = message;
                MsgReply::Got {
                    sender,
                    priority,
                    msg,
                }
            }
            None if last => MsgReply::Refused(MsgStatus::Timeout),
            None => MsgReply::Pending,
        }
    }

    fn shut(&mut self, who: u32, at: EndpointHandle) -> MsgReply
        ensures { (l : List (Listed Endpoint)) → HoldsEndpoints self.old l → PostSteps self.old l who (op.Shut at) result self.new }
    {
        if let Some(status) = self.owner_refusal(who, at) {
            return MsgReply::Refused(status);
        }
        self.boxes.remove(at);
        MsgReply::Ok
    }
}

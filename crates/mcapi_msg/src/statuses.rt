//! Why a call on endpoints is refused.

ghost use Rattle.std.specs.Prelude.{◌≡◌};
ghost use Rattle.mcapi_msg.specs.Statuses.{msg_number_of};

/// What a call answers that is refused or has looked in vain.
#[derive(Clone, Copy, Debug, Drop, PartialEq, Eq)]
pub enum MsgStatus {
    /// The looks that the caller allowed were used up, and no message waited.
    Timeout = 1,
    /// A live endpoint has this port.
    PortTaken = 2,
    /// No room for a further endpoint.
    EndpointLimit = 3,
    /// The handle is no live endpoint's.
    EndpointInvalid = 4,
    /// No live endpoint has this port.
    PortUnknown = 5,
    /// The priority isn't 0 to 3.
    PriorityRange = 6,
    /// As many messages wait at the endpoint as may.
    Full = 7,
    /// Another seat opened the endpoint.
    NotOwner = 8,
    /// The turns of the cell are used up.
    Spent = 9,
}

impl MsgStatus {
    /// The status's number, 1 to 9.
    pub fn number(self) -> u32
        ensures { result ≡ msg_number_of self }
    {
        self as u32
    }
}

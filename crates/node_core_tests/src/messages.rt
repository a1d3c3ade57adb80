//! The calls of a mailer, on one thread; and two senders beside a receiver.

mod threads;

use mcapi_msg::{EndpointHandle, Mailer, Msg, MsgStatus, Post};
use mtapi_values::Timeout;
use std::sync::Wait;
use std::test::Fail;
use turn_cell::TurnCell;

/// What a mailer asks in a row of the table. A message is one byte.
#[derive(Clone, Copy, Drop)]
enum Ask {
    Open(u32),
    Find(u32),
    /// The endpoint, the priority, the byte.
    Send(u64, u32, u8),
    Take(u64, Timeout),
    Shut(u64),
}

use Ask::{Find, Open, Send, Shut, Take};
use MsgStatus::{
    EndpointInvalid, EndpointLimit, Full, NotOwner, PortTaken, PortUnknown, PriorityRange,
};

/// An answer: a handle, or sender, priority and byte in one number, or 0.
type Answer = Result<u64, MsgStatus>;

/// The first handle of the only slot.
const BOX: u64 = 0x1_0000_0000;

fn one_byte(byte: u8) -> Msg {
    let mut msg = Msg::new();
    let _ = msg.push(byte);
    msg
}

// Sender 2, priority 0 and byte 7 are 2_000_007.
fn number_of(taken: (u32, u32, Msg)) -> u64 {
    let (sender, priority, msg) = taken;
    let byte = msg.as_slice().first().copied().unwrap_or(0);
    u64::from(sender) * 1_000_000 + u64::from(priority) * 1_000 + u64::from(byte)
}

fn answer<R: Wait>(rt: &R, mailer: &mut Mailer, ask: Ask) -> Answer {
    match ask {
        Open(port) => mailer.open(rt, port).map(|at| at.0),
        Find(port) => mailer.find(rt, port).map(|at| at.0),
        Send(to, priority, byte) => mailer
            .send(rt, EndpointHandle(to), priority, one_byte(byte))
            .map(|_| 0),
        Take(at, timeout) => mailer.recv(rt, EndpointHandle(at), timeout).map(number_of),
        Shut(at) => mailer.shut(rt, EndpointHandle(at)).map(|_| 0),
    }
}

const ROWS: [(usize, Ask, Answer); 15] = [
    (0, Open(9), Ok(BOX)),
    (0, Open(9), Err(PortTaken)),
    (0, Open(8), Err(EndpointLimit)),
    (1, Find(8), Err(PortUnknown)),
    (2, Find(9), Ok(BOX)),
    (1, Send(BOX, 3, 1), Ok(0)),
    (2, Send(BOX, 0, 2), Ok(0)),
    (1, Send(BOX, 1, 3), Err(Full)),
    (1, Take(BOX, Timeout::Infinite), Err(NotOwner)),
    (0, Take(BOX, Timeout::NoWait), Ok(2_000_002)),
    (0, Take(BOX, Timeout::Infinite), Ok(1_003_001)),
    (0, Take(BOX, Timeout::NoWait), Err(MsgStatus::Timeout)),
    (1, Send(BOX, 4, 4), Err(PriorityRange)),
    (0, Shut(BOX), Ok(0)),
    (1, Send(BOX, 0, 5), Err(EndpointInvalid)),
];

// The first row that is answered otherwise, if any.
fn first_wrong<R: Wait>(rt: &R, mailers: &mut [Mailer]) -> Option<usize> {
    for (place, (who, ask, wanted)) in ROWS.iter().enumerate() {
        let said = mailers.get_mut(*who).map(|mailer| answer(rt, mailer, *ask));
        if said != Some(*wanted) {
            return Some(place);
        }
    }
    None
}

#[test]
fn one_endpoint_with_room_for_two(rt: HostRuntime) -> Result<(), Fail> {
    let post = Post::new(rt.alloc(), 3, 1, 2)?;
    let (cell, mut seats) = TurnCell::new(rt.alloc(), post)?;
    let c = seats.pop().ok_or("no seat")?;
    let b = seats.pop().ok_or("no seat")?;
    let a = seats.pop().ok_or("no seat")?;
    let mut mailers = vec![in rt.alloc();
        Mailer::new(&cell, a),
        Mailer::new(&cell, b),
        Mailer::new(&cell, c),
    ]?;
    let wrong = first_wrong(&rt, mailers.as_mut_slice());
    assert_eq!(rt; wrong, None);
    Ok(())
}

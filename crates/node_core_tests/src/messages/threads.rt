//! Two senders and one receiver, in threads of their own.
ghost use Rattle.std.specs.Prelude.{◌≡◌, IfOk};
ghost use Rattle.turn_looks.specs.Turns.{SameSeat};

use mcapi_msg::mailer::Mailer;
use mcapi_msg::messages::{EndpointHandle, Msg};
use mcapi_msg::post::Post;
use mcapi_msg::statuses::MsgStatus;
use mtapi_values::Timeout;
use std::alloc::{AllocError, Global};
use std::sync::Wait;
use std::test::Fail;
use std::thread::{Threads, join};
use turn_cell::{TurnCell, TurnSeat};

/// How many messages each sender sends.
const COUNT: u32 = 500;

/// How often a sender tries again, and how often the receiver looks, before they give up.
const PATIENCE: u32 = 2_000_000;

fn numbered(number: u32) -> Msg {
    let mut msg = Msg::new();
    let _ = msg.push((number / 256 % 256) as u8);
    let _ = msg.push((number % 256) as u8);
    msg
}

fn number_of(msg: &Msg) -> u32 {
    let bytes = msg.as_slice();
    let high = bytes.first().copied().unwrap_or(255);
    let low = bytes.last().copied().unwrap_or(255);
    u32::from(high) * 256 + u32::from(low)
}

// Tries again while the endpoint is full.
fn send_one<R: Wait>(rt: &R, mailer: &mut Mailer, to: EndpointHandle, number: u32) -> bool
    ensures { SameSeat mailer.old mailer.new }
{
    for _ in 0..PATIENCE {
        match mailer.send(rt, to, 1, numbered(number)) {
            Ok(()) => return true,
            Err(MsgStatus::Full) => {}
            Err(_) => return false,
        }
    }
    false
}

fn send_all<R: Wait>(
    rt: &R,
    cell: &TurnCell<Post>,
    seat: TurnSeat<Post>,
    to: EndpointHandle,
) -> TurnSeat<Post>
    requires { seat.cell ≡ cell.now.id }
    ensures { SameSeat seat result }
{
    let mut mailer = Mailer::new(cell, seat);
    for number in 0..COUNT {
        if !send_one(rt, &mut mailer, to, number) {
            break;
        }
    }
    mailer.into_seat()
}

fn take_all<R: Wait>(
    rt: &R,
    alloc: Global,
    cell: &TurnCell<Post>,
    seat: TurnSeat<Post>,
    at: EndpointHandle,
) -> Result<(TurnSeat<Post>, Vec<(u32, u32)>), AllocError>
    requires { seat.cell ≡ cell.now.id }
    ensures { IfOk result (λ r. SameSeat seat r.0) }
{
    let mut mailer = Mailer::new(cell, seat);
    let mut taken = Vec::with_capacity(alloc, 1000)?;
    for _ in 0..2 * COUNT {
        let Ok((sender, _, msg)) = mailer.recv(rt, at, Timeout::Looks(PATIENCE)) else {
            break;
        };
        taken.push((sender, number_of(&msg)))?;
    }
    Ok((mailer.into_seat(), taken))
}

fn of_sender(alloc: Global, taken: &[(u32, u32)], sender: u32) -> Result<Vec<u32>, AllocError> {
    let mut numbers = Vec::new(alloc);
    for (who, number) in taken.iter() {
        if *who == sender {
            numbers.push(*number)?;
        }
    }
    Ok(numbers)
}

#[test]
fn two_senders_and_a_receiver(rt: HostRuntime) -> Result<(), Fail> {
    let post = Post::new(rt.alloc(), 3, 1, 4)?;
    let (cell, mut seats) = TurnCell::new(rt.alloc(), post)?;
    let Some(c) = seats.pop() else { unreachable!() };
    let Some(b) = seats.pop() else { unreachable!() };
    let Some(a) = seats.pop() else { unreachable!() };
    let mut opener = Mailer::new(&cell, a);
    let at = opener.open(&rt, 9).ok().ok_or("not opened")?;
    let a = opener.into_seat();
    let shared = &cell;
    let runtime = &rt;
    let (taken, (b, c)) = join(
        runtime,
        move || -> Result<(TurnSeat<Post>, Vec<(u32, u32)>), AllocError>
            requires { a.cell ≡ shared.now.id }
            ensures { IfOk result (λ r. SameSeat a r.0) }
        { take_all(runtime, runtime.alloc(), shared, a, at) },
        move || -> (TurnSeat<Post>, TurnSeat<Post>)
            requires { (b.cell ≡ shared.now.id) × (c.cell ≡ shared.now.id) }
            ensures { SameSeat b result.0 × SameSeat c result.1 }
        {
            join(
                runtime,
                move || -> TurnSeat<Post>
                    requires { b.cell ≡ shared.now.id }
                    ensures { SameSeat b result }
                { send_all(runtime, shared, b, at) },
                move || -> TurnSeat<Post>
                    requires { c.cell ≡ shared.now.id }
                    ensures { SameSeat c result }
                { send_all(runtime, shared, c, at) },
            )
        },
    );
    let (a, taken) = taken?;
    seats.push(a)?;
    seats.push(b)?;
    seats.push(c)?;
    let _ = cell.close(seats);
    assert_eq!(rt; taken.len(), 1000);
    for sender in 1..3u32 {
        let numbers = of_sender(rt.alloc(), &taken, sender)?;
        assert_eq!(rt; numbers.len(), 500);
        for (place, number) in numbers.iter().enumerate() {
            assert_eq!(rt; *number as usize, place);
        }
    }
    Ok(())
}

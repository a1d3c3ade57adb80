//! Two threads call one node by its cell.

ghost use Rattle.std.specs.Prelude.{◌≡◌, IfOk};
ghost use Rattle.turn_cell.specs.Seats.{fresh_seats};

use crate::tests::asking::GROUP;
use mtapi_machine::{Op, Reply};
use mtapi_values::{MtapiStatus, NodeAttr};
use node_core::{Journaled, Node};
use std::alloc::{AllocError, Global};
use std::sync::Wait;
use std::test::Fail;
use std::thread::join;
use turn_cell::{TurnCell, TurnSeat};

/// How many groups each thread makes.
const EACH: u32 = 500;

// A node with one worker and room for all groups.
fn settings() -> Result<NodeAttr, MtapiStatus>
    ensures { IfOk result (λ a. a.workers ≡ 1) }
{
    let mut attr = NodeAttr::new();
    attr.set(NodeAttr::WORKERS, 1)?;
    attr.set(NodeAttr::GROUPS, 1000)?;
    Ok(attr)
}

// The seats of the two callers.
fn callers(
    cell: &TurnCell<Journaled>,
    seats: Vec<TurnSeat<Journaled>>,
) -> (TurnSeat<Journaled>, TurnSeat<Journaled>)
    requires { seats.items ≡ fresh_seats cell.now.terms cell.now.id 0 3 }
    ensures first { result.0.cell ≡ cell.now.id }
    ensures second { result.1.cell ≡ cell.now.id }
{
    let _ = cell;
    let mut seats = seats;
    let Some(b) = seats.pop() else { unreachable!() };
    let Some(a) = seats.pop() else { unreachable!() };
    (a, b)
}

// Makes groups, and gives their handles.
fn make_groups<R: Wait>(
    rt: &R,
    alloc: Global,
    cell: &TurnCell<Journaled>,
    seat: TurnSeat<Journaled>,
) -> Result<(TurnSeat<Journaled>, Vec<u64>), AllocError>
    requires { seat.cell ≡ cell.now.id }
    ensures { IfOk result (λ r. r.0.cell ≡ seat.cell) }
{
    let mut seat = seat;
    let mut handles = Vec::new(alloc);
    for _ in 0..EACH {
        if let Ok(Reply::Handle(handle)) = cell.call(rt, &mut seat, Op::GroupCreate) {
            handles.push(handle)?;
        }
    }
    Ok((seat, handles))
}

#[test]
fn two_threads_are_given_each_handle_once(rt: HostRuntime) -> Result<(), Fail> {
    let Ok(settings) = settings() else {
        return Err(Fail::from("the settings were refused"));
    };
    let node = Node::init(rt.alloc(), settings, 2)?;
    let (cell, seats) = TurnCell::new(rt.alloc(), Journaled::without(node))?;
    let (mut a, b) = callers(&cell, seats);
    assert_eq!(rt; (a.number(), b.number()), (1, 2));
    let _ = cell.call(&rt, &mut a, Op::Initialize);
    let shared = &cell;
    let runtime = &rt;
    let (first, second) = join(
        runtime,
        move || -> Result<(TurnSeat<Journaled>, Vec<u64>), AllocError>
            requires { a.cell ≡ shared.now.id }
            ensures { IfOk result (λ r. r.0.cell ≡ a.cell) }
        { make_groups(runtime, runtime.alloc(), shared, a) },
        move || -> Result<(TurnSeat<Journaled>, Vec<u64>), AllocError>
            requires { b.cell ≡ shared.now.id }
            ensures { IfOk result (λ r. r.0.cell ≡ b.cell) }
        { make_groups(runtime, runtime.alloc(), shared, b) },
    );
    let (mut a, mut all) = first?;
    let (mut b, others) = second?;
    cell.meet(&mut a, &mut b);
    assert!(rt; a.spent().is_none());
    assert_eq!(rt; (all.len(), others.len()), (500, 500));
    all.extend_from_slice(others.as_slice())?;
    all.sort()?;
    assert!(rt; (GROUP..GROUP + 1000).eq(all.iter().copied()));
    Ok(())
}

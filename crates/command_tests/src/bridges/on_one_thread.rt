//! A served node with one worker, two clients and room for one task, and a bridge to it, on one thread.

ghost use Rattle.std.specs.Prelude.{◌≡◌};
ghost use Rattle.turn_cell.specs.Seats.{fresh_seat, fresh_seats};

use action_fn::{
    ActEnd, ActionSet, Finished, FnTable, StoredFn, act_add, act_div, act_echo, act_fail, act_gcd,
    act_max, act_mul, act_triangle,
};
use mtapi_values::{Args, Kind, MtapiStatus};
use node_bridge::{Bridge, BridgeOp, BridgeReply, Served};
use std::sync::Wait;
use std::test::Fail;
use turn_cell::{TurnCell, TurnSeat};
use turn_looks::turn;

#[derive(Drop)]
struct Seats {
    worker: TurnSeat<Served>,
    first: TurnSeat<Served>,
    second: TurnSeat<Served>,
}

fn deal(cell: &TurnCell<Served>, seats: Vec<TurnSeat<Served>>) -> Seats
    requires { seats.items ≡ fresh_seats cell.now.terms cell.now.id 0 3 }
    ensures worker { result.worker ≡ fresh_seat cell.now.terms cell.now.id 0 }
    ensures first { result.first ≡ fresh_seat cell.now.terms cell.now.id 1 }
    ensures second { result.second ≡ fresh_seat cell.now.terms cell.now.id 2 }
{
    let _ = cell;
    let mut seats = seats;
    let Some(second) = seats.pop() else {
        unreachable!()
    };
    let Some(first) = seats.pop() else {
        unreachable!()
    };
    let Some(worker) = seats.pop() else {
        unreachable!()
    };
    Seats {
        worker,
        first,
        second,
    }
}

fn numbers() -> Args {
    let mut args = Args::new();
    let _ = args.push(1);
    let _ = args.push(2);
    let _ = args.push(3);
    args
}

/// What an op is answered.
fn answer<R: Wait>(
    rt: &R,
    cell: &TurnCell<Served>,
    seat: &mut TurnSeat<Served>,
    op: BridgeOp,
) -> Option<BridgeReply>
    requires { seat.old.cell ≡ cell.now.id }
    ensures { seat.new.cell ≡ seat.old.cell }
{
    match turn(rt, cell, seat, op) {
        Ok(reply) => Some(reply),
        Err(_) => None,
    }
}

/// What a start of this kind is answered: the handle, or the status.
fn started<R: Wait>(
    rt: &R,
    cell: &TurnCell<Served>,
    seat: &mut TurnSeat<Served>,
    kind: Kind,
) -> Result<u64, MtapiStatus>
    requires { seat.old.cell ≡ cell.now.id }
    ensures { seat.new.cell ≡ seat.old.cell }
{
    let op = BridgeOp::Start {
        kind,
        args: numbers(),
    };
    match answer(rt, cell, seat, op) {
        Some(BridgeReply::Handle(task)) => Ok(task.0),
        Some(BridgeReply::Refused(status)) => Err(status),
        _ => Ok(0),
    }
}

/// The sum in an end.
fn number_in(done: &Finished) -> i64 {
    match done.end() {
        ActEnd::Done(list) => list.as_slice().first().copied().unwrap_or(0),
        ActEnd::Fails(_) => 0,
    }
}

/// The first client's start, and what others are refused beside it.
#[test]
fn starts(rt: HostRuntime) -> Result<(), Fail> {
    let served = Served::new(rt.alloc(), 1, 2, 1)?;
    let (cell, seats) = TurnCell::new(rt.alloc(), served)?;
    let Seats {
        worker: _,
        mut first,
        mut second,
    } = deal(&cell, seats);
    let watch = started(&rt, &cell, &mut first, Kind::Watch);
    assert_eq!(rt; watch, Err(MtapiStatus::ErrParameter));
    let tally = started(&rt, &cell, &mut first, Kind::Tally);
    assert_eq!(rt; tally, Err(MtapiStatus::ErrParameter));
    assert_eq!(rt;
        started(&rt, &cell, &mut first, Kind::Add),
        Ok(4_328_521_728)
    );
    assert_eq!(rt;
        started(&rt, &cell, &mut second, Kind::Mul),
        Err(MtapiStatus::ErrTaskLimit)
    );
    Ok(())
}

/// A task from its start to its end, and the end of the node.
#[test]
fn one_task(rt: HostRuntime) -> Result<(), Fail> {
    let served = Served::new(rt.alloc(), 1, 2, 1)?;
    let (cell, seats) = TurnCell::new(rt.alloc(), served)?;
    let Seats {
        mut worker,
        mut first,
        second: _,
    } = deal(&cell, seats);
    let idle = answer(&rt, &cell, &mut worker, BridgeOp::Pick);
    assert!(rt; matches!(idle, Some(BridgeReply::Idle)));
    let task = started(&rt, &cell, &mut first, Kind::Add);
    assert_eq!(rt; task, Ok(4_328_521_728));
    let Some(BridgeReply::Picked { task, kind, args }) = answer(
        &rt,
        &cell,
        &mut worker,
        BridgeOp::Pick,
    ) else {
        return Err("nothing picked".into());
    };
    assert_eq!(rt; (task.0, kind), (4_328_521_728, Kind::Add));
    let look = answer(&rt, &cell, &mut first, BridgeOp::Look { task });
    assert!(rt; matches!(look, Some(BridgeReply::Pending)));
    let end = act_add(&args);
    let done = Finished::new(Kind::Add, args, end);
    let finish = answer(&rt, &cell, &mut worker, BridgeOp::Finish { task, done });
    assert!(rt; matches!(finish, Some(BridgeReply::Ok)));
    let Some(BridgeReply::Done(done)) = answer(&rt, &cell, &mut first, BridgeOp::Look { task })
    else {
        return Err("no end".into());
    };
    assert_eq!(rt; number_in(&done), 6);
    let close = answer(&rt, &cell, &mut first, BridgeOp::Close);
    assert!(rt; matches!(close, Some(BridgeReply::Ok)));
    let stop = answer(&rt, &cell, &mut worker, BridgeOp::Pick);
    assert!(rt; matches!(stop, Some(BridgeReply::Stop)));
    Ok(())
}

fn functions() -> FnTable {
    FnTable::new(
        StoredFn::new(Kind::Add, act_add),
        StoredFn::new(Kind::Mul, act_mul),
        StoredFn::new(Kind::Max, act_max),
        StoredFn::new(Kind::Div, act_div),
        StoredFn::new(Kind::Gcd, act_gcd),
        StoredFn::new(Kind::Echo, act_echo),
        StoredFn::new(Kind::Triangle, act_triangle),
        StoredFn::new(Kind::Fail, act_fail),
    )
}

/// Where there is no room, the bridge asks its own side and leaves nothing behind.
#[test]
fn a_bridge_to_a_full_node(rt: HostRuntime) -> Result<(), Fail> {
    let served = Served::new(rt.alloc(), 1, 2, 1)?;
    let (cell, seats) = TurnCell::new(rt.alloc(), served)?;
    let Seats {
        worker: _,
        mut first,
        second,
    } = deal(&cell, seats);
    assert_eq!(rt;
        started(&rt, &cell, &mut first, Kind::Mul),
        Ok(4_328_521_728)
    );
    let mut bridge = Bridge::new(&cell, second, functions());
    let done = bridge.run(&rt, Kind::Add, numbers());
    assert_eq!(rt; number_in(&done), 6);
    Ok(())
}

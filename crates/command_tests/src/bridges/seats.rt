//! The second node's two workers, the bridges to it, and the client that closes it.

ghost use Rattle.std.specs.Prelude.{◌≡◌, ◌<◌, [], IfOk};
ghost use Rattle.turn_cell.specs.Seats.{fresh_seat, fresh_seats};

use crate::bridges::actions::Counted;
use node_bridge::{Bridge, RemoteWorker, Served, law_unused_workers_rest};
use std::alloc::{AllocError, Global};
use std::sync::atomic::AtomicU64;
use turn_cell::{TurnCell, TurnSeat};

/// Who holds the seats of the second node.
#[derive(Drop)]
pub(crate) struct Holders<'a> {
    pub(crate) workers: (RemoteWorker<'a>, RemoteWorker<'a>),
    pub(crate) bridges: Vec<Bridge<'a, Counted<'a>>>,
    pub(crate) last: TurnSeat<Served>,
}

// A worker of a seat that has made no entry.
fn worker<'a>(cell: &'a TurnCell<Served>, seat: TurnSeat<Served>) -> RemoteWorker<'a>
    requires cell { seat.cell ≡ cell.now.id }
    requires unused { seat.mine ≡ [] }
    requires worker { seat.number < seat.terms.node.settings.workers }
{
    seat.known();
    law_unused_workers_rest();
    RemoteWorker::new(cell, seat)
}

/// Two workers, a bridge of the first client, and the second client.
pub(crate) fn one_bridge<'a>(
    alloc: Global,
    cell: &'a TurnCell<Served>,
    seats: Vec<TurnSeat<Served>>,
    near: &'a AtomicU64,
) -> Result<Holders<'a>, AllocError>
    requires workers { cell.now.terms.node.settings.workers ≡ 2 }
    requires seats { seats.items ≡ fresh_seats cell.now.terms cell.now.id 0 4 }
    ensures { IfOk result (λ h. h.last ≡ fresh_seat cell.now.terms cell.now.id 3) }
{
    let mut seats = seats;
    let Some(last) = seats.pop() else {
        unreachable!()
    };
    let Some(first) = seats.pop() else {
        unreachable!()
    };
    let Some(b) = seats.pop() else { unreachable!() };
    let Some(a) = seats.pop() else { unreachable!() };
    let mut bridges = Vec::with_capacity(alloc, 2)?;
    bridges.push(Bridge::new(cell, first, Counted { asked: near }))?;
    Ok(Holders {
        workers: (worker(cell, a), worker(cell, b)),
        bridges,
        last,
    })
}

/// Two workers, bridges of the first two clients, and the third client.
pub(crate) fn two_bridges<'a>(
    alloc: Global,
    cell: &'a TurnCell<Served>,
    seats: Vec<TurnSeat<Served>>,
    near: &'a AtomicU64,
) -> Result<Holders<'a>, AllocError>
    requires workers { cell.now.terms.node.settings.workers ≡ 2 }
    requires seats { seats.items ≡ fresh_seats cell.now.terms cell.now.id 0 5 }
    ensures { IfOk result (λ h. h.last ≡ fresh_seat cell.now.terms cell.now.id 4) }
{
    let mut seats = seats;
    let Some(third) = seats.pop() else {
        unreachable!()
    };
    let Holders {
        workers,
        mut bridges,
        last,
    } = one_bridge(alloc, cell, seats, near)?;
    bridges.push(Bridge::new(cell, last, Counted { asked: near }))?;
    Ok(Holders {
        workers,
        bridges,
        last: third,
    })
}

//! One run of the command whose actions go to the second node, with that node's workers in threads beside it.

ghost use Rattle.std.specs.Prelude.{◌≡◌};

use crate::bridges::actions::{Bridges, Counted};
use crate::bridges::seats::Holders;
use mtapi_top::{Threads, command};
use mtapi_values::{Args, Kind};
use node_bridge::{BridgeOp, BridgeReply, RemoteWorker, ServeEnd, Served};
use std::alloc::{AllocError, Global};
use std::sync::Wait;
use std::sync::atomic::AtomicU64;
use std::thread::{Threads as StartsThreads, join};
use turn_cell::{TurnCell, TurnSeat};
use turn_looks::turn;
use workload_file::{MemSink, MemSource};

/// More bytes than a report of these tests has.
const ROOM: usize = 65_536;

/// What the command said, and what was answered to the starts that the last client made afterwards: handles.
#[derive(Drop)]
pub(crate) struct Said {
    pub(crate) status: u8,
    pub(crate) out: MemSink,
    pub(crate) handles: Vec<u64>,
}

/// How often actions were asked: by the second node's workers, and in place of a bridge's answer.
#[derive(Drop)]
pub(crate) struct Counts {
    pub(crate) far: AtomicU64,
    pub(crate) near: AtomicU64,
}

// Runs the command with these actions over this workload.
fn run<R: StartsThreads + Wait + Sync>(
    rt: &R,
    alloc: Global,
    text: Vec<u8>,
    acts: &mut Bridges,
) -> Result<(u8, MemSink), AllocError> {
    let mut src = MemSource::new(text, 4096, Vec::new(alloc));
    let mut out = MemSink::new(alloc, ROOM, 4096, Vec::new(alloc))?;
    let mut err = MemSink::new(alloc, ROOM, 4096, Vec::new(alloc))?;
    let outcome = command(
        rt,
        alloc,
        &["run"],
        &mut src,
        &mut out,
        &mut err,
        acts,
        &mut Threads::new(),
    );
    Ok((outcome.status, out))
}

// What a start of a sum is answered: the handle, or 0.
fn start<R: Wait>(rt: &R, cell: &TurnCell<Served>, seat: &mut TurnSeat<Served>) -> u64
    requires { seat.old.cell ≡ cell.now.id }
    ensures { seat.new.cell ≡ seat.old.cell }
{
    let op = BridgeOp::Start {
        kind: Kind::Add,
        args: Args::new(),
    };
    match turn(rt, cell, seat, op) {
        Ok(BridgeReply::Handle(task)) => task.0,
        _ => 0,
    }
}

// So many starts.
fn start_all<R: Wait>(
    rt: &R,
    alloc: Global,
    cell: &TurnCell<Served>,
    seat: &mut TurnSeat<Served>,
    count: u32,
) -> Result<Vec<u64>, AllocError>
    requires { seat.old.cell ≡ cell.now.id }
    ensures { seat.new.cell ≡ seat.old.cell }
{
    let mut handles = Vec::new(alloc);
    for _ in 0..count {
        handles.push(start(rt, cell, seat))?;
    }
    Ok(handles)
}

// The command, then so many starts of the last client, and then the second node's close, whatever came before.
fn run_and_close<R: StartsThreads + Wait + Sync>(
    rt: &R,
    alloc: Global,
    cell: &TurnCell<Served>,
    acts: Bridges,
    last: TurnSeat<Served>,
    text: Vec<u8>,
    starts: u32,
) -> Result<Said, AllocError>
    requires { last.cell ≡ cell.now.id }
{
    let mut acts = acts;
    let mut last = last;
    let run = run(rt, alloc, text, &mut acts);
    let handles = start_all(rt, alloc, cell, &mut last, starts);
    let _ = turn(rt, cell, &mut last, BridgeOp::Close);
    let (status, out) = run?;
    Ok(Said {
        status,
        out,
        handles: handles?,
    })
}

// Serves until the second node has closed. Whether it was told to stop.
fn serve<R: Wait>(rt: &R, worker: RemoteWorker, far: &AtomicU64) -> bool {
    let mut acts = Counted { asked: far };
    let (_seat, end) = worker.serve(rt, &mut acts);
    matches!(end, ServeEnd::Stopped)
}

/// The command over this workload and then so many starts of the last client, beside the two workers of the second node, each in a thread
/// of its own. The second value says whether both workers were told to stop.
pub(crate) fn run_beside<R: StartsThreads + Wait + Sync>(
    rt: &R,
    alloc: Global,
    cell: &TurnCell<Served>,
    holders: Holders,
    counts: &Counts,
    text: Vec<u8>,
    starts: u32,
) -> (Result<Said, AllocError>, bool)
    requires { holders.last.cell ≡ cell.now.id }
{
    let Holders {
        workers: (first, second),
        bridges,
        last,
    } = holders;
    let far = &counts.far;
    let acts = Bridges {
        bridges,
        near: &counts.near,
    };
    let (first, (second, said)) = join(
        rt,
        move || -> bool { serve(rt, first, far) },
        move || -> (bool, Result<Said, AllocError>)
            requires { last.cell ≡ cell.now.id }
        {
            join(
                rt,
                move || -> bool { serve(rt, second, far) },
                move || -> Result<Said, AllocError>
                    requires { last.cell ≡ cell.now.id }
                { run_and_close(rt, alloc, cell, acts, last, text, starts) },
            )
        },
    );
    (said, first && second)
}

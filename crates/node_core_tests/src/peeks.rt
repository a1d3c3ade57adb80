//! Tasks in one slot, one after the other.

ghost use Rattle.std.specs.Prelude.{◌≡◌, [], ◌∷◌, IfOk, IfSome, replicate};
ghost use Rattle.turn_cell.specs.Seats.{fresh_seat as fresh_cell_seat, fresh_seats};
ghost use Rattle.peek_board.specs.Numbers.{class_of_end};
ghost use Rattle.peek_board.specs.Seats.{fresh_board_seat};
ghost use Rattle.node_core.specs.Logs.{journal_seats};
ghost use Rattle.peek_board.specs.Marks.{HasEndedSo, IsOf, SamePeeker};

use action_fn::{Finished, act_add};
use mtapi_values::{Args, Kind, Mask, MtapiStatus, NodeAttr, TaskEnd, TaskHandle};
use node_core::{Journaled, Node, Op, Reply};
use peek_board::boards::Board;
use peek_board::classes::{EndClass, Peek};
use peek_board::closing::close_both;
use peek_board::marks::{Marks, Peeker};
use peek_board::words::BoardSeat;
use std::alloc::{AllocError, Global};
use std::sync::Wait;
use std::test::Fail;
use turn_cell::{TurnCell, TurnSeat};

// A node with one worker and one task at a time.
fn settings() -> Result<NodeAttr, MtapiStatus>
    ensures { IfOk result (λ a. a.workers ≡ 1) }
{
    let mut attr = NodeAttr::new();
    attr.set(NodeAttr::WORKERS, 1)?;
    attr.set(NodeAttr::TASKS, 1)?;
    Ok(attr)
}

// The two seats of each.
#[derive(Drop)]
struct Seats {
    worker: Marks,
    caller: Marks,
}

fn deal(
    cell: &TurnCell<Journaled>,
    seats: Vec<TurnSeat<Journaled>>,
    board: &Board,
    marks: Vec<BoardSeat>,
) -> Seats
    requires seats { seats.items ≡ fresh_seats cell.now.terms cell.now.id 0 2 }
    requires marks { marks.items ≡ replicate 2 (fresh_board_seat board.now.id) }
    ensures worker { result.worker ≡ record { seat = fresh_cell_seat cell.now.terms cell.now.id 0; mark = fresh_board_seat board.now.id } }
    ensures caller { result.caller ≡ record { seat = fresh_cell_seat cell.now.terms cell.now.id 1; mark = fresh_board_seat board.now.id } }
{
    let _ = cell;
    let _ = board;
    let mut seats = seats;
    let mut marks = marks;
    let Some(caller) = seats.pop() else {
        unreachable!()
    };
    let Some(worker) = seats.pop() else {
        unreachable!()
    };
    let Some(second) = marks.pop() else {
        unreachable!()
    };
    let Some(first) = marks.pop() else {
        unreachable!()
    };
    Seats {
        worker: Marks::new(worker, first),
        caller: Marks::new(caller, second),
    }
}

fn gather(alloc: Global, worker: Marks, caller: Marks) -> Result<Vec<Marks>, AllocError>
    ensures { IfOk result (λ marks. marks.items ≡ worker ∷ caller ∷ []) }
{
    let mut marks = Vec::with_capacity(alloc, 2)?;
    marks.push_reserved(worker);
    marks.push_reserved(caller);
    Ok(marks)
}

// Closes the cell and the board with their two seats.
fn end(
    alloc: Global,
    cell: TurnCell<Journaled>,
    board: Board,
    worker: Marks,
    caller: Marks,
) -> Result<Journaled, AllocError>
    requires two { (journal_seats cell.terms ≡ 2) × (board.terms.seats ≡ 2) }
    requires worker { IsOf cell.id board.id worker × (worker.seat.number ≡ 0) }
    requires caller { IsOf cell.id board.id caller × (caller.seat.number ≡ 1) }
{
    let marks = gather(alloc, worker, caller)?;
    Ok(close_both(cell, board, marks))
}

fn handle_in(reply: &Option<Reply>) -> u64 {
    match reply {
        Some(Reply::Handle(handle)) => *handle,
        _ => 0,
    }
}

fn start() -> Op {
    Op::TaskStart {
        job: 1,
        args: Args::new(),
        priority: 0,
        cores: Mask::init(true),
        detached: false,
        group: None,
    }
}

// Opens the node, and makes an action.
fn open<R: Wait>(rt: &R, caller: &mut Peeker)
    ensures { SamePeeker caller.old caller.new }
{
    let _ = caller.call(rt, Op::Initialize);
    let _ = caller.call(
        rt,
        Op::ActionCreate {
            job: 1,
            kind: Kind::Add,
            cores: Mask::init(true),
        },
    );
}

// The worker takes the task and ends it.
fn work<R: Wait>(rt: &R, worker: &mut Peeker, task: TaskHandle)
    ensures { SamePeeker worker.old worker.new }
{
    let _ = worker.call(rt, Op::Pick);
    let args = Args::new();
    let end = act_add(&args);
    let done = Finished::new(Kind::Add, args, end);
    let _ = worker.call(rt, Op::Finish { task, done });
}

// A handle that the node gives for this op, and 0 where it gives none.
fn made<R: Wait>(rt: &R, caller: &mut Peeker, op: Op) -> u64
    ensures { SamePeeker caller.old caller.new }
{
    let reply = caller.call(rt, op).ok();
    handle_in(&reply)
}

// The end that a look tells.
fn look<R: Wait>(rt: &R, caller: &mut Peeker, task: TaskHandle) -> Option<TaskEnd>
    ensures same { SamePeeker caller.old caller.new }
    ensures ended { IfSome result (λ end. HasEndedSo caller.new.marks.seat (task, class_of_end end)) }
{
    match caller.call(rt, Op::TaskLook { task, last: false }) {
        Ok(Reply::Ended(end)) => Some(end),
        Ok(_) => None,
        Err(_) => None,
    }
}

// A task that was started and then cancelled, before a worker took it.
fn cancelled<R: Wait>(rt: &R, caller: &mut Peeker) -> TaskHandle
    ensures { SamePeeker caller.old caller.new }
{
    let task = TaskHandle(made(rt, caller, start()));
    let _ = caller.call(rt, Op::TaskCancel { task });
    task
}

// What a peek shows before the end of the task is posted, and what it shows behind.
fn before_and_after<R: Wait>(rt: &R, caller: &mut Peeker, task: TaskHandle) -> Option<(Peek, Peek)>
    ensures same { SamePeeker caller.old caller.new }
{
    let end = look(rt, caller, task)?;
    let before = caller.peek(task);
    if !caller.is_on_board(task) {
        return None;
    }
    caller.post(task, EndClass::of(&end));
    Some((before, caller.peek(task)))
}

#[test]
fn tasks_in_one_slot(rt: HostRuntime) -> Result<(), Fail> {
    let alloc = rt.alloc();
    let Ok(settings) = settings() else {
        return Err(Fail::from("the settings were refused"));
    };
    let node = Node::init(alloc, settings, 1)?;
    let (cell, seats) = TurnCell::new(alloc, Journaled::without(node))?;
    let (board, marks) = Board::new(alloc, 1, 2)?;
    let Seats { worker, caller } = deal(&cell, seats, &board, marks);
    let mut worker = Peeker::new(&board, &cell, worker);
    let mut caller = Peeker::new(&board, &cell, caller);
    let ended = Peek::Ended(EndClass::Completed);
    open(&rt, &mut caller);
    let first = TaskHandle(made(&rt, &mut caller, start()));
    work(&rt, &mut worker, first);
    assert_eq!(rt;
        before_and_after(&rt, &mut caller, first),
        Some((Peek::NotYet, ended))
    );
    let second = TaskHandle(made(&rt, &mut caller, start()));
    assert_eq!(rt; (first.0, second.0), (0x1_0200_0000, 0x2_0200_0000));
    work(&rt, &mut worker, second);
    assert_eq!(rt; worker.peek(first), ended);
    assert_eq!(rt;
        before_and_after(&rt, &mut caller, second),
        Some((Peek::NotYet, ended))
    );
    assert_eq!(rt;
        (worker.peek(first), worker.peek(second)),
        (Peek::Gone, ended)
    );
    let third = cancelled(&rt, &mut caller);
    assert_eq!(rt;
        before_and_after(&rt, &mut caller, third),
        Some((Peek::NotYet, Peek::Ended(EndClass::Cancelled)))
    );
    let group = TaskHandle(made(&rt, &mut caller, Op::GroupCreate));
    assert_eq!(rt; (group.0 != 0, caller.peek(group)), (true, Peek::Foreign));
    let worker = worker.into_marks();
    let caller = caller.into_marks();
    let node = end(alloc, cell, board, worker, caller)?;
    assert!(rt; matches!(node.into_journal(), Ok(None)));
    Ok(())
}

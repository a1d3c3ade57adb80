//! Laws of every legal history. Each function does nothing: its contract is the law.
#![tactic(auto)]

ghost use Rattle.mtapi_machine.specs.Legal.{Legal};
ghost use Rattle.history_law.specs.Accepted.{AcceptedTasksEndOnce};
ghost use Rattle.mtapi_machine.specs.State.{terms_with};
ghost use Rattle.history_law.specs.Ends.{OneEnd, EndsAfterClose};
ghost use Rattle.mtapi_machine.specs.Laws.{DropsToSame};
ghost use Rattle.history_law.specs.Affinity.{ObeysMasks};
ghost use Rattle.history_law.specs.Causes.{EndHasItsCause};
ghost use Rattle.history_law.specs.Order.{GivenInOrder};
ghost use Rattle.history_law.specs.Ordered.{RunsInOrder};
ghost use Rattle.history_law.specs.Refused.{LawsRefuse};
ghost use Rattle.history_law.specs.RefusedRuns.{RunLawsRefuse};
ghost use Rattle.history_law.specs.RefusedCauses.{CausesRefuse};
ghost use Rattle.history_law.specs.RefusedClauses.{ClausesRefuse};
ghost use Rattle.history_law.specs.RefusedFields.{FieldsRefuse};
ghost use Rattle.history_law.specs.WorkedWords.{WorkedWords};
ghost use Rattle.history_law.specs.Exclusion.{MutexesKeepTo, SemsKeepTo, RwlsKeepTo};
ghost use Rattle.history_law.specs.Told.{TellsItsEnd};
ghost use Rattle.history_law.specs.Tally.{HoldsTheSum};
ghost use Rattle.history_law.specs.TallyHolds.{RunningTalliesHold};
ghost use Rattle.history_law.specs.Quiet.{QuietTasksEndPlainly};
ghost use Rattle.history_law.specs.Reuse.{NeverAgain, NotInBoth};
ghost use Rattle.history_law.specs.Seats.{OnceAfter, OnceStays, WaiterStays, WorkStays, NoLateEnd, PhaseStays, ReleaseStays, EnterBehindRelease, FinalBehindStops, EarlyStays, StoppedStays, StoppedRoom, UnstartedAreUntouched, EntriesBySeats};
ghost use Rattle.history_law.specs.Served.{WorkIsServed};
ghost use Rattle.history_law.specs.Worked.{OneTaskEnds};
ghost use Rattle.history_law.specs.WorkedSum.{TalliesAddUp};

use mtapi_machine::Entry;
use mtapi_values::{
    GroupHandle, Layout, NodeAttr, ObjectKind, QueueHandle, ShmemHandle, TaskHandle,
};

/// In a legal history that ends with the final step, every task that was accepted has one record and ends once: it is ended at the end
/// of the history, and wherever an end of it shows, that is its end.
pub fn law_accepted()
    ensures { AcceptedTasksEndOnce }
{}

/// A task has at most one end: once a prefix of the history leaves it ended, every longer one leaves it ended so; and the end that a
/// look at it tells is that end.
pub fn law_one_end(
    layout: Layout,
    settings: &NodeAttr,
    callers: u32,
    entries: &[Entry],
    t: TaskHandle,
)
    requires { Legal (terms_with layout settings.now callers) entries.now }
    ensures one { OneEnd (terms_with layout settings.now callers) entries.now t.0 }
    ensures reported { TellsItsEnd (terms_with layout settings.now callers) entries.now t.0 }
{}

/// Where the history has `final` with Ok, a task that was accepted has exactly one end.
pub fn law_end_after_close(
    layout: Layout,
    settings: &NodeAttr,
    callers: u32,
    entries: &[Entry],
    t: TaskHandle,
)
    requires { Legal (terms_with layout settings.now callers) entries.now }
    ensures { EndsAfterClose (terms_with layout settings.now callers) entries.now t.0 }
{}

/// Each end of a task has its cause: an entry of the history ended it, and found what its op needs for that. So a task is cancelled only
/// by a cancel, a disable of its queue or the close before it begins, or as a watch that saw a request; and it fails only as its action,
/// its watch or its tally does, or by a delete or disable of what it needs.
#[tactic(auto, using(crate::proofs::Causes::end_has_its_cause))]
pub fn law_end_has_its_cause(
    layout: Layout,
    settings: &NodeAttr,
    callers: u32,
    entries: &[Entry],
    t: TaskHandle,
)
    requires { Legal (terms_with layout settings.now callers) entries.now }
    ensures { EndHasItsCause (terms_with layout settings.now callers) entries.now t.0 }
{}

/// A worked history: its one task ends once, and how.
#[tactic(auto, using(crate::proofs::Worked::one_task_ends))]
pub fn worked_end()
    ensures { OneTaskEnds }
{}

/// A worked history of two tallies: it has what the law of tallies asks for, and the cell holds the sum of both.
#[tactic(auto, using(crate::proofs::tallies::WorkedSum::tallies_add_up))]
pub fn worked_tallies()
    ensures { TalliesAddUp }
{}

/// No two tasks are issued under one handle.
#[tactic(auto, using(crate::proofs::Others::once_after, crate::proofs::Others::once_stays))]
pub fn law_once_listed()
    ensures after { OnceAfter }
    ensures stays { OnceStays }
{}

/// A seat's mark as the waiter of a task is kept by the entries of other seats.
#[tactic(auto, using(crate::proofs::Others::waiter_stays))]
pub fn law_waiter_stays()
    ensures { WaiterStays }
{}

/// A task that a worker took stays on it, with its kind, its arguments and what it has done so far, over the entries of other seats;
/// and a worker that has none gets none by them. So what the worker asks of its task isn't refused as that of another's.
#[tactic(auto, using(crate::proofs::Others::work_stays))]
pub fn law_work_stays()
    ensures stays { WorkStays }
    ensures served { WorkIsServed }
{}

/// No task ends with the failure TIMEOUT or SPENT.
#[tactic(auto, using(crate::proofs::Others::no_late_end))]
pub fn law_no_late_end()
    ensures { NoLateEnd }
{}

/// The phase is moved by its own three ops alone, and the release by its one. Before the node is closed, the phase isn't late.
pub fn law_phase_stays()
    ensures phase { PhaseStays }
    ensures release { ReleaseStays }
    ensures early { EarlyStays }
{}

/// A task that hasn't begun has neither looked nor been told anything.
#[tactic(auto, using(crate::proofs::Others::unstarted_untouched))]
pub fn law_untouched()
    ensures { UnstartedAreUntouched }
{}

/// A worker that has stopped stays so, and there is a mark for each seat.
#[tactic(auto, using(crate::proofs::Others::stopped_stays, crate::proofs::Bounds::stopped_room))]
pub fn law_stopped_stays()
    ensures stays { StoppedStays }
    ensures room { StoppedRoom }
{}

/// Every entry is by a seat.
#[tactic(auto, using(crate::proofs::Bounds::by_seats))]
pub fn law_seats()
    ensures { EntriesBySeats }
{}

/// The history without its dropped entries is legal, and leads to the same state.
pub fn law_drop(layout: Layout, settings: &NodeAttr, callers: u32, entries: &[Entry])
    requires { Legal (terms_with layout settings.now callers) entries.now }
    ensures { DropsToSame (terms_with layout settings.now callers) entries.now }
{}

/// A handle that has stopped being live is never issued or live again.
pub fn law_no_reuse(
    layout: Layout,
    settings: &NodeAttr,
    callers: u32,
    entries: &[Entry],
    kind: ObjectKind,
    h: u64,
)
    requires { Legal (terms_with layout settings.now callers) entries.now }
    ensures { NeverAgain (terms_with layout settings.now callers) entries.now kind h }
{}

/// In layout two no handle was issued to objects of two kinds.
#[tactic(auto, using(crate::proofs::Reuse::not_in_both))]
pub fn law_kind(
    layout: Layout,
    settings: &NodeAttr,
    callers: u32,
    entries: &[Entry],
    a: ObjectKind,
    b: ObjectKind,
    h: u64,
)
    requires { Legal (terms_with layout settings.now callers) entries.now }
    ensures { NotInBoth layout (terms_with layout settings.now callers) entries.now a b h }
{}

/// A pick at this place, counted from 0, obeys both masks: its worker is in the mask with which the task was started, and in the one
/// with which the action was made.
pub fn law_affinity(
    layout: Layout,
    settings: &NodeAttr,
    callers: u32,
    entries: &[Entry],
    place: usize,
)
    requires { Legal (terms_with layout settings.now callers) entries.now }
    ensures { ObeysMasks entries.now place }
{}

/// A group gives its members in the order of their ends, each once.
#[tactic(auto, using(crate::proofs::Order::given_in_order))]
pub fn law_group_order(
    layout: Layout,
    settings: &NodeAttr,
    callers: u32,
    entries: &[Entry],
    g: GroupHandle,
)
    requires { Legal (terms_with layout settings.now callers) entries.now }
    ensures { GivenInOrder (terms_with layout settings.now callers) entries.now g.0 }
{}

/// The runs of an ordered queue don't overlap, and begin in the order in which its tasks were put.
pub fn law_ordered(
    layout: Layout,
    settings: &NodeAttr,
    callers: u32,
    entries: &[Entry],
    q: QueueHandle,
)
    requires { Legal (terms_with layout settings.now callers) entries.now }
    ensures { RunsInOrder (terms_with layout settings.now callers) entries.now q.0 }
{}

/// For each law a list that it refuses, so that none of them says nothing: for a law of a list one that isn't legal, and for one of the
/// run in threads one that lacks what the law asks for. Further ones refuse what a law would let through without one of its clauses,
/// or without one of its fields. The words of the laws take of all ops and replies those that they name.
pub fn worked_refusals()
    ensures of_lists { LawsRefuse }
    ensures of_runs { RunLawsRefuse }
    ensures of_causes { CausesRefuse }
    ensures of_clauses { ClausesRefuse }
    ensures of_fields { FieldsRefuse }
    ensures of_words { WorkedWords }
{}

/// An Ok `enter` stands behind an Ok `release`, and an Ok `final` behind a Stop of each worker.
#[tactic(auto, using(crate::proofs::Behind::enter_behind, crate::proofs::Behind::final_behind))]
pub fn law_behind()
    ensures enter { EnterBehindRelease }
    ensures final_step { FinalBehindStops }
{}

/// Locks are held within their limits, by counts of entries: at every moment at most one seat holds a mutex, those that hold a semaphore are
/// at most as many as its limit, and a reader-writer lock has one writer and no reader, or no writer and at most as many readers as its
/// limit.
pub fn law_exclusion(layout: Layout, settings: &NodeAttr, callers: u32, entries: &[Entry])
    requires { Legal (terms_with layout settings.now callers) entries.now }
    ensures mutexes { MutexesKeepTo (terms_with layout settings.now callers) entries.now }
    ensures semaphores { SemsKeepTo entries.now }
    ensures reader_writer_locks { RwlsKeepTo entries.now }
{}

/// In a legal history with the final step the cell of a segment holds the sum of the numbers that the completed tallies of it add, where no
/// caller wrote to the cell and these tallies name one mutex.
pub fn law_tally(
    layout: Layout,
    settings: &NodeAttr,
    callers: u32,
    entries: &[Entry],
    s: ShmemHandle,
    cell: u32,
)
    requires { Legal (terms_with layout settings.now callers) entries.now }
    ensures { HoldsTheSum (terms_with layout settings.now callers) entries.now s.0 cell }
{}

/// While a tally runs that has got its mutex and its segment, both are live: its worker owns the mutex once, and is attached to the
/// segment.
pub fn law_tally_holds()
    ensures { RunningTalliesHold }
{}

/// Where nobody cancels, deletes or disables anything, and every action is of a pure kind, each task that has ended ended as the kind of
/// an action of its job answers to its arguments.
#[tactic(auto, using(crate::proofs::Quiet::quiet_tasks_end_plainly))]
pub fn law_quiet_ends()
    ensures { QuietTasksEndPlainly }
{}

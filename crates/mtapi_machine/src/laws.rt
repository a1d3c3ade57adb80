//! Laws that follow from the definitions of the machine alone. Each function does nothing: its contract is the law.

ghost use Rattle.mtapi_machine.specs.Answers.{RowsAnswer};
ghost use Rattle.mtapi_machine.specs.Laws.{MovesAreMade, PrefixIsLegal, NextIsLegal, StatusStays, StatusIsAlone, DroppedStays, DroppingIsLegal, TasksStay, TasksAreServed, TasksInStartOrder, LegalReplays};

/// Every move of a row is made where it may be.
#[tactic(auto, using(crate::proofs::Made::row_made))]
pub fn law_made()
    ensures { MovesAreMade }
{}

/// A reply that a row allows is one of the answers to its op, with the moves of the row: what the rows say, read off once.
#[tactic(auto, using(crate::proofs::Answered::answered))]
pub fn law_answers()
    ensures { RowsAnswer }
{}

/// Every prefix of a legal list is legal.
pub fn law_prefix()
    ensures { PrefixIsLegal }
{}

/// An entry that may come next makes a legal list longer.
pub fn law_next()
    ensures { NextIsLegal }
{}

/// A status leaves the state as it was. The two exceptions are TIMEOUT of a look at a task, which takes this seat's mark as its
/// waiter away, and what a look at a whole group tells of a member once all have ended, and are freed.
#[tactic(auto, using(crate::proofs::Refusals::status_stays))]
pub fn law_status()
    ensures { StatusStays }
{}

/// Where a status may answer an op, no other reply may: whoever is refused couldn't have been answered anything else.
#[tactic(auto, using(crate::proofs::Alone::row_alone))]
pub fn law_status_alone()
    ensures { StatusIsAlone }
{}

/// An entry is dropped exactly where its reply is Idle, or Pending and the state stayed as it was; a dropped entry leaves the state.
#[tactic(auto, using(crate::proofs::Drops::drops_rightly))]
pub fn law_dropped()
    ensures { DroppedStays }
{}

/// A legal list without its dropped entries is legal, and leads to the same state.
pub fn law_drop()
    ensures { DroppingIsLegal }
{}

/// Over any legal list each task stays listed in its place: what isn't live stays so, and an end stays as it is.
pub fn law_tasks_stay()
    ensures { TasksStay }
{}

/// After any legal list some worker has an eligible action for every scheduled task.
#[tactic(auto, using(crate::proofs::Served::served, crate::proofs::Served::after_served))]
pub fn law_served()
    ensures { TasksAreServed }
{}

/// After any legal list the tasks are listed in the order of their starts.
pub fn law_start_order()
    ensures { TasksInStartOrder }
{}

/// A list is legal exactly where its replay, which computes, is the list itself.
#[tactic(auto, using(crate::proofs::Replays::replay_if, crate::proofs::Replays::legal_if))]
pub fn law_replay()
    ensures { LegalReplays }
{}

//! Laws of runs that have begun.

ghost use Rattle.begun_runs.specs.Asks.{EachIsAsked};
ghost use Rattle.begun_runs.specs.Halts.{HaltsIsStuck};
ghost use Rattle.begun_runs.specs.Begun.{FrontsOfRuns, FrontsOfBegun, NoRunGoesOn};
ghost use Rattle.begun_runs.specs.Worked.{WorkedComplete};
ghost use Rattle.begun_runs.specs.WorkedAsks.{WorkedAsks};

/// Each front of the journal of a run is that of a run that has begun, and so is each front of such a one.
#[tactic(auto, using(crate::proofs::Fronts::fronts_of_runs, crate::proofs::Fronts::fronts_of_begun))]
pub fn law_fronts()
    ensures runs { FrontsOfRuns }
    ensures begun { FrontsOfBegun }
{}

/// Each entry of the journal of a run that has begun is one that its seat may make behind the earlier ones: a caller's op is asked by its
/// next statement, which the replies so far tell, and a worker works or is told to stop.
pub fn law_next()
    ensures { EachIsAsked }
{}

/// No legal run goes on from a deadlock.
pub fn law_deadlock()
    ensures { NoRunGoesOn }
{}

/// Where no seat goes on behind a history, as looks and refusals tell that the machine allows there, it is a deadlock.
pub fn law_halts()
    ensures { HaltsIsStuck }
{}

/// Worked lists of reports and of deadlocks, of which those that lack one are refused.
#[tactic(auto, using(crate::proofs::Worked::worked_complete))]
pub fn worked_complete()
    ensures { WorkedComplete }
{}

/// What seats ask next, worked.
#[tactic(auto, using(crate::proofs::WorkedAsks::worked_asks))]
pub fn worked_asks()
    ensures { WorkedAsks }
{}

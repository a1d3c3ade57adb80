//! How the end of an explanation is told.
ghost use Rattle.std.specs.Prelude.{◌≡◌};
ghost use Rattle.workload_mistakes.specs.Ends.{IsExplainTold, explain_message, explain_status};

use crate::explaining::ExplainEnd;
use byte_io::{Sink, say};

/// The status of an end.
fn status_of(end: ExplainEnd) -> u8
    ensures { result ≡ explain_status end }
{
    match end {
        ExplainEnd::Clean => 0,
        ExplainEnd::Usage => 2,
        ExplainEnd::Faulty | ExplainEnd::TooLong => 3,
        ExplainEnd::ReadFault => 4,
        ExplainEnd::WriteFault => 5,
        ExplainEnd::Memory => 6,
    }
}

/// What is said of an end.
#[tactic(auto, unfolding(crate::specs::Ends::explain_message))]
fn message(end: ExplainEnd) -> &'static [u8]
    ensures { result.now ≡ explain_message end }
{
    match end {
        ExplainEnd::Clean | ExplainEnd::Faulty => b"",
        ExplainEnd::Usage => b"usage: mtapi explain\n",
        ExplainEnd::TooLong => b"mtapi: workload too long\n",
        ExplainEnd::ReadFault => b"mtapi: read fault\n",
        ExplainEnd::WriteFault => b"mtapi: write fault\n",
        ExplainEnd::Memory => b"mtapi: out of memory\n",
    }
}

/// Says on `err` how an explanation ended, and answers the status. A fault of `err` changes nothing else.
pub fn tell<E: Sink>(end: ExplainEnd, err: &mut E) -> u8
    ensures told { IsExplainTold end (E.faults err.old) (E.faults err.new) (E.held err.old) (E.held err.new) result }
{
    say(err, message(end));
    status_of(end)
}

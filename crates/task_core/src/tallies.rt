//! What a tally has done so far, and what its arguments name.

ghost use Rattle.std.specs.Prelude.{◌≡◌};
ghost use Rattle.std.specs.Option.{option_map};
ghost use Rattle.mtapi_objects.specs.Tasks.{tally_args};
ghost use Rattle.task_core.specs.Tallies.{adds_of};

use mtapi_values::{MtapiStatus, MutexHandle, ShmemHandle};

/// How far a tally has come. One that has ended stays as its end left it.
#[derive(Clone, Copy, Drop)]
pub enum TallyState {
    /// It has done nothing.
    Begun,
    /// It has its mutex and its segment.
    Locked {
        mutex: MutexHandle,
        segment: ShmemHandle,
    },
    /// It has both, and has read the number in the cell.
    Read {
        mutex: MutexHandle,
        segment: ShmemHandle,
        kept: i64,
    },
    /// It has written this number: what it read and what it adds, together.
    Written {
        mutex: MutexHandle,
        segment: ShmemHandle,
        sum: i64,
    },
    /// It has failed with this status, and will end so.
    Failed(MtapiStatus),
}

/// What the four arguments of a tally name. No id is above 2^32 - 1, and no cell above 4,095.
#[derive(Clone, Copy, Drop)]
pub struct TallyArgs {
    /// The id of the mutex.
    pub mutex: u64,
    /// The id of the segment.
    pub segment: u64,
    /// The cell of the segment, counted from 0.
    pub cell: u64,
    /// The number to add.
    pub number: i64,
}

// What these arguments name, where they are four and the first three aren't negative.
pub(crate) fn tally_args(args: &[i64]) -> Option<TallyArgs>
    ensures { option_map adds_of result ≡ tally_args args.now }
{
    match args {
        [mutex, segment, cell, number] if *mutex >= 0 && *segment >= 0 && *cell >= 0 => {
            Some(TallyArgs {
                mutex: *mutex as u64,
                segment: *segment as u64,
                cell: *cell as u64,
                number: *number,
            })
        }
        _ => None,
    }
}

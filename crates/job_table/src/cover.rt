//! Which cores the actions of a job cover.

ghost use Rattle.std.specs.Prelude.{◌≡◌};
ghost use Rattle.job_table.specs.Cover.{cover_with};

use crate::action::StoredAction;
use mtapi_values::Mask;

/// Which cores the live actions of a job cover.
#[derive(Clone, Copy, Debug, Drop, PartialEq, Eq)]
pub enum Cover {
    /// No live action has the job.
    NoAction,
    /// Live actions have the job, and none is enabled.
    AllDisabled,
    /// The cores of the enabled ones, taken together.
    Cores(Mask),
}

impl Cover {
    /// The cover with one more action of the job.
    pub(crate) fn with(self, action: &StoredAction) -> Cover
        ensures { result ≡ cover_with self action.now }
    {
        match (self, action.is_enabled()) {
            (Cover::NoAction, false) => Cover::AllDisabled,
            (cover, false) => cover,
            (Cover::Cores(mask), true) => Cover::Cores(Mask(mask.0 | action.cores().0)),
            (_, true) => Cover::Cores(action.cores()),
        }
    }
}

//! One look at a resource that may be held.

use crate::statuses::MrapiStatus;

/// What one look answers.
#[derive(Clone, Copy, Debug, Drop, PartialEq, Eq)]
pub enum Look<T> {
    /// The caller has it now.
    Got(T),
    /// Another seat holds it, and a later look may succeed.
    Busy,
    /// No later look is owed.
    Refused(MrapiStatus),
}

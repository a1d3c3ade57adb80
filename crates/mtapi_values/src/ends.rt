//! How a task ended.

ghost use Rattle.std.specs.Prelude.{◌≡◌};

use crate::lists::Args;
use crate::statuses::MtapiStatus;

/// How a task ended.
#[derive(Debug, Drop, PartialEq, Eq)]
pub enum TaskEnd {
    /// Its action answered these numbers.
    Completed(Args),
    /// It was cancelled.
    Cancelled,
    /// It failed with this status.
    Failed(MtapiStatus),
}

impl TaskEnd {
    /// An equal end. It takes no memory.
    pub fn again(&self) -> TaskEnd
        ensures { result ≡ self.now }
    {
        match self {
            TaskEnd::Completed(args) => TaskEnd::Completed(args.again()),
            TaskEnd::Cancelled => TaskEnd::Cancelled,
            TaskEnd::Failed(status) => TaskEnd::Failed(*status),
        }
    }
}

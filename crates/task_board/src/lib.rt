//! The scheduler: actions, tasks, queues and groups, with what is kept beside them so that no call walks the slots of the tasks: the marks
//! of those that a worker may take, the tasks that haven't begun, in the order of their starts, the task that runs on each worker, and the
//! members of each group.
#![tactic(auto)]

pub mod cores;
pub mod covered;
pub mod ends;
pub mod marks;
pub mod members;
pub mod scheduler;
pub mod waiting;
pub mod walks;

pub use cores::share_core;
pub use ends::WaitingTest;
pub use members::{free_members, let_members_go};
pub use queue_core::QueueFacts;
pub use scheduler::{Choice, Scheduler};

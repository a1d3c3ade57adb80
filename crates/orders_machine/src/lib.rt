//! Where a workload stands, without handles and looks, and every step that it may make from there.
//!
//! A state names each object by the statement that made it. A call that looks is one step, made when it is answered; where it has a
//! bound and finds no answer, it may also give up. Of the order in which tasks end a state keeps what a group still tells.
#![tactic(auto)]

mod action_steps;
mod ends;
mod forget;
mod group_steps;
mod holders;
mod journal;
mod line_texts;
mod lists;
mod lock_steps;
mod machine;
mod queue_steps;
mod resource_steps;
mod room;
mod segment_steps;
mod state;
mod statements;
mod steps;
mod table;
mod task_steps;
mod waits;
mod workers;

pub use forget::LastUses;
pub use line_texts::{Line, LineText};
pub use machine::Machine;
pub use room::{is_too_large, may_retire};
pub use state::State;
pub use steps::Label;

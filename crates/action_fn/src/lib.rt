//! Pure actions: what they answer, functions that are stored beside that fact, and sets of actions.
#![tactic(auto)]

pub mod actions;
pub mod finished;
pub mod laws;
pub mod sets;
pub mod standard;
pub mod stored;
pub mod table;

pub use actions::{
    act_add, act_div, act_echo, act_fail, act_gcd, act_max, act_mul, act_triangle, answer_of,
};
pub use finished::{ActEnd, Finished};
pub use laws::{law_gcd, worked_answers};
pub use sets::{ActionSet, ActionSource};
pub use standard::StandardActions;
pub use stored::StoredFn;
pub use table::FnTable;

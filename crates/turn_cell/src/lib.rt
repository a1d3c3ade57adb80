//! One object that threads call in turns, so that all calls make one history.
//!
//! A [`TurnCell`] keeps the object behind a ticket lock. Each thread has a [`TurnSeat`], whose contracts see the history as far as
//! the seat has seen it. `meet` brings two seats to one history, and `close` gives the object back with the history that it stands for.
#![tactic(auto)]

mod bells;
pub mod calls;
pub mod cell;
pub mod closing;
mod lines;
pub mod meetings;
mod parts;
pub mod seats;
mod steps;
mod threads;
pub mod tickets;

pub use bells::{Bell, EACH_END, NO_END, SHORT_SLEEP};
pub use cell::TurnCell;
pub use closing::Closed;
pub use history::{Entry, Object};
pub use seats::TurnSeat;
pub use tickets::Spent;

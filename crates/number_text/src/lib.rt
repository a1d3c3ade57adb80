//! Numbers, lists of them and sets of cores as texts, read and written in one spelling: decimal digits without `+` and without a
//! zero in front of others, `-` only before a number that isn't 0, and commas between the items of a list. Kinds are read by
//! their words.
#![tactic(auto)]

mod cores;
mod cut;
mod kinds;
mod laws;
mod lists;
mod numbers;

pub use cores::{cores_of, push_cores};
pub use cut::cut_at;
pub use kinds::kind_of;
pub use laws::{law_cores, law_list, law_number, law_whole, worked_numbers};
pub use lists::{list_of, push_list};
pub use numbers::{
    decimal_text, number, number_within, push_number, push_whole, signed_text, whole,
};

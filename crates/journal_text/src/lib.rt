//! Journals as texts, written and read in one spelling: a head line, and a line for each entry.
#![tactic(auto)]

mod faults;
mod fits;
mod handles;
mod heads;
mod journals;
mod laws;
mod lines;
mod op_words;
mod parts;
mod reply_words;
mod shown;
mod texts;
mod values;

pub use faults::JournalError;
pub use journals::{read_journal, write_journal};
pub use laws::{law_lines, law_read, law_spelled, law_written, worked_journals};
pub use op_words::{object_named, shown_word};
pub use parts::{InputPart, parts_of};
pub use shown::{NodeObject, end_word, handle_word, object_made};

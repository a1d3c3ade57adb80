//! Workloads as texts: a text is read as it is written, and a faulty one is refused at its first faulty line with its first cause.
#![tactic(auto)]

mod changes;
mod cut;
mod deeds;
mod faults;
mod given;
mod grammar;
mod index;
mod laws;
mod load;
mod name;
mod names;
mod numbers;
mod options;
mod page;
mod reading;
mod table;
mod text;
mod values;
mod workload;

pub use byte_io::{Failed, MemSink, MemSource, Sink, Source, StdSink, StdSource, write_all};
pub use faults::{Cause, LoadError};
pub use laws::{
    law_again, law_causes, law_formed, law_inserted, law_lexing, law_shared, worked_lines,
};
pub use load::read_workload;
pub use name::Name;
pub use names::has_begin;
pub use page::text_of;
pub use workload::{Deed, Part, PartList, Statement, StatementList, Workload};

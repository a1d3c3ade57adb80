//! A workload from a source.
ghost use Rattle.std.specs.Prelude.{◌≡◌, ◌<◌, ◌≤◌, ◌^◌, ◌+◌, length, IfOk, OnOk, IfSome, IsErrOf, Ok};
ghost use Rattle.number_text.specs.Lists.{between};
ghost use Rattle.workload_file.specs.Reading.{line_adds, lines_add, empty_reading, workload_of, finished, Gives};
ghost use Rattle.workload_file.specs.Indexed.{IsReader, said_of, said_then};
ghost use Rattle.workload_file.specs.Loading.{Loads, ReadsClean, HoldsBut};
ghost use Rattle.workload_file.specs.Formed.{WellFormed};
ghost use Rattle.byte_io.specs.Causes.{Rose, TakesAtMost};

use crate::faults::{LineError, LoadError};
use crate::grammar::add_line;
use crate::index::NameIndex;
use crate::name::Name;
use crate::reading::{Lists, Reader, Reading};
use crate::workload::{Part, PartList, StatementList, Workload};
use byte_io::{ReadAllError, Source, read_all};
use mtapi_values::NodeAttr;
use number_text::cut_at;
use std::alloc::Global;

#[tactic(auto, unfolding(crate::specs::Reading::empty_reading, crate::specs::Values::is_name))]
fn first_reading(alloc: Global) -> Reading
    ensures { result ≡ empty_reading }
{
    let name = Name::new(b"main").unwrap();
    Reading {
        node_line: 0,
        settings: NodeAttr::new(),
        before: PartList::new(alloc),
        current: Part {
            line: 0,
            name,
            statements: StatementList::new(alloc),
        },
        count: 0,
    }
}

#[tactic(auto, unfolding(crate::specs::Reading::empty_reading))]
fn first_reader(alloc: Global) -> Reader
    ensures value { result.said ≡ empty_reading }
    ensures reader { IsReader result }
{
    Reader {
        said: first_reading(alloc),
        names: NameIndex::new(alloc),
    }
}

/// What the lines of a text say.
fn read_lines(alloc: Global, first: Reader, bytes: &[u8]) -> Result<Reader, LineError>
    requires reader { IsReader first }
    requires short { length bytes.now < 2 ^ 63 }
    ensures { Gives (said_of result) (lines_add first.said 1 (between 10 bytes.now)) }
{
    let mut r = first;
    let mut lists = Lists {
        words: Vec::new(alloc),
        given: Vec::new(alloc),
        values: Vec::new(alloc),
    };
    let mut line = 1u64;
    let mut left = Some(bytes);
    'lines: while let Some(rest) = left {
        let (text, after) = cut_at(rest, b'\n');
        add_line(alloc, &mut r, &mut lists, line, text)?;
        line += 1;
        left = after;
    }
    Ok(r)
}

fn finished(said: Reading) -> Result<Workload, LineError>
    ensures { Gives result (Ok (finished said)) }
{
    let mut parts = said.before;
    parts.push(said.current)?;
    Ok(Workload {
        node_line: said.node_line,
        settings: said.settings,
        parts,
    })
}

/// The workload that a text is.
#[tactic(auto, unfolding(crate::specs::Reading::workload_of))]
fn workload_of(alloc: Global, bytes: &[u8]) -> Result<Workload, LineError>
    requires { length bytes.now < 2 ^ 63 }
    ensures { Gives result (workload_of bytes.now) }
{
    let r = read_lines(alloc, first_reader(alloc), bytes)?;
    finished(r.said)
}

/// The workload that a text is, and that it is well formed.
#[tactic(auto, using(crate::proofs::Invariant::workload_formed))]
fn formed_workload_of(alloc: Global, bytes: &[u8]) -> Result<Workload, LineError>
    requires { length bytes.now < 2 ^ 63 }
    ensures value { Gives result (workload_of bytes.now) }
    ensures formed { IfOk result WellFormed }
{
    workload_of(alloc, bytes)
}

/// Reads a workload from a source, to its end or to one byte past 1,048,576 bytes. Ok exactly where the bytes are of the
/// grammar and memory suffices.
///
/// # Errors
///
/// - `Memory`: memory ran out.
/// - `Read`: a read failed, and the source's count of faults rose.
/// - `TooLong`: the source gave more than 1,048,576 bytes.
/// - `Refused`: the bytes are not of the grammar. It has the first faulty line, counted from 1,
///   and its first cause.
#[tactic(auto, using(crate::proofs::Taken::long_clean))]
pub fn read_workload<S: Source>(alloc: Global, src: &mut S) -> Result<Workload, LoadError>
    ensures exact { IfSome (S.left src.old) (λ bytes. Loads bytes (S.left src.new) result) }
    ensures formed { IfOk result WellFormed }
    ensures clean { HoldsBut (ReadsClean (S.faults src.old) (S.faults src.new) (S.left src.old) (S.left src.new)) result }
    // Whatever the answer is, at most one byte past the limit is taken; and only a failed read is a fault.
    ensures taken { TakesAtMost 1048577 (S.left src.old) (S.left src.new) }
    ensures faultless { (IsErrOf result LoadError.Read → ⊥) → S.faults src.new ≡ S.faults src.old }
    ensures later { S.faults src.old ≤ S.faults src.new }
    ensures read { IsErrOf result LoadError.Read → Rose (S.faults src.old) (S.faults src.new) }
{
    let bytes = match read_all(alloc, src, 1_048_576) {
        Ok(bytes) => bytes,
        Err(ReadAllError::Memory) => return Err(LoadError::Memory),
        Err(ReadAllError::Read) => return Err(LoadError::Read),
        Err(ReadAllError::TooLong) => return Err(LoadError::TooLong),
    };
    match formed_workload_of(alloc, &bytes) {
        Ok(load) => Ok(load),
        Err(LineError::Memory) => Err(LoadError::Memory),
        Err(LineError::Refused(fault)) => Err(LoadError::Refused {
            line: fault.line,
            cause: fault.cause,
        }),
    }
}

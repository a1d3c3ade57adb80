//! What is told of a faulty line.
use workload_file::Cause;

/// What a faulty line seems to be.
#[derive(Clone, Copy, Drop)]
pub enum Meant {
    Nothing,
    Node,
    Begin,
    Caller,
    Action,
    Task,
    Group,
    Queue,
    Mutex,
    Sem,
    Rwl,
    Shmem,
}

/// A part of a text.
#[derive(Clone, Copy, Drop)]
pub struct Part {
    /// The place where it begins, from 0.
    pub from: u64,
    /// How many bytes it has.
    pub long: u64,
}

/// What is read in place of a faulty line, so that one mistake doesn't make others.
#[derive(Clone, Copy, Drop)]
pub enum Mend {
    /// Nothing, or a line that binds this part of the line to what was meant.
    Line(Meant, Part),
    /// The line with spaces in place of this part, and behind that, from this place on, this part of the usual text over what
    /// stands there.
    Word(Part, u64, Part),
}

/// A mistake in a line.
#[derive(Drop)]
pub struct Mistake {
    /// The number of the line, from 1.
    pub line: u64,
    /// The reader's cause.
    pub cause: Cause,
    /// The first byte of what is wrong, from 1.
    pub column: u64,
    /// What is wrong there, and what is allowed.
    pub hint: Vec<u8>,
    /// What is read in place of the line.
    pub mend: Mend,
}

/// The mistakes of a text: line by line, and in a line in the order in which the reader finds them.
#[derive(Drop)]
pub struct Mistakes {
    pub told: Vec<Mistake>,
    /// Whether the text wasn't looked at to its end.
    pub more: bool,
}

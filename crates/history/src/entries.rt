//! The entries of a history.

/// One call of an object, as the history keeps it. A history is a list of these, in the order of the calls.
#[derive(Clone, Copy, Debug, Drop, Eq, PartialEq)]
pub struct Entry<Op, Reply> {
    /// The number of the seat that made the call.
    pub who: u32,
    /// What the seat asked.
    pub op: Op,
    /// What the object answered.
    pub reply: Reply,
}

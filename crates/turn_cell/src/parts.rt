//! What the proofs know of a seat. No value of these types is made, but for `Stage` and `Part` in specifications.
ghost use Rattle.std.specs.Prelude.{List, []};

use history::Entry;
use std::collections::LinkedList;
use std::marker::Brand;

/// A seat is between two calls, waits for its ticket to be served, or holds the object by its ticket.
pub enum Stage {
    Idle,
    Waits(u64),
    Holds(u64),
}

/// What one seat knows: the history as far as it has seen it, its own entries in it, and the ticket word that it was shown last.
pub struct Part<Terms, Op, Reply> {
    pub number: u32,
    pub terms: Terms,
    pub seen: LinkedList<Entry<Op, Reply>>,
    pub mine: LinkedList<Entry<Op, Reply>>,
    pub shown: u64,
    pub stage: Stage,
}

/// All that a token of the table knows: the parts of one seat, or of several after a join.
pub type Parts<Terms, Op, Reply> = LinkedList<Part<Terms, Op, Reply>>;

/// A value that the proof of a call passes in, where the code has given it away or only borrows it. It is a list of that one value.
pub trait GhostArgument<X> {
    ghost argument: { List X };
}

impl<X> GhostArgument<X> for Brand {
    ghost argument = { [] };
}

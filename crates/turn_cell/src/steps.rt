//! The rule of the cell, and what each step on its table tells the seat that makes it. These types are for the proofs alone.
ghost use Rattle.std.specs.Prelude.{[], ◌++◌};
ghost use Rattle.turn_cell.specs.Turns.{Invariant, fresh_parts, drew, looked, passed, observed, foremost_part, parts_behind, boxed_terms, boxed_stands};

use crate::parts::{GhostArgument, Part, Parts};
use atomic_table::{Join, Play, Split, TableRule};
use history::Object;
use std::collections::LinkedList;
use std::marker::PhantomData;

/// What holds of the words, the slot and all seats between any two steps.
pub struct TurnRule;

impl<O: Object> TableRule<Option<Box<O>>, Parts<O::Terms, O::Op, O::Reply>, O::Terms> for TurnRule {
    ghost holds = { Invariant (boxed_terms O.terms) O.seat_count O.legal (boxed_stands O.stands) };

    ghost first = { λ t. fresh_parts t 0 (O.seat_count t) };
}

/// A try at a ticket: one compare-exchange on the ticket word.
pub struct Draw;

impl<O: Object> Play<Option<Box<O>>, Parts<O::Terms, O::Op, O::Reply>> for Draw {
    ghost then = { drew (boxed_terms O.terms) O.seat_count O.legal (boxed_stands O.stands) };
}

/// One load of the serving word. If it shows the seat's own ticket, the object's slot goes to the seat.
pub struct LoadServing;

impl<O: Object> Play<Option<Box<O>>, Parts<O::Terms, O::Op, O::Reply>> for LoadServing {
    ghost then = { looked (boxed_terms O.terms) O.seat_count O.legal (boxed_stands O.stands) };
}

/// The addition to the serving word: the slot goes home, and the entry enters the history.
/// The first parameter brings the operation, and the second the reply.
pub struct Pass<B, C> {
    marker: PhantomData<(B, C)>,
}

impl<O: Object, B: GhostArgument<O::Op>, C: GhostArgument<O::Reply>> Play<
    Option<Box<O>>,
    Parts<O::Terms, O::Op, O::Reply>,
> for Pass<B, C> {
    ghost then = { passed (boxed_terms O.terms) O.seat_count O.legal (boxed_stands O.stands) B.argument C.argument };
}

/// A load of the serving word by which all parts of a token see the history so far.
pub struct Observe;

impl<O: Object> Play<Option<Box<O>>, Parts<O::Terms, O::Op, O::Reply>> for Observe {
    ghost then = { observed (boxed_terms O.terms) O.seat_count O.legal (boxed_stands O.stands) };
}

/// All parts leave a token.
pub struct CutAll;

impl<T, P, Q> Split<LinkedList<Part<T, P, Q>>> for CutAll {
    ghost left = { λ v. [] };

    ghost right = { λ v. v };
}

/// A token keeps its first part, and the others leave it.
pub struct CutRest;

impl<T, P, Q> Split<LinkedList<Part<T, P, Q>>> for CutRest {
    ghost left = { foremost_part };

    ghost right = { parts_behind };
}

/// The parts of the second token come behind those of the first.
pub struct Append;

impl<T, P, Q> Join<LinkedList<Part<T, P, Q>>> for Append {
    ghost both = { λ v w. v ++ w };

    ghost spent = { [] };
}

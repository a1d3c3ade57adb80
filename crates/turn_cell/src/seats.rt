//! The seats of a cell.
ghost use Rattle.std.specs.Prelude.{◌≡◌, ℕ, ◌^◌, ◌<◌, ◌≤◌, IfSome, IfNone};
ghost use Rattle.history.specs.Histories.{entries_of};

use crate::parts::Parts;
use crate::tickets::{LIMIT, Spent};
use atomic_table::Seat;
use history::Object;
use std::marker::Model;

// What a thread steps with. It has no bytes.
pub(crate) type Token<O> = Seat<
    Option<Box<O>>,
    Parts<<O as Object>::Terms, <O as Object>::Op, <O as Object>::Reply>,
>;

/// A seat of a cell over `O`, with which one thread makes its calls.
///
/// Contracts see which cell it is of, its number, the terms of the object, the history `seen` so far, its own entries `mine`,
/// and `shown`, the last value of the ticket word that a draw of its own was shown.
/// Between two calls `seen` is legal, and its entries of this seat are `mine`.
#[derive(Drop)]
pub struct TurnSeat<O: Object> {
    pub(crate) number: u32,
    pub(crate) shown: u64,
    pub(crate) token: Seat<Option<Box<O>>, Parts<O::Terms, O::Op, O::Reply>>,
}

impl<O: Object> Model for TurnSeat<O> {
    ghost use Rattle.turn_cell.specs.Seats.{SeatView};
    ghost use Rattle.turn_cell.specs.Views.{view_of, CellAtRest};

    ghost Value = { SeatView O.Terms O.Op O.Reply };

    ghost view = { λ s. view_of O.blank s.token.table_id s.token.me.0 };

    ghost invariant = { λ s. CellAtRest O.legal s.number s.shown s.token.me };
}

impl<O: Object> TurnSeat<O> {
    /// The seat's number, which the object gets as `who`. The seats of a cell are numbered from 0.
    pub fn number(&self) -> u32
        ensures number { result ≡ self.now.number }
    {
        self.number
    }

    /// What holds of a seat between any two calls. It does nothing.
    pub fn known(&self)
        ensures legal { O.legal self.now.terms self.now.seen }
        ensures own { entries_of self.now.number self.now.seen ≡ self.now.mine }
    {
        let _ = &self.number;
    }

    /// A `Spent` of the ticket word that was shown last. `None` exactly where that word is below 2^62.
    pub fn spent(&self) -> Option<Spent>
        ensures some { IfSome result (λ s. (s ≡ self.now.shown) × (2 ^ 62 ≤ s)) }
        ensures none { IfNone result (self.now.shown < 2 ^ 62) }
    {
        if self.shown >= LIMIT {
            Some(Spent { drawn: self.shown })
        } else {
            None
        }
    }
}

//! The end of a cell, and the object that comes back.
ghost use Rattle.std.specs.Prelude.{◌≡◌, ℕ, ◌<◌, List, [], ◌∷◌, length};
ghost use Rattle.history.specs.declared.entries.Entry.{Entry};
ghost use Rattle.turn_cell.specs.Lists.{AllItems};
ghost use Rattle.turn_cell.specs.Seats.{IsComplete, IsSeatOf};
ghost use Rattle.turn_cell.specs.Views.{Gathers};

use crate::cell::TurnCell;
use crate::seats::{Token, TurnSeat};
use crate::steps::Append;
use history::Object;
use std::marker::Model;

impl<O: Object> TurnCell<O> {
    // Joins the tokens of all seats.
    fn gather(&self, mut seats: Vec<TurnSeat<O>>) -> Token<O>
        requires own { AllItems (λ s. s.cell ≡ self.now.id) seats.items }
        requires some { 0 < length seats.items }
        ensures own { (result.table_id ≡ self.now.id) × (result.me.1 ≡ []) }
        ensures parts { Gathers seats.items result.me.0 }
    {
        let Some(first) = seats.pop() else {
            unreachable!()
        };
        let TurnSeat {
            number: _,
            shown: _,
            mut token,
        } = first;
        while let Some(next) = seats.pop() {
            let TurnSeat {
                number: _,
                shown: _,
                token: other,
            } = next;
            self.table.shared.join_seat::<Append>(&mut token, other);
        }
        token
    }

    /// Ends the cell with all its seats, in any order, and gives the object back. It waits for no one, since no seat is away.
    ///
    /// The object stands for one legal history. What each seat has seen is a prefix of it, and the seat's own entries are all that the history has of it.
    pub fn close(self, seats: Vec<TurnSeat<O>>) -> Closed<O>
        requires own { AllItems (λ s. s.cell ≡ self.id) seats.items }
        requires complete { IsComplete (O.seat_count self.terms) seats.items }
        ensures terms { O.terms result ≡ self.terms }
        ensures history { (h : List (Entry O.Op O.Reply)) × O.legal self.terms h × O.stands result h
            × AllItems (IsSeatOf self.terms h) seats.items }
    {
        let token = self.gather(seats);
        let TurnCell {
            table,
            work: _,
            ends: _,
            line: _,
        } = self;
        let mut closed = table.close_with(token);
        let slot = closed.take(0);
        closed.free();
        match slot {
            Some(object) => Closed {
                object: Box::into_inner(object),
            },
            None => unreachable!(),
        }
    }
}

/// The object of a cell that was closed. Contracts see it as that object.
///
/// Only `TurnCell::close` gives one, and nothing changes it, so every entry of its history was made by a call on one cell.
#[derive(Drop)]
pub struct Closed<O: Object> {
    object: O,
}

impl<O: Object> Model for Closed<O> {
    ghost Value = { O };

    ghost coded = { O.code };

    ghost view = { λ c. c.object };
}

impl<O: Object> Closed<O> {
    /// The object.
    pub fn into_object(self) -> O
        ensures object { result ≡ self }
    {
        let Closed { object } = self;
        object
    }
}

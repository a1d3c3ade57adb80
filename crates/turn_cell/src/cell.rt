//! The cell, and how it is made.
ghost use Rattle.std.specs.Prelude.{◌≡◌, ℕ, ◌<◌, List, [], IfOk};
ghost use Rattle.turn_cell.specs.Seats.{fresh_seats};
ghost use Rattle.turn_cell.specs.Turns.{fresh_parts};

use crate::bells::Bell;
use crate::lines::Line;
use crate::parts::Parts;
use crate::seats::TurnSeat;
use crate::steps::{CutRest, TurnRule};
use atomic_table::{Seat, Table};
use history::Object;
use std::alloc::{AllocError, Global};
use std::marker::Model;

/// An object that the seats of the cell call in turns. Contracts see which cell it is, and the terms of its object.
#[derive(Drop)]
pub struct TurnCell<O: Object> {
    // Word 0, the serving word, is the number of turns that are over, and word 1 is the next ticket. The one slot has the object.
    pub(crate) table: Table<
        Option<Box<O>>,
        Parts<O::Terms, O::Op, O::Reply>,
        O::Terms,
        TurnRule,
        Global,
    >,
    // Rung where there is work, and where a worker finds none any more.
    pub(crate) work: Bell,
    pub(crate) ends: Bell,
    // Where those sleep whose tickets aren't served yet.
    pub(crate) line: Line,
}

impl<O: Object> Model for TurnCell<O> {
    ghost use Rattle.std.specs.Prelude.{◌≡◌, ◌<◌};
    ghost use Rattle.turn_cell.specs.Seats.{CellView};

    ghost Value = { CellView O.Terms };

    ghost view = { λ c. record { id = c.table.shared.table_id; terms = c.table.shared.key } };

    ghost invariant = { λ c. (c.table.shared.table_id.words ≡ 2) × (c.table.shared.table_id.slots ≡ 1) × (0 < O.seat_count c.table.shared.key) };
}

impl<O: Object> TurnCell<O> {
    /// A cell over this object, and its seats in the order of their numbers.
    ///
    /// # Errors
    ///
    /// - `AllocError`: memory ran out. The object is then dropped.
    pub fn new(alloc: Global, object: O) -> Result<(TurnCell<O>, Vec<TurnSeat<O>>), AllocError>
        requires seats { 0 < O.seat_count (O.terms object) }
        requires stands { O.stands object [] }
        ensures terms { IfOk result (λ r. r.0.terms ≡ O.terms object) }
        ensures seats { IfOk result (λ r.
            r.1.items ≡ fresh_seats (O.terms object) r.0.id 0 (O.seat_count (O.terms object))) }
    {
        let count = object.seats();
        let terms = object.told_terms();
        // A turn so moves the box alone, however large the object is.
        let boxed = Box::new(alloc, object)?;
        let mut slots = Vec::new(alloc);
        slots.push(Some(boxed))?;
        let Ok((table, token)) = Table::new(alloc, &[0, 0], slots, &terms) else {
            return Err(AllocError);
        };
        let cell = TurnCell {
            table,
            work: Bell::new(),
            ends: Bell::new(),
            line: Line::new(),
        };
        let seats = cell.deal(alloc, token, count)?;
        Ok((cell, seats))
    }

    /// The bell for those that look for work.
    pub fn work(&self) -> &Bell {
        &self.work
    }

    /// The bell for those that wait for ends.
    pub fn ends(&self) -> &Bell {
        &self.ends
    }

    // Cuts the token of all seats into one for each.
    fn deal(
        &self,
        alloc: Global,
        token: Seat<Option<Box<O>>, Parts<O::Terms, O::Op, O::Reply>>,
        count: u32,
    ) -> Result<Vec<TurnSeat<O>>, AllocError>
        requires own { token.table_id ≡ self.now.id }
        requires some { 0 < count }
        requires fresh { token.me ≡ (fresh_parts self.now.terms 0 count, []) }
        requires legal { O.legal self.now.terms [] }
        ensures seats { IfOk result (λ seats. seats.items ≡ fresh_seats self.now.terms self.now.id 0 count) }
    {
        let mut token = token;
        let mut seats = Vec::new(alloc);
        for number in 0..count - 1 {
            let rest = self.table.shared.split_seat::<CutRest>(&mut token);
            seats.push(TurnSeat {
                number,
                shown: 0,
                token,
            })?;
            token = rest;
        }
        seats.push(TurnSeat {
            number: count - 1,
            shown: 0,
            token,
        })?;
        Ok(seats)
    }
}

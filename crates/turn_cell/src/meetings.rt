//! Two seats that come to see one history.
ghost use Rattle.std.specs.Prelude.{◌≡◌};
ghost use Rattle.history.specs.Histories.{entries_of};
ghost use Rattle.turn_cell.specs.Seats.{HasSeenMore};

use crate::cell::TurnCell;
use crate::seats::TurnSeat;
use crate::steps::{Append, CutAll, CutRest, Observe};
use history::Object;

impl<O: Object> TurnCell<O> {
    /// Both seats then have seen the same history, which begins with what each had seen. It makes no entry, and waits for no one.
    pub fn meet(&self, a: &mut TurnSeat<O>, b: &mut TurnSeat<O>)
        requires { (a.old.cell ≡ self.now.id) × (b.old.cell ≡ self.now.id) }
        ensures one { a.new.seen ≡ b.new.seen }
        ensures first { HasSeenMore a.old a.new }
        ensures second { HasSeenMore b.old b.new }
        ensures first_legal { O.legal a.new.terms a.new.seen }
        ensures second_legal { O.legal b.new.terms b.new.seen }
        ensures first_own { entries_of a.new.number a.new.seen ≡ a.new.mine }
        ensures second_own { entries_of b.new.number b.new.seen ≡ b.new.mine }
    {
        let shared = &self.table.shared;
        let theirs = shared.split_seat::<CutAll>(&mut b.token);
        shared.join_seat::<Append>(&mut a.token, theirs);
        shared.load::<Observe>(&mut a.token, 0);
        b.token = shared.split_seat::<CutRest>(&mut a.token);
    }
}

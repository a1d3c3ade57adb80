//! One turn of the cell: draw a ticket, wait until it is served, call the object, and let the entry into the history.
ghost use Rattle.std.specs.Prelude.{◌≡◌, ◌≢◌, ℕ, ◌+◌, ◌^◌, ◌<◌, ◌≤◌, true, false, Option, Box, None, Ok, List, [], ◌∷◌, ◌++◌, length, IfOk, IfErr, OnOk, OnErr};
ghost use Rattle.std.specs.declared.alloc.Global.{Global};
ghost use Rattle.history.specs.Histories.{Extends, entries_of, entry};
ghost use Rattle.turn_cell.specs.declared.parts.Part.{Part};
ghost use Rattle.turn_cell.specs.declared.parts.Stage.TheVariants.{Idle, Waits, Holds};
ghost use Rattle.turn_cell.specs.Turns.{after_draw, after_pass, part_entry, TookObject, boxed_terms, boxed_stands};

use crate::cell::TurnCell;
use crate::lines::Waiting;
use crate::parts::{GhostArgument, Part};
use crate::seats::{Token, TurnSeat};
use crate::steps::{Draw, LoadServing, Pass};
use crate::tickets::{LIMIT, Spent};
use crossbeam_utils::Backoff;
use history::Object;
use std::marker::Brand;
use std::sync::Wait;
use std::sync::atomic::AtomicU64;
use std::time::Duration;

// So often a seat looks whether it can have its turn at once, before it stands in line.
const LOOKS: u32 = 64;

// So long it sleeps between two of them, in microseconds.
const NAP: u64 = 100;

impl<O: Object> TurnCell<O> {
    // Waits until every drawn ticket was served, but for no more than so many looks: it spins, then yields, and then sleeps for
    // microseconds, so that few threads at a time pass the object around. Says how many looks are left.
    fn wait_until_free<R: Wait>(&self, rt: &R, backoff: &Backoff, looks: u32) -> u32 {
        // Nobody wakes it, so that a sleep ends by its length at the latest.
        let asleep = AtomicU64::new(0);
        for done in 0..looks {
            if self.table.shared.peek(0) == self.table.shared.peek(1) {
                return looks - done;
            }
            if backoff.is_completed() {
                asleep.park_timeout(rt, 0, Duration::from_micros(NAP));
            } else {
                backoff.snooze();
            }
        }
        0
    }

    // Tries until it has a ticket. At first it draws one only where it is served at once: so the others seldom wait for a thread that has
    // no processor, and a thread may have several turns one after another. Where it looked in vain for long it draws all the same, and is
    // then served in its order. After a try that another seat was quicker at it pauses, longer each time.
    fn draw<R: Wait>(&self, rt: &R, token: &mut Token<O>, shown: u64) -> Result<u64, u64>
        requires own { token.old.table_id ≡ self.now.id }
        requires idle { (p : Part O.Terms O.Op O.Reply) × (token.old.me ≡ (p ∷ [], [])) × (p.stage ≡ Idle)
            × (p.shown ≡ shown) }
        ensures own { token.new.table_id ≡ token.old.table_id }
        ensures drawn { IfOk result (λ k. (k < 2 ^ 62)
            × ((p : Part O.Terms O.Op O.Reply) → token.old.me ≡ (p ∷ [], [])
            → token.new.me ≡ (after_draw p k true ∷ [], []))) }
        ensures spent { IfErr result (λ n. (2 ^ 62 ≤ n)
            × ((p : Part O.Terms O.Op O.Reply) → token.old.me ≡ (p ∷ [], [])
            → token.new.me ≡ (after_draw p n false ∷ [], []))) }
    {
        let backoff = Backoff::new();
        let tries = Backoff::new();
        let mut looks = LOOKS;
        let mut shown = shown;
        for _ in rt.forever() {
            if shown >= LIMIT {
                return Err(shown);
            }
            looks = self.wait_until_free(rt, &backoff, looks);
            let guess = self.table.shared.peek(1).min(LIMIT - 1);
            let found = self
                .table
                .shared
                .compare_exchange::<Draw>(token, 1, guess, guess + 1);
            if found == guess {
                return Ok(guess);
            }
            shown = found;
            tries.snooze();
        }
        unreachable!()
    }

    // Tries until the ticket is served, and takes the object out of its slot. Between two tries it spins, then yields, and then sleeps.
    fn look<R: Wait>(&self, rt: &R, token: &mut Token<O>, ticket: u64) -> Box<O>
        requires own { token.old.table_id ≡ self.now.id }
        requires waits { (p : Part O.Terms O.Op O.Reply) × (token.old.me ≡ (p ∷ [], [])) × (p.stage ≡ Waits ticket) }
        ensures own { token.new.table_id ≡ token.old.table_id }
        ensures took { (p : Part O.Terms O.Op O.Reply) → token.old.me ≡ (p ∷ [], []) → p.stage ≡ Waits ticket
            → TookObject (boxed_terms O.terms) O.seat_count O.legal (boxed_stands O.stands) p ticket result None token.new.me }
    {
        let mut waiting = Waiting::new(self.line.bell(ticket));
        for _ in rt.forever() {
            if self.table.shared.load::<LoadServing>(token, 0) == ticket {
                waiting.end();
                return self.take(token, ticket);
            }
            waiting.pause(rt);
        }
        unreachable!()
    }

    // Takes the object out of the slot, which the look gave to the seat.
    fn take(&self, token: &mut Token<O>, ticket: u64) -> Box<O>
        requires own { token.old.table_id ≡ self.now.id }
        requires took { (p : Part O.Terms O.Op O.Reply) × (o : Box O Global)
            × TookObject (boxed_terms O.terms) O.seat_count O.legal (boxed_stands O.stands) p ticket o (Some o) token.old.me }
        ensures own { token.new.table_id ≡ token.old.table_id }
        ensures took { (p : Part O.Terms O.Op O.Reply) (o : Box O Global)
            → TookObject (boxed_terms O.terms) O.seat_count O.legal (boxed_stands O.stands) p ticket o (Some o) token.old.me
            → TookObject (boxed_terms O.terms) O.seat_count O.legal (boxed_stands O.stands) p ticket result None token.new.me }
    {
        match self.table.shared.exchange(token, 0, None) {
            Some(object) => object,
            None => unreachable!(),
        }
    }

    // Puts the object back, and serves the next ticket. This one addition lets the entry into the history.
    fn pass<B: GhostArgument<O::Op>, C: GhostArgument<O::Reply>>(
        &self,
        token: &mut Token<O>,
        object: Box<O>,
        reply: &O::Reply,
    )
        requires own { token.old.table_id ≡ self.now.id }
        requires holds { (p : Part O.Terms O.Op O.Reply) × (k : ℕ) × (op : O.Op)
            × (token.old.me ≡ (p ∷ [], (0, None) ∷ [])) × (p.stage ≡ Holds k) × (O.terms object.value ≡ p.terms)
            × O.stands object.value (p.seen ++ part_entry p op reply.now ∷ []) × (B.argument ≡ op ∷ [])
            × (C.argument ≡ reply.now ∷ []) }
        ensures own { token.new.table_id ≡ token.old.table_id }
        ensures passed { (p : Part O.Terms O.Op O.Reply) (op : O.Op) → token.old.me ≡ (p ∷ [], (0, None) ∷ [])
            → B.argument ≡ op ∷ [] → token.new.me ≡ (after_pass p (part_entry p op reply.now) ∷ [], []) }
    {
        let _ = reply;
        let _none = self.table.shared.exchange(token, 0, Some(object));
        self.table.shared.fetch_add::<Pass<B, C>>(token, 0, 1);
    }

    // Calls the object once, ends the turn, and wakes those that wait for the next one. It has the result of `call`, so
    // that a reply isn't moved from the one into the other.
    fn turn<B: GhostArgument<O::Op>>(
        &self,
        token: &mut Token<O>,
        number: u32,
        ticket: u64,
        mut object: Box<O>,
        op: O::Op,
    ) -> Result<O::Reply, Spent>
        requires own { token.old.table_id ≡ self.now.id }
        requires room { ticket < 2 ^ 62 }
        requires argument { B.argument ≡ op ∷ [] }
        requires holds { (p : Part O.Terms O.Op O.Reply) × (k : ℕ) × (token.old.me ≡ (p ∷ [], (0, None) ∷ []))
            × (p.stage ≡ Holds k) × (p.number ≡ number) × (O.terms object.value ≡ p.terms)
            × O.stands object.value p.seen × (length p.seen < 2 ^ 62) × (p.number < O.seat_count p.terms) }
        ensures own { token.new.table_id ≡ token.old.table_id }
        ensures replied { (reply : O.Reply) × (result ≡ Ok reply)
            × ((p : Part O.Terms O.Op O.Reply) → token.old.me ≡ (p ∷ [], (0, None) ∷ [])
            → token.new.me ≡ (after_pass p (part_entry p op reply) ∷ [], []))
            × ((p : Part O.Terms O.Op O.Reply) → token.old.me ≡ (p ∷ [], (0, None) ∷ [])
            → O.legal p.terms (p.seen ++ part_entry p op reply ∷ [])) }
    {
        let reply = object.apply(number, op);
        self.pass::<B, Brand>(token, object, &reply);
        self.line.wake(ticket + 1);
        Ok(reply)
    }

    /// One turn: the object is called once by this seat, and the entry comes to the end of the history.
    ///
    /// The seat then has seen the history up to its own entry. It takes no memory beyond what the object's `apply` takes, and waits
    /// until its ticket is served.
    ///
    /// # Errors
    ///
    /// - `Spent`: the ticket word that the seat was shown is at least 2^62. The object
    ///   wasn't called, and no entry was made.
    pub fn call<R: Wait>(
        &self,
        rt: &R,
        seat: &mut TurnSeat<O>,
        op: O::Op,
    ) -> Result<O::Reply, Spent>
        requires { seat.old.cell ≡ self.now.id }
        ensures cell { seat.new.cell ≡ seat.old.cell }
        ensures number { seat.new.number ≡ seat.old.number }
        ensures terms { seat.new.terms ≡ seat.old.terms }
        ensures legal { O.legal seat.new.terms seat.new.seen }
        ensures own { entries_of seat.new.number seat.new.seen ≡ seat.new.mine }
        ensures seen { IfOk result (λ reply. Extends seat.old.seen (entry seat.old.number op reply) seat.new.seen) }
        ensures mine { IfOk result (λ reply. seat.new.mine ≡ seat.old.mine ++ entry seat.old.number op reply ∷ []) }
        ensures drew { OnOk result (seat.new.shown < 2 ^ 62) }
        ensures spent { IfErr result (λ spent. (2 ^ 62 ≤ spent) × (spent ≡ seat.new.shown)) }
        ensures unchanged { OnErr result ((seat.new.seen ≡ seat.old.seen) × (seat.new.mine ≡ seat.old.mine)) }
    {
        let shown = seat.shown;
        match self.draw(rt, &mut seat.token, shown) {
            Ok(ticket) => {
                seat.shown = ticket;
                let object = self.look(rt, &mut seat.token, ticket);
                let number = seat.number;
                self.turn::<Brand>(&mut seat.token, number, ticket, object, op)
            }
            Err(drawn) => {
                seat.shown = drawn;
                Err(Spent { drawn })
            }
        }
    }
}

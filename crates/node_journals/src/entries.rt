//! Lists of entries with a number beside each, and journals.

ghost use Rattle.std.specs.Prelude.{◌≡◌, ◌++◌, ◌∷◌, [], length, map, IfOk, IsErr};
ghost use Rattle.history.specs.Histories.{entry};
ghost use Rattle.node_journals.specs.Shorts.{entry_of};

use crate::shorts::{ShortEntry, short_of};
use mtapi_machine::{Entry, Op, Reply};
use mtapi_values::{Layout, NodeAttr};
use std::alloc::{AllocError, Global};
use std::marker::Model;

/// Entries of a history and, beside each, how many entries of its seat were left out since that seat's entry before.
#[derive(Drop)]
pub struct EntryList {
    entries: Vec<Entry>,
    skipped: Vec<u64>,
}

impl Model for EntryList {
    ghost use Rattle.std.specs.Prelude.{◌≡◌, length};
    ghost use Rattle.node_journals.specs.Journals.{KeptEntries};

    ghost Value = { KeptEntries };

    ghost view = { λ l. record { entries = l.entries.items; skipped = l.skipped.items } };

    ghost invariant = { λ l. length l.entries.items ≡ length l.skipped.items };
}

impl EntryList {
    /// A list without entries.
    pub fn new(alloc: Global) -> EntryList
        ensures { result ≡ record { entries = []; skipped = [] } }
    {
        EntryList {
            entries: Vec::new(alloc),
            skipped: Vec::new(alloc),
        }
    }

    /// Adds an entry and its number at the end. Where memory is short, the list stays as it was.
    pub fn push(&mut self, entry: Entry, skipped: u64) -> Result<(), AllocError>
        ensures pushed { IfOk result (λ _.
            self.new ≡ record { entries = self.old.entries ++ entry ∷ []; skipped = self.old.skipped ++ skipped ∷ [] }) }
        ensures short { IsErr result → self.new ≡ self.old }
    {
        self.entries.reserve(1)?;
        self.skipped.reserve(1)?;
        self.entries.push_reserved(entry);
        self.skipped.push_reserved(skipped);
        Ok(())
    }

    /// The entries, in their order.
    pub fn as_slice(&self) -> &[Entry]
        ensures { result.now ≡ self.now.entries }
    {
        self.entries.as_slice()
    }

    /// The numbers, one beside each entry.
    pub fn skipped(&self) -> &[u64]
        ensures value { result.now ≡ self.now.skipped }
        ensures beside { length self.now.skipped ≡ length self.now.entries }
    {
        self.skipped.as_slice()
    }
}

// The entries that short ones stand for.
fn full_entries(alloc: Global, shorts: &[ShortEntry]) -> Result<Vec<Entry>, AllocError>
    ensures { IfOk result (λ entries. entries.items ≡ map entry_of shorts.now) }
{
    let mut entries = Vec::with_capacity(alloc, shorts.len())?;
    for short in shorts {
        entries.push(short.full())?;
    }
    Ok(entries)
}

/// The same in little room: most entries take 80 bytes, where one in full takes 360.
#[derive(Drop)]
pub struct ShortList {
    shorts: Vec<ShortEntry>,
    skipped: Vec<u64>,
    alloc: Global,
}

impl Model for ShortList {
    ghost use Rattle.std.specs.Prelude.{◌≡◌, length, map};
    ghost use Rattle.node_journals.specs.Journals.{KeptEntries};
    ghost use Rattle.node_journals.specs.Shorts.{entry_of};

    ghost Value = { KeptEntries };

    ghost view = { λ l. record { entries = map entry_of l.shorts.items; skipped = l.skipped.items } };

    ghost invariant = { λ l. length l.shorts.items ≡ length l.skipped.items };
}

impl ShortList {
    /// A list without entries.
    pub fn new(alloc: Global) -> ShortList
        ensures { result ≡ record { entries = []; skipped = [] } }
    {
        ShortList {
            shorts: Vec::new(alloc),
            skipped: Vec::new(alloc),
            alloc,
        }
    }

    /// Adds an entry and its number at the end. Where memory is short, the list stays as it was.
    pub fn push(&mut self, entry: Entry, skipped: u64) -> Result<(), AllocError>
        ensures pushed { IfOk result (λ _.
            self.new ≡ record { entries = self.old.entries ++ entry ∷ []; skipped = self.old.skipped ++ skipped ∷ [] }) }
        ensures short { IsErr result → self.new ≡ self.old }
    {
        self.push_call(entry.who, &entry.op, &entry.reply, skipped)
    }

    /// The same of the entry of this seat, op and reply.
    pub fn push_call(
        &mut self,
        who: u32,
        op: &Op,
        reply: &Reply,
        skipped: u64,
    ) -> Result<(), AllocError>
        ensures pushed { IfOk result (λ _.
            self.new ≡ record { entries = self.old.entries ++ entry who op.now reply.now ∷ []; skipped = self.old.skipped ++ skipped ∷ [] }) }
        ensures short { IsErr result → self.new ≡ self.old }
    {
        let short = short_of(self.alloc, who, op, reply)?;
        self.shorts.reserve(1)?;
        self.skipped.reserve(1)?;
        self.shorts.push_reserved(short);
        self.skipped.push_reserved(skipped);
        Ok(())
    }

    /// The entries in little room, in their order.
    pub fn shorts(&self) -> &[ShortEntry]
        ensures { map entry_of result.now ≡ self.now.entries }
    {
        self.shorts.as_slice()
    }

    /// How many entries there are.
    pub fn len(&self) -> usize
        ensures { result ≡ length self.now.entries }
    {
        self.shorts.len()
    }

    /// The same list in full.
    ///
    /// # Errors
    ///
    /// - `AllocError`: memory ran out.
    pub fn in_full(&self, alloc: Global) -> Result<EntryList, AllocError>
        ensures { IfOk result (λ list. list ≡ self.now) }
    {
        Ok(EntryList {
            entries: full_entries(alloc, self.shorts.as_slice())?,
            skipped: Vec::from_slice(alloc, self.skipped.as_slice())?,
        })
    }

    /// The numbers, one beside each entry.
    pub fn skipped(&self) -> &[u64]
        ensures value { result.now ≡ self.now.skipped }
        ensures beside { length self.now.skipped ≡ length self.now.entries }
    {
        self.skipped.as_slice()
    }
}

/// The entries that were kept of a history of a node, and the terms of the node.
#[derive(Drop)]
pub struct Journal {
    /// How a handle is made of a generation and a slot.
    pub layout: Layout,
    /// The settings of the node.
    pub settings: NodeAttr,
    /// The number of callers, main included.
    pub callers: u32,
    /// The entries that were kept.
    pub entries: ShortList,
}

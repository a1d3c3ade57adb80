//! What was made under a journal's handles: by slots, the handles of the last generation, how many, and how many of them
//! aren't live any more.

ghost use Rattle.std.specs.Prelude.{◌≡◌, ◌<◌, ◌≤◌, [], ℕ, IfOk};
ghost use Rattle.mtapi_values.specs.declared.handles.ObjectKind.{ObjectKind};
ghost use Rattle.handle_pool.specs.Slots.{slot_of, generation_of};
ghost use Rattle.journal_check.specs.Made.{made_in_slot, last_handles, made_count, gone_count, freed_count, with_gone, of_kind, NotesOne, NotesObject, EndsObjects, EndsOne};

use mtapi_values::ObjectKind;
use std::alloc::{AllocError, Global};
use std::collections::BTreeMap;

/// What was made of one kind.
#[derive(Drop)]
pub(crate) struct MadeOfKind {
    // How many were made in each slot.
    counts: BTreeMap<u64, u64>,
    // The handles of the last generation.
    lasts: Vec<u64>,
    // How many were made.
    made: u64,
    // At least so many of the last generation aren't live any more.
    gone: u64,
    // At least so many of the others.
    freed: u64,
}

/// What was made of each kind.
#[derive(Drop)]
pub(crate) struct Made {
    actions: MadeOfKind,
    tasks: MadeOfKind,
    groups: MadeOfKind,
    queues: MadeOfKind,
    mutexes: MadeOfKind,
    sems: MadeOfKind,
    rwls: MadeOfKind,
    segments: MadeOfKind,
}

// The slot that a handle names, and its generation.
fn slot_of(handle: u64) -> u64
    ensures { result ≡ slot_of handle }
{
    handle % 4_294_967_296
}

pub(crate) fn generation_of(handle: u64) -> u64
    ensures { result ≡ generation_of handle }
{
    handle / 4_294_967_296
}

impl MadeOfKind {
    fn new(alloc: Global) -> MadeOfKind
        ensures counts { (slot : ℕ) → made_in_slot result slot ≡ 0 }
        ensures lasts { last_handles result ≡ [] }
        ensures made { made_count result ≡ 0 }
        ensures gone { gone_count result ≡ 0 }
        ensures freed { freed_count result ≡ 0 }
    {
        MadeOfKind {
            counts: BTreeMap::new(alloc),
            lasts: Vec::new(alloc),
            made: 0,
            gone: 0,
            freed: 0,
        }
    }

    /// How many were made in the slot of a handle.
    pub(crate) fn count(&self, handle: u64) -> u64
        ensures { result ≡ made_in_slot self.now (slot_of handle) }
    {
        match self.counts.get(&slot_of(handle)) {
            Some(count) => *count,
            None => 0,
        }
    }

    /// The handles of the last generation.
    pub(crate) fn lasts(&self) -> &[u64]
        ensures { result.now ≡ last_handles self.now }
    {
        self.lasts.as_slice()
    }

    /// How many were made.
    pub(crate) fn made(&self) -> u64
        ensures { result ≡ made_count self.now }
    {
        self.made
    }

    /// At least so many of the last generation aren't live any more.
    pub(crate) fn gone(&self) -> u64
        ensures { result ≡ gone_count self.now }
    {
        self.gone
    }

    /// At least so many of the others aren't.
    pub(crate) fn freed(&self) -> u64
        ensures { result ≡ freed_count self.now }
    {
        self.freed
    }

    // At least so many aren't live any more.
    fn end(&mut self, gone: u64, freed: u64)
        ensures { self.new ≡ with_gone gone freed self.old }
    {
        self.gone = gone;
        self.freed = freed;
    }

    // Adds the handle of a new object, whose generation is how many were made in its slot by now.
    fn note(&mut self, last: u64, handle: u64) -> Result<(), AllocError>
        requires few { made_count self.old < 4294967295 }
        ensures { IfOk result (λ _. NotesOne last handle self.old self.new) }
    {
        self.counts.insert(slot_of(handle), generation_of(handle))?;
        if generation_of(handle) == last {
            self.lasts.push(handle)?;
        }
        self.made += 1;
        Ok(())
    }
}

impl Made {
    /// Nothing was made.
    pub(crate) fn new(alloc: Global) -> Made
        ensures counts { (k : ObjectKind) (slot : ℕ) → made_in_slot (of_kind result k) slot ≡ 0 }
        ensures lasts { (k : ObjectKind) → last_handles (of_kind result k) ≡ [] }
        ensures made { (k : ObjectKind) → made_count (of_kind result k) ≡ 0 }
        ensures gone { (k : ObjectKind) → gone_count (of_kind result k) ≡ 0 }
        ensures freed { (k : ObjectKind) → freed_count (of_kind result k) ≡ 0 }
    {
        Made {
            actions: MadeOfKind::new(alloc),
            tasks: MadeOfKind::new(alloc),
            groups: MadeOfKind::new(alloc),
            queues: MadeOfKind::new(alloc),
            mutexes: MadeOfKind::new(alloc),
            sems: MadeOfKind::new(alloc),
            rwls: MadeOfKind::new(alloc),
            segments: MadeOfKind::new(alloc),
        }
    }

    /// What was made of a kind.
    pub(crate) fn of_kind(&self, kind: ObjectKind) -> &MadeOfKind
        ensures { result.now ≡ of_kind self.now kind }
    {
        match kind {
            ObjectKind::Action => &self.actions,
            ObjectKind::Task => &self.tasks,
            ObjectKind::Group => &self.groups,
            ObjectKind::Queue => &self.queues,
            ObjectKind::Mutex => &self.mutexes,
            ObjectKind::Sem => &self.sems,
            ObjectKind::Rwl => &self.rwls,
            ObjectKind::Shmem => &self.segments,
        }
    }

    /// Adds the handle of a new object of a kind, where `last` is the last generation.
    pub(crate) fn note(
        &mut self,
        kind: ObjectKind,
        last: u64,
        handle: u64,
    ) -> Result<(), AllocError>
        requires few { made_count (of_kind self.old kind) < 4294967295 }
        ensures { IfOk result (λ _. NotesObject kind last handle self.old self.new) }
    {
        match kind {
            ObjectKind::Action => self.actions.note(last, handle),
            ObjectKind::Task => self.tasks.note(last, handle),
            ObjectKind::Group => self.groups.note(last, handle),
            ObjectKind::Queue => self.queues.note(last, handle),
            ObjectKind::Mutex => self.mutexes.note(last, handle),
            ObjectKind::Sem => self.sems.note(last, handle),
            ObjectKind::Rwl => self.rwls.note(last, handle),
            ObjectKind::Shmem => self.segments.note(last, handle),
        }
    }

    /// At least so many of a kind aren't live any more, of the last generation and of the others.
    pub(crate) fn end(&mut self, kind: ObjectKind, gone: u64, freed: u64)
        ensures { EndsObjects kind gone freed self.old self.new }
    {
        match kind {
            ObjectKind::Action => self.actions.end(gone, freed),
            ObjectKind::Task => self.tasks.end(gone, freed),
            ObjectKind::Group => self.groups.end(gone, freed),
            ObjectKind::Queue => self.queues.end(gone, freed),
            ObjectKind::Mutex => self.mutexes.end(gone, freed),
            ObjectKind::Sem => self.sems.end(gone, freed),
            ObjectKind::Rwl => self.rwls.end(gone, freed),
            ObjectKind::Shmem => self.segments.end(gone, freed),
        }
    }

    /// One object of a kind that was live isn't any more, whose handle this is.
    pub(crate) fn end_one(&mut self, kind: ObjectKind, last: u64, handle: u64)
        requires few_gone { gone_count (of_kind self.old kind) ≤ 4294967295 }
        requires few_freed { freed_count (of_kind self.old kind) ≤ 4294967295 }
        ensures { EndsOne kind last handle self.old self.new }
    {
        let gone = self.of_kind(kind).gone();
        let freed = self.of_kind(kind).freed();
        if generation_of(handle) == last {
            return self.end(kind, gone + 1, freed);
        }
        self.end(kind, gone, freed + 1);
    }
}

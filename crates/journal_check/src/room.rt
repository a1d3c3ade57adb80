//! Whether there is room for one more object of a kind, and whether a handle may be given to it.

ghost use Rattle.std.specs.Prelude.{◌≡◌, ◌≤◌, ◌<◌, ℕ, List, length};
ghost use Rattle.mtapi_values.specs.Layouts.{names_kind};
ghost use Rattle.mtapi_machine.specs.State.{State};
ghost use Rattle.mtapi_machine.specs.Legal.{NodeEntry, after};
ghost use Rattle.mtapi_renaming.specs.Kinds.{limit_of, is_live_of, is_full_of};
ghost use Rattle.mtapi_renaming.specs.Counts.{most_of, is_next_of};
ghost use Rattle.mtapi_renaming.specs.Lasts.{gone_of};
ghost use Rattle.mtapi_renaming.specs.Follows.{Follows};
ghost use Rattle.mtapi_renaming.specs.Maps.{renaming_of};
ghost use Rattle.journal_check.specs.Follow.{Mirrors, HasFollowed, Same};

use crate::following::Following;
use crate::laws::laws;
use crate::made::generation_of;
use mtapi_machine::{Reply, Terms};
use mtapi_renaming::{OtherHandles, Rename};
use mtapi_values::{Layout, MrapiStatus, MtapiStatus, NodeAttr, ObjectKind};
use node_steps::PoolNode;

/// What is answered where no further object of a kind can be made.
pub(crate) fn limit_of(kind: ObjectKind) -> Reply
    ensures { result ≡ limit_of kind }
{
    match kind {
        ObjectKind::Action => Reply::Mtapi(MtapiStatus::ErrActionLimit),
        ObjectKind::Task => Reply::Mtapi(MtapiStatus::ErrTaskLimit),
        ObjectKind::Group => Reply::Mtapi(MtapiStatus::ErrGroupLimit),
        ObjectKind::Queue => Reply::Mtapi(MtapiStatus::ErrQueueLimit),
        ObjectKind::Mutex => Reply::Mrapi(MrapiStatus::ErrMutexLimit),
        ObjectKind::Sem => Reply::Mrapi(MrapiStatus::ErrSemLimit),
        ObjectKind::Rwl => Reply::Mrapi(MrapiStatus::ErrRwlLimit),
        ObjectKind::Shmem => Reply::Mrapi(MrapiStatus::ErrShmLimit),
    }
}

// How many objects of a kind there may be.
fn most_of(settings: &NodeAttr, kind: ObjectKind) -> u32
    ensures { (s : State) → s.terms.settings ≡ settings.now → most_of kind s ≡ result }
{
    match kind {
        ObjectKind::Action => settings.actions(),
        ObjectKind::Task => settings.tasks(),
        ObjectKind::Group => settings.groups(),
        ObjectKind::Queue => settings.queues(),
        ObjectKind::Mutex => settings.objects(),
        ObjectKind::Sem => settings.objects(),
        ObjectKind::Rwl => settings.objects(),
        ObjectKind::Shmem => settings.objects(),
    }
}

// Whether the handle names the kind, where the layout asks for it.
fn names_kind(layout: Layout, kind: ObjectKind, handle: u64) -> bool
    ensures { result ≡ names_kind layout kind handle }
{
    match layout {
        Layout::One => true,
        Layout::Two => handle / 16_777_216 % 256 == u64::from(kind.number()),
    }
}

// How many of these handles of the journal don't name a live object of a kind any more.
fn gone_of(node: &PoolNode, names: &OtherHandles, kind: ObjectKind, handles: &[u64]) -> u64
    ensures few { result ≤ length handles.now }
    ensures told { (terms : Terms) (s : State) (count : ℕ) → Mirrors node.now (renaming_of names.now) terms s count
        → Follows (renaming_of names.now) s → gone_of kind s handles.now ≡ result }
{
    laws();
    let mut gone = 0;
    for handle in handles {
        if !node.is_live(kind, names.other(kind, *handle)) {
            gone += 1;
        }
    }
    gone
}

impl Following {
    /// Whether no further object of a kind can be made under the journal's settings. Where what was kept of
    /// the kind doesn't tell it, this walks over the handles of the last generation, and keeps what it finds.
    pub(crate) fn is_full(&mut self, kind: ObjectKind) -> bool
        requires followed { (L : List NodeEntry) × HasFollowed self.old L × (length L < 4294967295) }
        ensures full { (L : List NodeEntry) → HasFollowed self.old L
            → is_full_of kind (after self.old.terms L) ≡ result }
        ensures same { Same self.old self.new }
    {
        laws();
        let most = u64::from(most_of(&self.terms.settings, kind));
        // Each object that was made takes a slot, but for one that isn't live and wasn't the last of its slot.
        let made = self.made.of_kind(kind).made();
        let freed = self.made.of_kind(kind).freed();
        if made - freed < most {
            return false;
        }
        let live = u64::from(self.node.live(kind));
        let known = self.made.of_kind(kind).gone();
        if live + known == most {
            return true;
        }
        // The last of a slot takes it for good.
        let lasts = self.made.of_kind(kind).lasts();
        let last = lasts.len() as u64;
        if last == most {
            return true;
        }
        let gone = gone_of(&self.node, &self.names, kind, lasts);
        self.made.end(kind, gone, made - live - gone);
        live + gone == most
    }

    /// Whether a handle of the journal names a live object of a kind.
    pub(crate) fn is_live(&self, kind: ObjectKind, handle: u64) -> bool
        ensures { (L : List NodeEntry) → HasFollowed self.now L
            → is_live_of kind (after self.now.terms L) handle ≡ result }
    {
        laws();
        self.node.is_live(kind, self.names.other(kind, handle))
    }

    /// Whether a handle may be given to a new object of a kind under the journal's settings.
    pub(crate) fn is_next(&self, kind: ObjectKind, handle: u64) -> bool
        ensures { (L : List NodeEntry) → HasFollowed self.now L
            → is_next_of kind (after self.now.terms L) handle ≡ result }
    {
        laws();
        let generation = generation_of(handle);
        names_kind(self.terms.layout, kind, handle)
            && generation <= u64::from(self.terms.settings.generations())
            && generation >= 1
            && generation - 1 == self.made.of_kind(kind).count(handle)
    }
}

//! Groups of tasks, in the order of their ends.
#![tactic(auto)]

mod worked;

ghost use Rattle.std.specs.Prelude.{◌≡◌, ◌≤◌, ◌<◌, replicate, IfOk, IfNone, OnOk, OnErr, OnSome, IsSome};
ghost use Rattle.std.specs.Option.{option_map};
ghost use Rattle.handle_pool.specs.Slots.{slot_value, slot_of, free_slot, without, changed, live_count};
ghost use Rattle.group_core.specs.Members.{with_member, with_ended, without_first, CreatesGroup, delete_reply, NoMemberAt, IsUnendedMember, LiveAreUsed, counts_of, first_ended, first_unended, without_first_unended};

use handle_pool::{Pool, slot_of};
use linked_places::LinkedLists;
use mtapi_values::{GroupHandle, MtapiStatus, TaskHandle};
use std::alloc::{AllocError, Global};
use std::marker::Model;
pub use worked::worked_members;

/// Groups, each under a handle, with their members.
#[derive(Drop)]
pub struct Groups {
    pool: Pool<()>,
    // The members of the group of each slot that haven't ended.
    unended: LinkedLists,
    // Those that have ended and weren't handed out.
    ended: LinkedLists,
}

impl Model for Groups {
    ghost use Rattle.group_core.specs.Members.{GroupTable, group_table_of, AreGroups};

    ghost Value = { GroupTable };

    ghost view = { λ g. group_table_of g.pool g.unended g.ended };

    ghost invariant = { λ g. AreGroups g.pool g.unended g.ended };
}

impl Groups {
    /// Room for 1 to 65,536 groups over 1 to 65,536 slots of tasks, with all the memory that they will use; a place takes `generations`
    /// handles, one after another.
    pub fn new(alloc: Global, max: u32, generations: u32, tasks: u32) -> Result<Groups, AllocError>
        requires some { 1 ≤ max }
        requires few { max ≤ 65536 }
        requires once { 1 ≤ generations }
        requires some_tasks { 1 ≤ tasks }
        requires few_tasks { tasks ≤ 65536 }
        ensures generations { IfOk result (λ g. g.pool.generations ≡ generations) }
        ensures slots { IfOk result (λ g. g.pool.slots ≡ replicate max (free_slot 1)) }
        ensures tasks { IfOk result (λ g. g.tasks ≡ tasks) }
    {
        Ok(Groups {
            pool: Pool::new(alloc, max, generations)?,
            unended: LinkedLists::new(alloc, max, tasks)?,
            ended: LinkedLists::new(alloc, max, tasks)?,
        })
    }

    /// Makes a group with no members.
    ///
    /// Stands for `mtapi_group_create`.
    ///
    /// # Errors
    ///
    /// - `ErrGroupLimit`: every place is in use or has retired.
    pub fn create(&mut self) -> Result<GroupHandle, MtapiStatus>
        ensures { CreatesGroup self.old result self.new }
    {
        let Ok(handle) = self.pool.insert(()) else {
            return Err(MtapiStatus::ErrGroupLimit);
        };
        Ok(GroupHandle(handle))
    }

    /// Gives up a group and forgets its members.
    ///
    /// Stands for `mtapi_group_delete`.
    ///
    /// # Errors
    ///
    /// - `ErrGroupInvalid`: the group isn't live.
    pub fn delete(&mut self, g: GroupHandle) -> Result<(), MtapiStatus>
        ensures reply { result ≡ delete_reply (slot_value self.old.pool g.0) }
        ensures ok { OnOk result (self.new ≡ record self.old { pool = without self.old.pool g.0 }) }
        ensures err { OnErr result (self.new ≡ self.old) }
    {
        if !self.pool.is_live(g.0) {
            return Err(MtapiStatus::ErrGroupInvalid);
        }
        let slot = slot_of(g.0);
        let _ = self.pool.remove(g.0);
        self.unended.clear(slot);
        self.ended.clear(slot);
        Ok(())
    }

    /// Has a task enter a live group. No member of any group may have its slot.
    pub fn enter(&mut self, g: GroupHandle, t: TaskHandle)
        requires live { IsSome (slot_value self.old.pool g.0) }
        requires slot { slot_of t.0 < self.old.tasks }
        requires alone { NoMemberAt (slot_of t.0) self.old.pool }
        ensures { self.new ≡ record self.old { pool = changed self.old.pool g.0 (with_member t.0) } }
    {
        self.unended.push(slot_of(g.0), t.0);
    }

    /// Has a member that hasn't ended stand last among those that have.
    pub fn ended(&mut self, g: GroupHandle, t: TaskHandle)
        requires { IsUnendedMember t.0 (slot_value self.old.pool g.0) }
        ensures { self.new ≡ record self.old { pool = changed self.old.pool g.0 (with_ended t.0) } }
    {
        let slot = slot_of(g.0);
        self.unended.remove(slot, t.0);
        self.ended.push(slot, t.0);
    }

    /// Tells how many groups are live.
    pub fn live(&self) -> u32
        ensures { result ≡ live_count self.now.pool }
    {
        self.pool.live()
    }

    /// Tells how many members of a live group weren't handed out, and how many of these have ended.
    /// None exactly where the group isn't live.
    pub fn left(&self, g: GroupHandle) -> Option<(u32, u32)>
        ensures { result ≡ option_map counts_of (slot_value self.now.pool g.0) }
    {
        if !self.pool.is_live(g.0) {
            return None;
        }
        let slot = slot_of(g.0);
        let ended = self.ended.len(slot);
        Some((self.unended.len(slot) + ended, ended))
    }

    /// Hands out the member of a live group that ended first. None where the group isn't live, or
    /// no member is left that has ended.
    ///
    /// Stands for what `mtapi_group_wait_any` takes out of a group.
    pub fn take(&mut self, g: GroupHandle) -> Option<TaskHandle>
        ensures task { option_map (λ (t : TaskHandle). t.0) result ≡ first_ended (slot_value self.old.pool g.0) }
        ensures some { OnSome result (self.new ≡ record self.old { pool = changed self.old.pool g.0 without_first }) }
        ensures none { IfNone result (self.new ≡ self.old) }
    {
        if !self.pool.is_live(g.0) {
            return None;
        }
        let slot = slot_of(g.0);
        let Some(first) = self.ended.first(slot) else {
            return None;
        };
        self.ended.remove(slot, first);
        Some(TaskHandle(first))
    }

    /// Has the member that entered first leave a live group, of those that haven't ended. None
    /// where the group isn't live, or there is no such member.
    pub fn leave(&mut self, g: GroupHandle) -> Option<TaskHandle>
        ensures task { option_map (λ (t : TaskHandle). t.0) result ≡ first_unended (slot_value self.old.pool g.0) }
        ensures some { OnSome result (self.new ≡ record self.old { pool = changed self.old.pool g.0 without_first_unended }) }
        ensures none { IfNone result (self.new ≡ self.old) }
    {
        if !self.pool.is_live(g.0) {
            return None;
        }
        let slot = slot_of(g.0);
        let Some(entered) = self.unended.first(slot) else {
            return None;
        };
        self.unended.remove(slot, entered);
        Some(TaskHandle(entered))
    }

    /// What the slots of live groups are.
    pub fn is_kept(&self)
        ensures { LiveAreUsed self.now.pool }
    {
        let _ = self.pool.is_live(0);
    }
}

//! Workloads as data.
ghost use Rattle.std.specs.Prelude.{◌≡◌, ◌++◌, ◌∷◌, [], List, IfOk, OnOk, OnErr};

use crate::name::Name;
use mtapi_values::{Args, Kind, Mask, NodeAttr, Timeout};
use std::alloc::{AllocError, Global};
use std::marker::Model;

/// What a statement does. `place`, `queue` and `group` are places of the statements, counted from 0 in the same part, that bound the names used.
#[rattlefmt::skip]
#[derive(Drop)]
pub enum Deed {
    Begin,
    Action { job: u32, kind: Kind, cores: Mask },
    ActionDelete { place: u32 },
    ActionEnable { place: u32 },
    ActionDisable { place: u32 },
    Start { job: u32, args: Args, priority: u32, cores: Mask, detached: bool, group: Option<u32> },
    Enqueue { queue: u32, args: Args, cores: Mask, detached: bool, group: Option<u32> },
    Wait { place: u32, timeout: Timeout },
    Cancel { place: u32 },
    Group,
    WaitAll { place: u32, timeout: Timeout },
    WaitAny { place: u32, timeout: Timeout },
    GroupDelete { place: u32 },
    Queue { id: u32, job: u32, priority: u32, limit: u32, ordered: bool, retain: bool },
    QueueGet { id: u32 },
    QueueEnable { place: u32 },
    QueueDisable { place: u32 },
    QueueDelete { place: u32 },
    Mutex { id: u32, recursive: bool },
    MutexGet { id: u32 },
    MutexDelete { place: u32 },
    Lock { place: u32, timeout: Timeout },
    Unlock { place: u32, key: u32 },
    Sem { id: u32, limit: u32 },
    SemGet { id: u32 },
    SemDelete { place: u32 },
    SemLock { place: u32, timeout: Timeout },
    SemUnlock { place: u32 },
    Rwl { id: u32, limit: u32 },
    RwlGet { id: u32 },
    RwlDelete { place: u32 },
    RwlLock { place: u32, writer: bool, timeout: Timeout },
    RwlUnlock { place: u32, writer: bool },
    Shmem { id: u32, cells: u32 },
    ShmemGet { id: u32 },
    ShmemDelete { place: u32 },
    Attach { place: u32 },
    Detach { place: u32 },
    Read { place: u32, cell: u32 },
    Write { place: u32, cell: u32, value: i64 },
}

/// A statement: its line, counted from 1, the name that it binds, where it binds one, and what it does.
#[derive(Drop)]
pub struct Statement {
    pub line: u64,
    pub name: Option<Name>,
    pub deed: Deed,
}

/// The statements of a part, in order.
#[derive(Drop)]
pub struct StatementList {
    items: Vec<Statement>,
}

impl Model for StatementList {
    ghost use Rattle.std.specs.Prelude.{List};
    ghost use Rattle.workload_file.specs.declared.workload.Statement.{Statement};

    ghost Value = { List Statement };

    ghost view = { λ s. s.items.items };
}

impl StatementList {
    /// The empty list. It takes no memory.
    pub fn new(alloc: Global) -> Self
        ensures { result ≡ [] }
    {
        StatementList {
            items: Vec::new(alloc),
        }
    }

    /// Appends a statement.
    ///
    /// # Errors
    ///
    /// - `AllocError`: memory ran out. The list stays as it was.
    pub fn push(&mut self, statement: Statement) -> Result<(), AllocError>
        ensures ok { OnOk result (self.new ≡ self.old ++ statement ∷ []) }
        ensures err { OnErr result (self.new ≡ self.old) }
    {
        self.items.push(statement)?;
        Ok(())
    }

    /// The statements in order.
    pub fn as_slice(&self) -> &[Statement]
        ensures { result.now ≡ self.now }
    {
        &self.items
    }
}

/// The part of one caller: the line of its `caller` statement, which is 0 for main, its name and its statements.
#[derive(Drop)]
pub struct Part {
    pub line: u64,
    pub name: Name,
    pub statements: StatementList,
}

/// The parts of a workload, in order, main's first.
#[derive(Drop)]
pub struct PartList {
    items: Vec<Part>,
}

impl Model for PartList {
    ghost use Rattle.std.specs.Prelude.{List};
    ghost use Rattle.workload_file.specs.declared.workload.Part.{Part};

    ghost Value = { List Part };

    ghost view = { λ s. s.items.items };
}

impl PartList {
    /// The empty list. It takes no memory.
    pub fn new(alloc: Global) -> Self
        ensures { result ≡ [] }
    {
        PartList {
            items: Vec::new(alloc),
        }
    }

    /// Appends a part.
    ///
    /// # Errors
    ///
    /// - `AllocError`: memory ran out. The list stays as it was.
    pub fn push(&mut self, part: Part) -> Result<(), AllocError>
        ensures ok { OnOk result (self.new ≡ self.old ++ part ∷ []) }
        ensures err { OnErr result (self.new ≡ self.old) }
    {
        self.items.push(part)?;
        Ok(())
    }

    /// The parts in order.
    pub fn as_slice(&self) -> &[Part]
        ensures { result.now ≡ self.now }
    {
        &self.items
    }
}

/// A workload, as data. `node_line` is 0 where the text has no `node` line; the settings are then the defaults.
#[derive(Drop)]
pub struct Workload {
    pub node_line: u64,
    pub settings: NodeAttr,
    pub parts: PartList,
}

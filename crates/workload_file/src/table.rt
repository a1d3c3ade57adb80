//! The statements: their words, their names and their options, all by one table.
ghost use Rattle.std.specs.Prelude.{◌≡◌, Option};
ghost use Rattle.workload_file.specs.Table.{word_text, word_of, key_text, naming, fields};

/// The word of a statement.
#[rattlefmt::skip]
#[derive(Clone, Copy)]
pub enum Word {
    Node, Caller, Begin, Action, ActionDelete, ActionEnable, ActionDisable, Start, Enqueue, Wait, Cancel, Group, WaitAll, WaitAny,
    GroupDelete, Queue, QueueGet, QueueEnable, QueueDisable, QueueDelete, Mutex, MutexGet, MutexDelete, Lock, Unlock, Sem, SemGet,
    SemDelete, SemLock, SemUnlock, Rwl, RwlGet, RwlDelete, RwlLock, RwlUnlock, Shmem, ShmemGet, ShmemDelete, Attach, Detach, Read,
    Write,
}

/// The key of an option.
#[rattlefmt::skip]
#[derive(Clone, Copy)]
pub enum Key {
    Workers, MaxTasks, MaxActions, MaxGroups, MaxQueues, MaxObjects, Priorities, Generations, Job, Kind, Cores, Args, Priority,
    Detached, Group, Queue, Timeout, Id, Limit, Ordered, Retain, Recursive, Key, Mode, Cells, Cell, Value,
}

/// What a name is bound to.
#[rattlefmt::skip]
#[derive(Clone, Copy)]
pub enum Sort { Action, Task, Group, Queue, Mutex, Sem, Rwl, Shmem }

/// What the value of an option is.
#[rattlefmt::skip]
#[derive(Clone, Copy)]
pub enum OptionShape { Number(u32, u32), Whole, Args, Cores, Kind, Flag, Mode, Timeout, Named(Sort) }

/// Whether a statement has a name, and what for.
#[rattlefmt::skip]
#[derive(Clone, Copy)]
pub enum Naming { Bare, Caller, Binds(Sort), Uses(Sort) }

/// What it means that an option is absent.
#[derive(Clone, Copy)]
pub enum Absent {
    /// The statement is faulty.
    Refused,
    /// The usual value of the shape: no numbers, all cores, no, no name.
    Usual,
    /// This number.
    Number(u32),
}

/// An option of a statement.
#[derive(Clone, Copy)]
pub struct Field {
    pub key: Key,
    pub shape: OptionShape,
    pub absent: Absent,
}

/// The table, handed to a macro. A line is a statement: its word, the word's text, what its name is, the place of the name that it
/// uses, and its options in order: the field of its deed, its key, the values that it takes, and what its absence means. The first
/// two statements are no deeds; the others stand by families.
#[rattlefmt::skip]
macro_rules! statements {
    ($then:ident $args:tt) => { $then! { $args
        heads {
            Node b"node" Bare [] { workers: Workers Number(1, 16) Number(1), max_tasks: MaxTasks Number(1, 65536) Number(1024), max_actions: MaxActions Number(1, 1024) Number(64), max_groups: MaxGroups Number(1, 1024) Number(128), max_queues: MaxQueues Number(1, 256) Number(16), max_objects: MaxObjects Number(1, 256) Number(16), priorities: Priorities Number(1, 8) Number(4), generations: Generations Number(1, 4294967295) Number(4294967295) }
            Caller b"caller" Caller [] {}
        }
        tasks {
            Begin b"begin" Bare [] {}
            Action b"action" Binds(Action) [] { job: Job Number(1, 65535) Refused, kind: Kind Kind Refused, cores: Cores Cores Usual }
            ActionDelete b"action_delete" Uses(Action) [place] {}
            ActionEnable b"action_enable" Uses(Action) [place] {}
            ActionDisable b"action_disable" Uses(Action) [place] {}
            Start b"start" Binds(Task) [] { job: Job Number(1, 65535) Refused, args: Args Args Usual, priority: Priority Number(0, 7) Number(0), cores: Cores Cores Usual, detached: Detached Flag Usual, group: Group Named(Group) Usual }
            Enqueue b"enqueue" Binds(Task) [] { queue: Queue Named(Queue) Refused, args: Args Args Usual, cores: Cores Cores Usual, detached: Detached Flag Usual, group: Group Named(Group) Usual }
            Wait b"wait" Uses(Task) [place] { timeout: Timeout Timeout Refused }
            Cancel b"cancel" Uses(Task) [place] {}
            Group b"group" Binds(Group) [] {}
            WaitAll b"wait_all" Uses(Group) [place] { timeout: Timeout Timeout Refused }
            WaitAny b"wait_any" Uses(Group) [place] { timeout: Timeout Timeout Refused }
            GroupDelete b"group_delete" Uses(Group) [place] {}
        }
        queues {
            Queue b"queue" Binds(Queue) [] { id: Id Number(0, 4294967295) Refused, job: Job Number(1, 65535) Refused, priority: Priority Number(0, 7) Number(0), limit: Limit Number(1, 65536) Number(65536), ordered: Ordered Flag Usual, retain: Retain Flag Usual }
            QueueGet b"queue_get" Binds(Queue) [] { id: Id Number(0, 4294967295) Refused }
            QueueEnable b"queue_enable" Uses(Queue) [place] {}
            QueueDisable b"queue_disable" Uses(Queue) [place] {}
            QueueDelete b"queue_delete" Uses(Queue) [place] {}
        }
        locks {
            Mutex b"mutex" Binds(Mutex) [] { id: Id Number(0, 4294967295) Refused, recursive: Recursive Flag Usual }
            MutexGet b"mutex_get" Binds(Mutex) [] { id: Id Number(0, 4294967295) Refused }
            MutexDelete b"mutex_delete" Uses(Mutex) [place] {}
            Lock b"lock" Uses(Mutex) [place] { timeout: Timeout Timeout Refused }
            Unlock b"unlock" Uses(Mutex) [place] { key: Key Number(0, 4294967295) Refused }
            Sem b"sem" Binds(Sem) [] { id: Id Number(0, 4294967295) Refused, limit: Limit Number(1, 65535) Refused }
            SemGet b"sem_get" Binds(Sem) [] { id: Id Number(0, 4294967295) Refused }
            SemDelete b"sem_delete" Uses(Sem) [place] {}
            SemLock b"sem_lock" Uses(Sem) [place] { timeout: Timeout Timeout Refused }
            SemUnlock b"sem_unlock" Uses(Sem) [place] {}
            Rwl b"rwl" Binds(Rwl) [] { id: Id Number(0, 4294967295) Refused, limit: Limit Number(1, 32) Refused }
            RwlGet b"rwl_get" Binds(Rwl) [] { id: Id Number(0, 4294967295) Refused }
            RwlDelete b"rwl_delete" Uses(Rwl) [place] {}
            RwlLock b"rwl_lock" Uses(Rwl) [place] { writer: Mode Mode Refused, timeout: Timeout Timeout Refused }
            RwlUnlock b"rwl_unlock" Uses(Rwl) [place] { writer: Mode Mode Refused }
        }
        segments {
            Shmem b"shmem" Binds(Shmem) [] { id: Id Number(0, 4294967295) Refused, cells: Cells Number(1, 4096) Refused }
            ShmemGet b"shmem_get" Binds(Shmem) [] { id: Id Number(0, 4294967295) Refused }
            ShmemDelete b"shmem_delete" Uses(Shmem) [place] {}
            Attach b"attach" Uses(Shmem) [place] {}
            Detach b"detach" Uses(Shmem) [place] {}
            Read b"read" Uses(Shmem) [place] { cell: Cell Number(0, 4095) Refused }
            Write b"write" Uses(Shmem) [place] { cell: Cell Number(0, 4095) Refused, value: Value Whole Refused }
        }
    } };
}

pub(crate) use statements;

macro_rules! words {
    (() $($family:ident { $($word:ident $text:literal $naming:ident$(($sort:ident))? [$($place:ident)?] $options:tt)* })*) => { [$($(Word::$word,)*)*] };
}

macro_rules! shape {
    (Number($low:literal, $high:literal)) => { OptionShape::Number($low, $high) };
    (Named($sort:ident)) => { OptionShape::Named(Sort::$sort) };
    ($shape:ident) => { OptionShape::$shape };
}

macro_rules! options {
    ({ $($field:ident: $key:ident $shape:ident$(($($bound:tt)*))? $absent:ident$(($usual:literal))?),* }) => {
        &[$(Field { key: Key::$key, shape: shape!($shape$(($($bound)*))?), absent: Absent::$absent$(($usual))? }),*]
    };
}

macro_rules! texts {
    (($self:ident) $($family:ident { $($word:ident $text:literal $naming:ident$(($sort:ident))? [$($place:ident)?] $options:tt)* })*) => {
        match $self { $($(Word::$word => $text,)*)* }
    };
}

macro_rules! namings {
    (($self:ident) $($family:ident { $($word:ident $text:literal $naming:ident$(($sort:ident))? [$($place:ident)?] $options:tt)* })*) => {
        match $self { $($(Word::$word => Naming::$naming$((Sort::$sort))?,)*)* }
    };
}

macro_rules! lists {
    (($self:ident) $($family:ident { $($word:ident $text:literal $naming:ident$(($sort:ident))? [$($place:ident)?] $options:tt)* })*) => {
        match $self { $($(Word::$word => options!($options),)*)* }
    };
}

/// Each statement once.
const WORDS: [Word; 42] = statements!(words());

impl Word {
    /// The word itself.
    #[tactic(auto, unfolding(crate::specs::Table::statement_row))]
    pub fn text(self) -> &'static [u8]
        ensures { result.now ≡ word_text self }
    {
        let word = self;
        statements!(texts(word))
    }

    /// What its second word is.
    #[tactic(auto, unfolding(crate::specs::Table::statement_row))]
    pub fn naming(self) -> Naming
        ensures { result ≡ naming self }
    {
        let word = self;
        statements!(namings(word))
    }

    /// Its options, in order.
    #[tactic(auto, unfolding(crate::specs::Table::statement_row))]
    pub fn fields(self) -> &'static [Field]
        ensures { result.now ≡ fields self }
    {
        let word = self;
        statements!(lists(word))
    }

    /// The statement with this first word. Most lines of a long text start a task, so that this word is compared first.
    #[tactic(auto, unfolding(crate::specs::Table::word_of))]
    pub fn from_text(text: &[u8]) -> Option<Word>
        ensures { result ≡ word_of text.now }
    {
        if text == Word::Start.text() {
            return Some(Word::Start);
        }
        WORDS.iter().copied().find(|w| w.text() == text)
    }
}

impl Key {
    /// The key as it stands before `=`.
    #[rattlefmt::skip]
    #[tactic(auto, unfolding(crate::specs::Table::key_text))]
    pub fn text(self) -> &'static [u8]
        ensures { result.now ≡ key_text self }
    {
        match self {
            Key::Workers => b"workers", Key::MaxTasks => b"max_tasks", Key::MaxActions => b"max_actions",
            Key::MaxGroups => b"max_groups", Key::MaxQueues => b"max_queues", Key::MaxObjects => b"max_objects",
            Key::Priorities => b"priorities", Key::Generations => b"generations", Key::Job => b"job", Key::Kind => b"kind",
            Key::Cores => b"cores", Key::Args => b"args", Key::Priority => b"priority", Key::Detached => b"detached",
            Key::Group => b"group", Key::Queue => b"queue", Key::Timeout => b"timeout", Key::Id => b"id", Key::Limit => b"limit",
            Key::Ordered => b"ordered", Key::Retain => b"retain", Key::Recursive => b"recursive", Key::Key => b"key",
            Key::Mode => b"mode", Key::Cells => b"cells", Key::Cell => b"cell", Key::Value => b"value",
        }
    }
}

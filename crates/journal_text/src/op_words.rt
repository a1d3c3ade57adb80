//! The ops as words: the word of each op, the shapes of its fields in order, and their values, all by one table.
ghost use Rattle.std.specs.Prelude.{◌≡◌, IfOk, option_map};
ghost use Rattle.journal_text.specs.Ops.{op_row, op_word_of, op_spelled, finished_of, node_op, task_op, queue_op, work_op, lock_op, segment_op, op_of, end_of_answer};

use crate::shown::NodeObject;
use crate::values::{Shape, Value, spelled};
use action_fn::{ActEnd, Finished, answer_of};
use mtapi_machine::Op;
use mtapi_values::{
    ActionHandle, Args, GroupHandle, Kind, MutexHandle, ObjectKind, QueueHandle, RwlHandle,
    SemHandle, ShmemHandle, TaskEnd, TaskHandle,
};
use std::alloc::{AllocError, Global};

/// The word of an op.
#[rattlefmt::skip]
#[derive(Clone, Copy, PartialEq, Eq, Debug)]
pub enum OpWord {
    Initialize, Release, Enter, Close, Final, JobGet, ActionCreate, ActionDelete, ActionDisable, ActionEnable,
    TaskStart, TaskEnqueue, TaskLook, TaskCancel, GroupCreate, GroupDelete, AllLook, AnyLook,
    QueueCreate, QueueGet, QueueEnable, QueueDisable, QueueDelete,
    Pick, Finish, Asked, WatchEnd, TallyLock, TallyRead, TallyWrite, TallyEnd,
    MutexCreate, MutexGet, MutexDelete, MutexLook, MutexUnlock, SemCreate, SemGet, SemDelete, SemLook, SemUnlock,
    RwlCreate, RwlGet, RwlDelete, RwlLook, RwlUnlock,
    ShmemCreate, ShmemGet, ShmemDelete, ShmemAttach, ShmemDetach, ShmemRead, ShmemWrite,
}

/// The table, handed to a macro: by families, an op's word, its text, the word by which runs are shown, which is that of the workload's
/// statement if there is one, its fields in order with the shape of each, and the kind of object whose handle it answers. `finish`,
/// whose fields are those of an answer, stands beside it in each use.
#[rattlefmt::skip]
macro_rules! ops {
    ($then:ident $args:tt) => { $then! { $args
        nodes {
            Initialize b"initialize" "initialize" {}
            Release b"release" "release" {}
            Enter b"enter" "enter" {}
            Close b"close" "close" {}
            Final b"final" "final" {}
            JobGet b"job_get" "job_get" { job: Number }
            ActionCreate b"action_create" "action" { job: Number, kind: Kind, cores: Cores } -> Action
            ActionDelete b"action_delete" "action_delete" { action: Handle(ActionHandle) }
            ActionDisable b"action_disable" "action_disable" { action: Handle(ActionHandle) }
            ActionEnable b"action_enable" "action_enable" { action: Handle(ActionHandle) }
        }
        tasks {
            TaskStart b"task_start" "start" { job: Number, args: Args, priority: Number, cores: Cores, detached: Flag, group: Group(GroupHandle) } -> Task
            TaskEnqueue b"task_enqueue" "enqueue" { queue: Handle(QueueHandle), args: Args, cores: Cores, detached: Flag, group: Group(GroupHandle) } -> Task
            TaskLook b"task_look" "wait" { task: Handle(TaskHandle), last: Flag }
            TaskCancel b"task_cancel" "cancel" { task: Handle(TaskHandle) }
            GroupCreate b"group_create" "group" {} -> Group
            GroupDelete b"group_delete" "group_delete" { group: Handle(GroupHandle) }
            AllLook b"all_look" "wait_all" { group: Handle(GroupHandle), last: Flag }
            AnyLook b"any_look" "wait_any" { group: Handle(GroupHandle), last: Flag }
        }
        queues {
            QueueCreate b"queue_create" "queue" { id: Number, job: Number, priority: Number, limit: Number, ordered: Flag, retain: Flag } -> Queue
            QueueGet b"queue_get" "queue_get" { id: Number } -> Queue
            QueueEnable b"queue_enable" "queue_enable" { queue: Handle(QueueHandle) }
            QueueDisable b"queue_disable" "queue_disable" { queue: Handle(QueueHandle) }
            QueueDelete b"queue_delete" "queue_delete" { queue: Handle(QueueHandle) }
        }
        work {
            Pick b"pick" "pick" {}
            Asked b"asked" "asked" { task: Handle(TaskHandle) }
            WatchEnd b"watch_end" "watch_end" { task: Handle(TaskHandle) }
            TallyLock b"tally_lock" "tally_lock" { task: Handle(TaskHandle) }
            TallyRead b"tally_read" "tally_read" { task: Handle(TaskHandle) }
            TallyWrite b"tally_write" "tally_write" { task: Handle(TaskHandle), value: Whole }
            TallyEnd b"tally_end" "tally_end" { task: Handle(TaskHandle) }
        }
        locks {
            MutexCreate b"mutex_create" "mutex" { id: Number, recursive: Flag } -> Mutex
            MutexGet b"mutex_get" "mutex_get" { id: Number } -> Mutex
            MutexDelete b"mutex_delete" "mutex_delete" { mutex: Handle(MutexHandle) }
            MutexLook b"mutex_look" "lock" { mutex: Handle(MutexHandle), last: Flag }
            MutexUnlock b"mutex_unlock" "unlock" { mutex: Handle(MutexHandle), key: Number }
            SemCreate b"sem_create" "sem" { id: Number, limit: Number } -> Sem
            SemGet b"sem_get" "sem_get" { id: Number } -> Sem
            SemDelete b"sem_delete" "sem_delete" { sem: Handle(SemHandle) }
            SemLook b"sem_look" "sem_lock" { sem: Handle(SemHandle), last: Flag }
            SemUnlock b"sem_unlock" "sem_unlock" { sem: Handle(SemHandle) }
            RwlCreate b"rwl_create" "rwl" { id: Number, limit: Number } -> Rwl
            RwlGet b"rwl_get" "rwl_get" { id: Number } -> Rwl
            RwlDelete b"rwl_delete" "rwl_delete" { rwl: Handle(RwlHandle) }
            RwlLook b"rwl_look" "rwl_lock" { rwl: Handle(RwlHandle), writer: Flag, last: Flag }
            RwlUnlock b"rwl_unlock" "rwl_unlock" { rwl: Handle(RwlHandle), writer: Flag }
        }
        segments {
            ShmemCreate b"shmem_create" "shmem" { id: Number, cells: Number } -> Shmem
            ShmemGet b"shmem_get" "shmem_get" { id: Number } -> Shmem
            ShmemDelete b"shmem_delete" "shmem_delete" { shmem: Handle(ShmemHandle) }
            ShmemAttach b"shmem_attach" "attach" { shmem: Handle(ShmemHandle) }
            ShmemDetach b"shmem_detach" "detach" { shmem: Handle(ShmemHandle) }
            ShmemRead b"shmem_read" "read" { shmem: Handle(ShmemHandle), cell: Number }
            ShmemWrite b"shmem_write" "write" { shmem: Handle(ShmemHandle), cell: Number, value: Whole }
        }
    } };
}

macro_rules! words {
    (() $($family:ident { $($word:ident $text:literal $shown:literal { $($field:ident: $shape:ident$(($handle:ident))?),* } $(-> $made:ident)?)* })*) => { [$($(OpWord::$word,)*)* OpWord::Finish] };
}

macro_rules! rows {
    (($self:ident) $($family:ident { $($word:ident $text:literal $shown:literal { $($field:ident: $shape:ident$(($handle:ident))?),* } $(-> $made:ident)?)* })*) => {
        match $self {
            $($(OpWord::$word => ($text, &[$(Shape::$shape),*]),)*)*
            OpWord::Finish => (b"finish", &[Shape::Handle, Shape::Kind, Shape::Args, Shape::End]),
        }
    };
}

/// Each word once.
pub const OP_WORDS: [OpWord; 53] = ops!(words());

impl OpWord {
    /// The text of the word, and the shapes of the fields behind it.
    #[tactic(auto, unfolding(crate::specs::Ops::op_row))]
    pub fn row(self) -> (&'static [u8], &'static [Shape])
        ensures word { result.0.now ≡ (op_row self).0 }
        ensures shapes { result.1.now ≡ (op_row self).1 }
    {
        let word = self;
        ops!(rows(word))
    }

    /// The word with this text.
    #[tactic(auto, unfolding(crate::specs::Ops::op_word_of))]
    pub fn of(text: &[u8]) -> Option<OpWord>
        ensures { result ≡ op_word_of text.now }
    {
        OP_WORDS.iter().copied().find(|word| word.row().0 == text)
    }
}

fn end_of_answer(answer: &ActEnd) -> TaskEnd
    ensures { result ≡ end_of_answer answer.now }
{
    match answer {
        ActEnd::Done(args) => TaskEnd::Completed(args.again()),
        ActEnd::Fails(status) => TaskEnd::Failed(*status),
    }
}

fn group_number(group: &Option<GroupHandle>) -> Option<u64>
    ensures { result ≡ option_map (λ g. g.0) group.now }
{
    group.map(|group| group.0)
}

macro_rules! wrapped {
    (Handle($handle:ident) $field:ident) => { Value::Handle($field.0) };
    (Group($handle:ident) $field:ident) => { Value::Group(group_number($field)) };
    (Args $field:ident) => { Value::Args($field.again()) };
    ($shape:ident $field:ident) => { Value::$shape(*$field) };
}

macro_rules! spell {
    (($alloc:ident $op:ident) $($family:ident { $($word:ident $text:literal $shown:literal { $($field:ident: $shape:ident$(($handle:ident))?),* } $(-> $made:ident)?)* })*) => {
        match $op {
            $($(Op::$word { $($field),* } => spelled($alloc, OpWord::$word, [$(wrapped!($shape$(($handle))? $field)),*]),)*)*
            Op::Finish { task, done } => spelled($alloc, OpWord::Finish, [Value::Handle(task.0), Value::Kind(done.kind()), Value::Args(done.args().again()), Value::End(end_of_answer(&done.end()))]),
        }
    };
}

/// An op's word, and the values of its fields.
#[tactic(auto, unfolding(crate::specs::Ops::op_spelled))]
pub fn op_spelled(alloc: Global, op: &Op) -> Result<(OpWord, Vec<Value>), AllocError>
    ensures word { IfOk result (λ x. x.0 ≡ (op_spelled op.now).0) }
    ensures values { IfOk result (λ x. x.1.items ≡ (op_spelled op.now).1) }
{
    ops!(spell (alloc op))
}

fn finished(kind: Kind, args: Args) -> Option<Finished>
    ensures { result ≡ finished_of kind args }
{
    if let Kind::Watch | Kind::Tally = kind {
        return None;
    }
    let end = answer_of(kind, &args);
    Some(Finished::new(kind, args, end))
}

fn group_handle(group: Option<u64>) -> Option<GroupHandle>
    ensures { result ≡ option_map (λ g. record { 0 = g }) group }
{
    group.map(GroupHandle)
}

macro_rules! taken {
    (Handle($handle:ident) $field:ident) => { $handle(*$field) };
    (Group($handle:ident) $field:ident) => { group_handle(*$field) };
    (Args $field:ident) => { $field.again() };
    ($shape:ident $field:ident) => { *$field };
}

macro_rules! built {
    (($self:ident $values:ident) { $($word:ident $text:literal $shown:literal { $($field:ident: $shape:ident$(($handle:ident))?),* } $(-> $made:ident)?)* }) => {
        match $self {
            $(OpWord::$word => match $values {
                [$(Value::$shape($field)),*] => Some(Op::$word { $($field: taken!($shape$(($handle))? $field)),* }),
                _ => None,
            },)*
            _ => None,
        }
    };
}

/// The rows of one family alone.
macro_rules! family {
    ((nodes $args:tt) nodes $rows:tt $($later:tt)*) => { built! { $args $rows } };
    ((tasks $args:tt) nodes $a:tt tasks $rows:tt $($later:tt)*) => { built! { $args $rows } };
    ((queues $args:tt) nodes $a:tt tasks $b:tt queues $rows:tt $($later:tt)*) => { built! { $args $rows } };
    ((work $args:tt) nodes $a:tt tasks $b:tt queues $c:tt work $rows:tt $($later:tt)*) => { built! { $args $rows } };
    ((locks $args:tt) nodes $a:tt tasks $b:tt queues $c:tt work $d:tt locks $rows:tt $($later:tt)*) => { built! { $args $rows } };
    ((segments $args:tt) nodes $a:tt tasks $b:tt queues $c:tt work $d:tt locks $e:tt segments $rows:tt) => { built! { $args $rows } };
}

#[tactic(auto, unfolding(crate::specs::Ops::node_op))]
fn node_op(word: OpWord, values: &[Value]) -> Option<Op>
    ensures { result ≡ node_op word values.now }
{
    ops!(family (nodes (word values)))
}

#[tactic(auto, unfolding(crate::specs::Ops::task_op))]
fn task_op(word: OpWord, values: &[Value]) -> Option<Op>
    ensures { result ≡ task_op word values.now }
{
    ops!(family (tasks (word values)))
}

#[tactic(auto, unfolding(crate::specs::Ops::queue_op))]
fn queue_op(word: OpWord, values: &[Value]) -> Option<Op>
    ensures { result ≡ queue_op word values.now }
{
    ops!(family (queues (word values)))
}

#[tactic(auto, unfolding(crate::specs::Ops::work_op))]
fn work_op(word: OpWord, values: &[Value]) -> Option<Op>
    ensures { result ≡ work_op word values.now }
{
    match (word, values) {
        (
            OpWord::Finish,
            [
                Value::Handle(task),
                Value::Kind(kind),
                Value::Args(args),
                _end,
            ],
        ) => match finished(*kind, args.again()) {
            Some(done) => Some(Op::Finish {
                task: TaskHandle(*task),
                done,
            }),
            None => None,
        },
        _ => ops!(family (work (word values))),
    }
}

#[tactic(auto, unfolding(crate::specs::Ops::lock_op))]
fn lock_op(word: OpWord, values: &[Value]) -> Option<Op>
    ensures { result ≡ lock_op word values.now }
{
    ops!(family (locks (word values)))
}

#[tactic(auto, unfolding(crate::specs::Ops::segment_op))]
fn segment_op(word: OpWord, values: &[Value]) -> Option<Op>
    ensures { result ≡ segment_op word values.now }
{
    ops!(family (segments (word values)))
}

/// The op of a word with these values.
#[tactic(auto, unfolding(crate::specs::Ops::op_of))]
pub fn op_of(word: OpWord, values: &[Value]) -> Option<Op>
    ensures { result ≡ op_of word values.now }
{
    if let Some(op) = node_op(word, values) {
        return Some(op);
    }
    if let Some(op) = task_op(word, values) {
        return Some(op);
    }
    if let Some(op) = queue_op(word, values) {
        return Some(op);
    }
    if let Some(op) = work_op(word, values) {
        return Some(op);
    }
    if let Some(op) = lock_op(word, values) {
        return Some(op);
    }
    segment_op(word, values)
}

macro_rules! shown_words {
    (($op:ident) $($family:ident { $($word:ident $text:literal $shown:literal { $($field:ident: $shape:ident$(($handle:ident))?),* } $(-> $made:ident)?)* })*) => {
        match $op {
            $($(Op::$word { .. } => $shown,)*)*
            Op::Finish { .. } => "finish",
        }
    };
}

/// The word by which an op is shown: that of the workload's statement, where there is one, and else that of the journal.
pub fn shown_word(op: &Op) -> &'static str {
    ops!(shown_words(op))
}

macro_rules! answered {
    () => { None };
    ($made:ident) => { Some(ObjectKind::$made) };
}

macro_rules! kinds_answered {
    (($op:ident) $($family:ident { $($word:ident $text:literal $shown:literal { $($field:ident: $shape:ident$(($handle:ident))?),* } $(-> $made:ident)?)* })*) => {
        match $op {
            $($(Op::$word { .. } => answered!($($made)?),)*)*
            Op::Finish { .. } => None,
        }
    };
}

/// The kind of object whose handle an op answers.
pub fn kind_answered(op: &Op) -> Option<ObjectKind> {
    ops!(kinds_answered(op))
}

macro_rules! kind_of {
    (ActionHandle) => { ObjectKind::Action };
    (TaskHandle) => { ObjectKind::Task };
    (GroupHandle) => { ObjectKind::Group };
    (QueueHandle) => { ObjectKind::Queue };
    (MutexHandle) => { ObjectKind::Mutex };
    (SemHandle) => { ObjectKind::Sem };
    (RwlHandle) => { ObjectKind::Rwl };
    (ShmemHandle) => { ObjectKind::Shmem };
}

/// The object that the first handle among the fields names.
macro_rules! first_named {
    () => { None };
    (Handle($handle:ident) $field:ident $($later:tt)*) => { Some(NodeObject { kind: kind_of!($handle), handle: $field.0 }) };
    ($shape:ident $field:ident $($later:tt)*) => { first_named!($($later)*) };
    ($shape:ident($handle:ident) $field:ident $($later:tt)*) => { first_named!($($later)*) };
}

macro_rules! objects_named {
    (($op:ident) $($family:ident { $($word:ident $text:literal $shown:literal { $($field:ident: $shape:ident$(($handle:ident))?),* } $(-> $made:ident)?)* })*) => {
        match $op {
            $($(Op::$word { $($field),* } => first_named!($($shape$(($handle))? $field)*),)*)*
            Op::Finish { task, .. } => Some(NodeObject { kind: ObjectKind::Task, handle: task.0 }),
        }
    };
}

/// The object that an op names.
pub fn object_named(op: &Op) -> Option<NodeObject> {
    ops!(objects_named(op))
}

//! The workload that is generated.
ghost use Rattle.std.specs.Prelude.{◌≡◌, ◌≤◌, ◌<◌, ◌++◌, ◌∷◌, [], ℤ, List, pos, Some, None, OnOk, IfOk};
ghost use Rattle.workload_file.specs.Formed.{WellFormed};
ghost use Rattle.generated_workload.specs.Generated.{binding_at, all_cores, first_statements, start_deed, task_deed, generated_task_name, task_statement, generated_tasks, last_statement, generated_settings, generated};

use mtapi_values::{Args, Kind, Mask, NodeAttr, Timeout};
use number_text::push_number;
use std::alloc::{AllocError, Global};
use workload_file::{Deed, Name, Part, PartList, Statement, StatementList, Workload};

fn binding(line: u64, name: Name, deed: Deed) -> Statement
    ensures { result ≡ binding_at line name deed }
{
    Statement {
        line,
        name: Some(name),
        deed,
    }
}

/// The name of a task: t and its number. The list that the text is put into keeps its memory from task to task.
#[tactic(auto, using(crate::proofs::Formed::is_task_name))]
fn task_name(alloc: Global, text: &mut Vec<u8>, i: u32) -> Result<Name, AllocError>
    requires { i < 19000 }
    ensures { IfOk result (λ name. name ≡ generated_task_name i) }
{
    text.clear();
    text.push(b't')?;
    push_number(alloc, text, u64::from(i))?;
    Ok(Name::known(text))
}

/// A task of this job in the group.
fn start(job: u32, args: Args) -> Deed
    ensures { result ≡ start_deed job args }
{
    Deed::Start {
        job,
        args,
        priority: 0,
        cores: Mask::init(true),
        detached: false,
        group: Some(2),
    }
}

/// A list of one number.
fn one(first: i64) -> Args
    ensures { result ≡ first ∷ [] }
{
    let mut args = Args::new();
    args.push(first);
    args
}

/// A list of two numbers.
fn two(first: i64, second: i64) -> Args
    ensures { result ≡ first ∷ second ∷ [] }
{
    let mut args = one(first);
    args.push(second);
    args
}

/// What a task does.
fn task_deed(i: u32) -> Deed
    ensures { result ≡ task_deed i }
{
    if i % 2 == 0 {
        start(1, two(i64::from(i), 7))
    } else {
        start(2, one(i64::from(i % 64)))
    }
}

/// A task, by its number from 0.
fn task_statement(alloc: Global, text: &mut Vec<u8>, i: u32) -> Result<Statement, AllocError>
    requires { i < 19000 }
    ensures { IfOk result (λ s. s ≡ task_statement i) }
{
    let name = task_name(alloc, text, i)?;
    Ok(binding(u64::from(i) + 5, name, task_deed(i)))
}

/// The two actions and the group.
#[tactic(auto, unfolding(workload_file::specs::Values::is_name))]
fn first_statements(alloc: Global) -> Result<StatementList, AllocError>
    ensures { IfOk result (λ list. list ≡ first_statements) }
{
    let mut list = StatementList::new(alloc);
    let add = Deed::Action {
        job: 1,
        kind: Kind::Add,
        cores: Mask::init(true),
    };
    list.push(binding(2, Name::known(b"a"), add))?;
    let triangle = Deed::Action {
        job: 2,
        kind: Kind::Triangle,
        cores: Mask::init(true),
    };
    list.push(binding(3, Name::known(b"b"), triangle))?;
    list.push(binding(4, Name::known(b"g"), Deed::Group))?;
    Ok(list)
}

/// Appends n tasks.
#[tactic(auto, using(crate::proofs::Formed::one_more))]
fn push_tasks(alloc: Global, list: &mut StatementList, n: u32) -> Result<(), AllocError>
    requires { n ≤ 19000 }
    ensures { OnOk result (list.new ≡ list.old ++ generated_tasks n) }
{
    let mut text = Vec::new(alloc);
    let mut i = 0u32;
    while i < n {
        list.push(task_statement(alloc, &mut text, i)?)?;
        i += 1;
    }
    Ok(())
}

/// The statements of main's part: the actions, the group, n tasks, and the wait for all of them.
fn main_statements(alloc: Global, n: u32) -> Result<StatementList, AllocError>
    requires { n ≤ 19000 }
    ensures { IfOk result (λ list. list ≡ first_statements ++ (generated_tasks n ++ last_statement n ∷ [])) }
{
    let mut list = first_statements(alloc)?;
    push_tasks(alloc, &mut list, n)?;
    list.push(Statement {
        line: u64::from(n) + 5,
        name: None,
        deed: Deed::WaitAll {
            place: 2,
            timeout: Timeout::Infinite,
        },
    })?;
    Ok(list)
}

/// Room for n tasks, and so many workers.
fn generated_settings(n: u32, workers: u32) -> NodeAttr
    requires tasks { (1 ≤ n) × (n ≤ 19000) }
    requires workers { (1 ≤ workers) × (workers ≤ 16) }
    ensures { result ≡ generated_settings n workers }
{
    let mut settings = NodeAttr::new();
    let _ = settings.set(NodeAttr::WORKERS, u64::from(workers));
    let _ = settings.set(NodeAttr::TASKS, u64::from(n));
    settings
}

/// The workload of n tasks with so many workers.
#[tactic(auto, unfolding(crate::specs::Generated::generated, workload_file::specs::Values::is_name))]
fn made(alloc: Global, n: u32, workers: u32) -> Result<Workload, AllocError>
    requires tasks { (1 ≤ n) × (n ≤ 19000) }
    requires workers { (1 ≤ workers) × (workers ≤ 16) }
    ensures { IfOk result (λ load. load ≡ generated n workers) }
{
    let statements = main_statements(alloc, n)?;
    let mut parts = PartList::new(alloc);
    parts.push(Part {
        line: 0,
        name: Name::known(b"main"),
        statements,
    })?;
    Ok(Workload {
        node_line: 1,
        settings: generated_settings(n, workers),
        parts,
    })
}

/// The workload of n tasks, 1 to 19,000, with so many workers, 1 to 16: half of the tasks add two numbers, the others give triangle
/// numbers, and main waits for the group of all of them. It refuses for want of memory alone.
pub fn generated(alloc: Global, n: u32, workers: u32) -> Result<Workload, AllocError>
    requires tasks { (1 ≤ n) × (n ≤ 19000) }
    requires workers { (1 ≤ workers) × (workers ≤ 16) }
    ensures value { IfOk result (λ load. load ≡ generated n workers) }
    ensures formed { IfOk result (λ load. WellFormed load) }
{
    made(alloc, n, workers)
}

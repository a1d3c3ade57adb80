//! Which tasks a worker may take. Nothing here is promised.
use crate::case::{Case, entries_before};
use mtapi_machine::{Entry, Op, Reply};
use mtapi_renaming::same_reply;
use mtapi_values::{ActionHandle, Args, TaskHandle};
use run_report::{LiveAction, Standings, follow_entry, no_standings};
use std::alloc::AllocError;

/// How many replies are proposed at most: the judge goes through the journal for each.
const MOST: usize = 12;

/// What decides which tasks may begin, after the entries before that of the case.
pub(crate) fn standings_before(case: &Case) -> Result<Standings, AllocError> {
    let mut table = no_standings(case.alloc, 0)?;
    let workers = case.journal.settings.workers();
    for short in entries_before(case.journal, case.number) {
        follow_entry(case.alloc, &mut table, workers, &short.full())?;
    }
    Ok(table)
}

// The arguments, the job and the handle of a task that an entry made.
fn started(entry: &Entry) -> Option<(u64, &Args)> {
    let Reply::Handle(handle) = &entry.reply else {
        return None;
    };
    match &entry.op {
        Op::TaskStart { args, .. } => Some((*handle, args)),
        Op::TaskEnqueue { args, .. } => Some((*handle, args)),
        _ => None,
    }
}

// The priority of the queue of this handle.
fn queue_priority(case: &Case, queue: u64) -> Option<u32> {
    for short in entries_before(case.journal, case.number) {
        let entry = short.full();
        if let Op::QueueCreate { priority, .. } = &entry.op
            && let Reply::Handle(handle) = &entry.reply
            && *handle == queue
        {
            return Some(*priority);
        }
    }
    None
}

// The priority of the task that an entry made, if it is the one of this handle.
fn priority_in(case: &Case, entry: &Entry, task: u64) -> Option<u32> {
    let (handle, _) = started(entry)?;
    if handle != task {
        return None;
    }
    match &entry.op {
        Op::TaskStart { priority, .. } => Some(*priority),
        Op::TaskEnqueue { queue, .. } => queue_priority(case, queue.0),
        _ => None,
    }
}

/// The priority of the task of this handle.
pub(crate) fn priority_of(case: &Case, task: u64) -> Option<u32> {
    for short in entries_before(case.journal, case.number) {
        if let Some(priority) = priority_in(case, &short.full(), task) {
            return Some(priority);
        }
    }
    None
}

fn pick_by(task: u64, action: &LiveAction, args: &Args) -> Reply {
    Reply::Picked {
        task: TaskHandle(task),
        action: ActionHandle(action.handle),
        kind: action.kind,
        args: args.again(),
    }
}

fn add_new(replies: &mut Vec<Reply>, reply: Reply) -> Result<(), AllocError> {
    if replies.len() < MOST && !replies.iter().any(|found| same_reply(found, &reply)) {
        replies.push(reply)?;
    }
    Ok(())
}

// The picks of a task by each action of its job.
fn add_picks(
    table: &Standings,
    job: u32,
    task: u64,
    args: &Args,
    replies: &mut Vec<Reply>,
) -> Result<(), AllocError> {
    for action in table.actions.iter() {
        if action.job == job && action.enabled {
            add_new(replies, pick_by(task, action, args))?;
        }
    }
    Ok(())
}

// Whether a start asks for another priority than this one.
fn has_other_priority(op: &Op, least: Option<u32>) -> bool {
    match (op, least) {
        (Op::TaskStart { priority, .. }, Some(least)) => *priority != least,
        _ => false,
    }
}

fn add_task(
    table: &Standings,
    entry: &Entry,
    least: Option<u32>,
    replies: &mut Vec<Reply>,
) -> Result<(), AllocError> {
    let Some((task, args)) = started(entry) else {
        return Ok(());
    };
    if has_other_priority(&entry.op, least) {
        return Ok(());
    }
    match table.unstarted.get(&task) {
        Some(unstarted) => add_picks(table, unstarted.job, task, args, replies),
        None => Ok(()),
    }
}

// The priority of the task that the first of these replies picks.
fn least_priority(case: &Case, replies: &[Reply]) -> Option<u32> {
    match replies.first() {
        Some(Reply::Picked { task, .. }) => priority_of(case, task.0),
        _ => None,
    }
}

/// Adds picks of tasks that haven't begun, by any action of their jobs.
pub(crate) fn add_other_picks(case: &Case, replies: &mut Vec<Reply>) -> Result<(), AllocError> {
    let table = standings_before(case)?;
    let least = least_priority(case, replies);
    for short in entries_before(case.journal, case.number) {
        add_task(&table, &short.full(), least, replies)?;
    }
    Ok(())
}

use mtapi_values::{Args, Kind, Mask, MtapiStatus, TaskEnd, TaskHandle};
use std::test::Fail;
use task_core::*;

// A watch of two looks.
fn watch() -> NewTask {
    let mut args = Args::new();
    let _ = args.push(2);
    NewTask {
        job: 1,
        args,
        priority: 0,
        cores: Mask(1),
        detached: false,
        group: None,
        queue: None,
    }
}

fn begin(tasks: &mut Tasks, t: TaskHandle) {
    if tasks.state(t) == Some(TaskState::Scheduled) {
        let _ = tasks.run_on(t, 0, Kind::Watch);
    }
}

fn request(tasks: &mut Tasks, t: TaskHandle) {
    if let Some(TaskState::Running { .. }) = tasks.state(t) {
        tasks.request(t);
    }
}

fn end(tasks: &mut Tasks, t: TaskHandle, end: TaskEnd) {
    match tasks.state(t) {
        None | Some(TaskState::Ended) => {}
        _ => tasks.end_with(t, end),
    }
}

fn is_status(look: TaskLook, status: MtapiStatus) -> bool {
    match look {
        TaskLook::Refused(found) => found == status,
        _ => false,
    }
}

#[test]
fn a_watch_that_is_cancelled(rt: HostRuntime) -> Result<(), Fail> {
    let mut tasks = Tasks::new(rt.alloc(), 1, 5)?;
    let h = tasks.add(watch()).ok().ok_or("full")?;
    assert!(rt; tasks.add(watch()).err() == Some(MtapiStatus::ErrTaskLimit));
    assert!(rt; tasks.asked(h, 0) == Err(MtapiStatus::ErrTaskInvalid));
    begin(&mut tasks, h);
    request(&mut tasks, h);
    assert!(rt; tasks.asked(h, 1) == Err(MtapiStatus::ErrTaskInvalid));
    assert!(rt; tasks.asked(h, 0) == Ok(true));
    assert!(rt; tasks.asked(h, 0) == Err(MtapiStatus::ErrParameter));
    assert!(rt; matches!(tasks.watch_end(h, 0), Ok(TaskEnd::Cancelled)));
    end(&mut tasks, h, TaskEnd::Cancelled);
    assert!(rt; matches!(tasks.look(h, 1, false), TaskLook::Ended(TaskEnd::Cancelled)));
    assert!(rt; is_status(tasks.look(h, 1, false), MtapiStatus::ErrTaskInvalid));
    Ok(())
}

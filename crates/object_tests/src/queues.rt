//! Worked puts, and a queue that is disabled.

use handle_pool::SPAN;
use mtapi_values::{MtapiStatus, QueueAttr, TaskHandle};
use queue_core::*;
use std::test::Fail;

const FIRST: TaskHandle = TaskHandle(SPAN);

#[test]
fn worked_rows(_rt: HostRuntime) {
    worked_puts();
}

#[test]
fn a_disabled_queue_that_does_not_retain(rt: HostRuntime) -> Result<(), Fail> {
    let mut queues = Queues::new(rt.alloc(), 1, 5, 3)?;
    let Ok(q) = queues.create(1, 7, QueueAttr::new()) else {
        return Err("no queue")?;
    };
    let Ok(()) = queues.disable(q) else {
        return Err("not disabled")?;
    };
    assert!(rt; queues.put(q, FIRST) == Err(MtapiStatus::ErrQueueDisabled));
    Ok(())
}

//! What a worker is told of its task.

/// A task that a worker took, the action by which it runs, its kind, and how many numbers it has. All 0 where it took none.
#[repr(C)]
#[derive(Drop)]
pub struct PickedTask {
    pub task: u64,
    pub action: u64,
    pub count: usize,
    pub kind: u32,
}

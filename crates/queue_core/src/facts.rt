//! What callers see of a queue.

/// A queue at a glance.
#[derive(Clone, Copy, Debug, Drop, PartialEq, Eq)]
pub struct QueueFacts {
    /// The job of its tasks.
    pub job: u32,
    /// The priority of its tasks; 0 is the highest.
    pub priority: u32,
    /// Whether its tasks may begin.
    pub enabled: bool,
    /// Whether its tasks run one after another.
    pub ordered: bool,
    /// Whether it takes and keeps tasks while it is disabled.
    pub retain: bool,
    /// How many unended tasks it holds at most.
    pub limit: u32,
    /// How many unended tasks it holds.
    pub unended: u32,
}

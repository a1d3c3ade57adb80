//! What no op of a node changes, and the phases that a node goes through.

use mtapi_values::{Layout, NodeAttr};

/// What no op of a node changes.
#[derive(Clone, Copy, Debug, Drop, PartialEq, Eq)]
pub struct Terms {
    /// How a handle is made of a generation and a slot.
    pub layout: Layout,
    /// The settings of the node.
    pub settings: NodeAttr,
    /// The number of callers, 1 to 9, main included.
    pub callers: u32,
}

/// The phases of a node, in the order in which it goes through them.
#[derive(Clone, Copy, Debug, Drop, PartialEq, Eq)]
pub enum Phase {
    /// Not initialized yet.
    New,
    /// Initialized: every op is executed.
    Open,
    /// Closed to what makes new objects, until every worker has stopped.
    Closing,
    /// Finalized.
    Closed,
}

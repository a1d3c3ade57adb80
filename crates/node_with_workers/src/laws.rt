//! What the record of a node that ended comes to. Each function does nothing: its contract is the law.

ghost use Rattle.node_with_workers.specs.Runs.{MainEndsOnce};

/// Main's entries are those of its client, one that begins the end, and one that ends the node.
pub fn law_main_ends()
    ensures { MainEndsOnce }
{}

//! What is kept of a history of a node: its entries, and the terms of the node. Nothing here needs the node.
#![tactic(auto)]

pub mod entries;
pub mod few;
pub mod short_ops;
pub mod short_replies;
pub mod shorts;

pub use entries::{EntryList, Journal, ShortList};
pub use few::{FewArgs, FewFinished};
pub use short_ops::ShortOp;
pub use short_replies::{ShortReply, ShortTaskEnd};
pub use shorts::ShortEntry;

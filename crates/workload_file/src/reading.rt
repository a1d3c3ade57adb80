//! What the lines of a text say.
use crate::index::NameIndex;
use crate::name::Name;
use crate::values::OptionValue;
use crate::workload::{Part, PartList, Statement};
use mtapi_values::NodeAttr;

/// What the lines so far say: the parts before this one, this one, and how many statements there were.
#[derive(Drop)]
pub struct Reading {
    pub node_line: u64,
    pub settings: NodeAttr,
    pub before: PartList,
    pub current: Part,
    pub count: u64,
}

/// What a line adds.
#[derive(Drop)]
pub enum LineEffect {
    Node(NodeAttr),
    Caller(Name),
    Statement(Statement),
}

/// What the lines so far say, and the places of this part's names.
#[derive(Drop)]
pub struct Reader {
    pub said: Reading,
    pub names: NameIndex,
}

/// Lists that reading a line fills anew, kept for their memory: its words, the texts of the options of its statement, and what
/// they give.
#[derive(Drop)]
pub struct Lists<'a> {
    pub words: Vec<&'a [u8]>,
    pub given: Vec<Option<&'a [u8]>>,
    pub values: Vec<OptionValue>,
}

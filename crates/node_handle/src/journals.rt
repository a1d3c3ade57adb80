//! The text of a node's journal, piece by piece.

ghost use Rattle.std.specs.Prelude.{◌≡◌, Some, List, ℕ, length};
ghost use Rattle.node_handle.specs.declared.counted.CountedNode.{CountedNode};
ghost use Rattle.node_handle.specs.declared.held.Held.TheVariants as held;
ghost use Rattle.node_handle.specs.Handles.{IsLive, IsLiveNode};
ghost use Rattle.node_handle.specs.Texts.{TextGiven, HoldsText, EndsWith, HasEndedAs, piece, written_over};

use crate::counted::CountedNode;
use crate::handle::NodeHandle;
use crate::held::Held;
use journal_text::write_journal;
use std::alloc::{AllocError, Global};
use std::mem;

/// How the calls of a node ended.
#[derive(Clone, Copy, Debug, Drop, PartialEq, Eq)]
pub enum JournalEnd {
    /// With a text of so many bytes.
    Text(usize),
    /// The node keeps no journal.
    NoJournal,
    /// Memory was short, now or at an earlier call.
    Memory,
}

// The text of the node's journal, where it keeps one.
fn text_of(alloc: Global, node: CountedNode) -> Result<Option<Vec<u8>>, AllocError>
    ensures { TextGiven node result }
{
    match node.into_journal() {
        Ok(Some(journal)) => match write_journal(alloc, &journal) {
            Ok(text) => Ok(Some(text)),
            Err(error) => Err(error),
        },
        Ok(None) => Ok(None),
        Err(error) => Err(error),
    }
}

// The text of the node's journal, or an empty one, and how its calls ended.
fn ended(alloc: Global, node: CountedNode) -> (Vec<u8>, JournalEnd)
    ensures { EndsWith node result.0 result.1 }
{
    match text_of(alloc, node) {
        Ok(Some(text)) => {
            let long = text.len();
            (text, JournalEnd::Text(long))
        }
        Ok(None) => (Vec::new(alloc), JournalEnd::NoJournal),
        Err(_) => (Vec::new(alloc), JournalEnd::Memory),
    }
}

// The node that was held. An empty text is held from then on.
fn take_node(place: &mut Held, alloc: Global) -> CountedNode
    requires { IsLiveNode place.old }
    ensures { place.old ≡ held.Node result }
{
    match mem::replace(place, Held::Text(Vec::new(alloc))) {
        Held::Node(node) => node,
        Held::Text(_) => unreachable!(),
    }
}

fn put(place: &mut Held, held: Held)
    ensures { place.new ≡ held }
{
    *place = held;
}

/// Ends the calls of a node, and makes the text of its journal.
pub fn end_in_text(node: &mut NodeHandle, alloc: Global) -> JournalEnd
    requires live { IsLive node.old }
    ensures { (n : CountedNode) → node.old.held ≡ Some (held.Node n) → HasEndedAs n result node.new }
{
    let mut boxed = node.take(alloc);
    let (text, end) = ended(alloc, take_node(&mut *boxed, alloc));
    put(&mut *boxed, Held::Text(text));
    *node = NodeHandle::of(boxed);
    end
}

// Writes the bytes from this place on over the head of what is there, and says how many.
fn write_piece(bytes: &[u8], from: usize, to: &mut [u8]) -> usize
    ensures written { to.new ≡ written_over (piece bytes.now from (length to.old)) to.old }
    ensures count { result ≡ length (piece bytes.now from (length to.old)) }
{
    if from >= bytes.len() {
        return 0;
    }
    let left = &bytes[from..];
    let count = left.len().min(to.len());
    to[..count].copy_from_slice(&left[..count]);
    count
}

/// Writes the bytes of a text from this place on over the head of what is there, and says how many: as many as there are and fit.
pub fn piece_of(node: &mut NodeHandle, alloc: Global, from: usize, to: &mut [u8]) -> usize
    requires text { (bytes : List ℕ) × HoldsText node.old bytes }
    ensures kept { node.new.held ≡ node.old.held }
    ensures written { (bytes : List ℕ) → HoldsText node.old bytes → to.new ≡ written_over (piece bytes from (length to.old)) to.old }
    ensures count { (bytes : List ℕ) → HoldsText node.old bytes → result ≡ length (piece bytes from (length to.old)) }
{
    let boxed = node.take(alloc);
    let count = match &*boxed {
        Held::Text(text) => write_piece(text, from, to),
        Held::Node(_) => unreachable!(),
    };
    *node = NodeHandle::of(boxed);
    count
}

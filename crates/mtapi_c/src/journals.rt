//! The text of a node's journal.

ghost use Rattle.std.specs.Prelude.{◌≡◌, ℕ, List, length};
ghost use Rattle.node_handle.specs.Handles.{IsLive};
ghost use Rattle.node_handle.specs.Texts.{HoldsText, piece, written_over};
ghost use Rattle.mtapi_c.specs.Answers.{EndsInText, end_number, length_in};

use node_handle::{JournalEnd, NodeHandle, end_in_text, piece_of};
use std::alloc::Global;

// Memory was short.
const MEMORY: u32 = 99;
// The node keeps no journal.
const NO_JOURNAL: u32 = 103;

fn end_number(end: JournalEnd) -> u32
    ensures { result ≡ end_number end }
{
    match end {
        JournalEnd::Text(_) => 0,
        JournalEnd::NoJournal => NO_JOURNAL,
        JournalEnd::Memory => MEMORY,
    }
}

fn length_in(end: JournalEnd) -> usize
    ensures { result ≡ length_in end }
{
    match end {
        JournalEnd::Text(length) => length,
        _ => 0,
    }
}

/// Ends the calls of a node and makes the text of its journal, of so many bytes.
#[unsafe(no_mangle)]
pub extern "C" fn mtapi_c_journal(alloc: Global, node: &mut NodeHandle, length: &mut usize) -> u32
    requires live { IsLive node.old }
    ensures ended { EndsInText node.old result length.new node.new }
{
    let end = end_in_text(node, alloc);
    *length = length_in(end);
    end_number(end)
}

/// Writes the bytes of the text from this place on to the head of memory, and says how many.
#[unsafe(no_mangle)]
pub extern "C" fn mtapi_c_journal_piece(
    alloc: Global,
    node: &mut NodeHandle,
    from: usize,
    bytes: &mut [u8],
) -> usize
    requires text { (text : List ℕ) × HoldsText node.old text }
    ensures kept { node.new.held ≡ node.old.held }
    ensures written { (text : List ℕ) → HoldsText node.old text → bytes.new ≡ written_over (piece text from (length bytes.old)) bytes.old }
    ensures count { (text : List ℕ) → HoldsText node.old text → result ≡ length (piece text from (length bytes.old)) }
{
    piece_of(node, alloc, from, bytes)
}

//! Laws of the journal text.
ghost use Rattle.std.specs.Prelude.{◌≡◌, List, ℕ, Ok, Some};
ghost use Rattle.mtapi_machine.specs.{Legal.IsHonest, Legal.NodeEntry, declared.ops.Op.Op, declared.replies.Reply.Reply};
ghost use Rattle.node_journals.specs.declared.entries.Journal.{Journal};
ghost use Rattle.journal_text.specs.{Fits.HeadFits, Fits.EntryFits, Fits.JournalFits, Journals.journal_text, Journals.journal_of};
ghost use Rattle.journal_text.specs.{Ops.op_spelled, Ops.op_of, Replies.reply_spelled, Replies.reply_of, Lines.entry_text, Lines.entry_of_line};
ghost use Rattle.journal_text.specs.declared.heads.Head.{Head};
ghost use Rattle.journal_text.specs.Worked.{WorkedJournals};

/// What is read is written as it was read: each journal has one text, and no other bytes are read as it.
#[tactic(auto, using(crate::proofs::Reading::text_spelled))]
pub fn law_read()
    ensures { (bytes : List ℕ) (j : Journal) → journal_of bytes ≡ Ok j → journal_text j ≡ bytes }
{}

/// What can be written is read as the same, and each journal that fits its types can be written.
#[tactic(auto, using(crate::proofs::JournalsAgain::text_again))]
pub fn law_written()
    ensures { (j : Journal) → JournalFits j → journal_of (journal_text j) ≡ Ok j }
{}

/// Each line that can be written is read as its entry, and the number beside it.
#[tactic(auto, using(crate::proofs::LinesAgain::entry_again))]
pub fn law_lines()
    ensures { (head : Head) (e : NodeEntry) (n : ℕ) → HeadFits head → EntryFits head e n
        → entry_of_line head (entry_text head e n) ≡ Some (e, n) }
{}

/// The word and the values by which an op or a reply is written give the same one back.
#[tactic(auto, using(crate::proofs::OpsAgain::op_again, crate::proofs::OpsAgain::reply_again))]
pub fn law_spelled()
    ensures op { (o : Op) → IsHonest o → op_of (op_spelled o).0 (op_spelled o).1 ≡ Some o }
    ensures reply { (r : Reply) → reply_of (reply_spelled r).0 (reply_spelled r).1 ≡ Some r }
{}

/// The lines of each op and each reply in both texts, and whole journals, by examples.
pub fn worked_journals()
    ensures { WorkedJournals }
{}

//! Laws of the workload text.
ghost use Rattle.std.specs.Prelude.{◌≡◌, ◌≤◌, ◌++◌, ◌∷◌, [], List, ℕ, Ok, Err, length, replicate};
ghost use Rattle.workload_file.specs.declared.workload.Workload.{Workload};
ghost use Rattle.workload_file.specs.Reading.{workload_of, line_gives, line_adds, refused_for, IsFirstFault};
ghost use Rattle.workload_file.specs.Alike.{IsPlain, IsSwapped, IsWrittenOut, AddsAlike, DifferAt, AddsNothing, IsInserted, GivesStill};
ghost use Rattle.workload_file.specs.declared.reading.Reading.{Reading};
ghost use Rattle.workload_file.specs.Faulty.{first_met};
ghost use Rattle.workload_file.specs.declared.faults.Fault.{Fault};
ghost use Rattle.workload_file.specs.Formed.{WellFormed};
ghost use Rattle.workload_file.specs.Written.{canonical};
ghost use Rattle.workload_file.specs.Worked.{WorkedLines};

use crate::workload::Workload;

fn crosses_threads<T: Send + Sync>() {}

/// A workload may be sent to another thread, and may be shared with one.
pub fn law_shared() {
    crosses_threads::<Workload>();
}

/// What a text gives is a well-formed workload.
pub fn law_formed()
    ensures { (bytes : List ℕ) (load : Workload) → workload_of bytes ≡ Ok load → WellFormed load }
{}

/// The canonical text of what a text gives is no longer than the text, and gives the same.
#[tactic(auto, using(crate::proofs::Again::canonical_again, crate::proofs::Again::canonical_short))]
pub fn law_again()
    ensures same { (bytes : List ℕ) (load : Workload) → workload_of bytes ≡ Ok load
        → workload_of (canonical load) ≡ Ok load }
    ensures short { (bytes : List ℕ) (load : Workload) → workload_of bytes ≡ Ok load
        → length (canonical load) ≤ length bytes }
{}

/// A line is refused for the first of the causes that it meets, and for none exactly where it meets none. A text is refused exactly where it has such a line, at the first one.
#[tactic(auto, using(crate::proofs::Facts::line_refused, crate::proofs::Facts::text_refused))]
pub fn law_causes()
    ensures text { (bytes : List ℕ) (fault : Fault) → workload_of bytes ≡ Err fault → IsFirstFault bytes fault }
    ensures refused { (bytes : List ℕ) (fault : Fault) → IsFirstFault bytes fault → workload_of bytes ≡ Err fault }
    ensures line { (r : Reading) (line : ℕ) (text : List ℕ) → refused_for (line_gives r line text) ≡ first_met r text }
{}

/// Comments, spaces, the order of options and written-out defaults leave what a line adds, and so the workload.
pub fn law_lexing()
    ensures blank { (r : Reading) (line n : ℕ) → n ≤ 512 → line_adds r line (replicate n 32) ≡ Ok r }
    ensures comment { (r : Reading) (line n : ℕ) (text : List ℕ) → IsPlain (replicate n 32 ++ 35 ∷ text)
        → line_adds r line (replicate n 32 ++ 35 ∷ text) ≡ Ok r }
    ensures between { (r : Reading) (line : ℕ) (a b : List ℕ) → length (a ++ 32 ∷ 32 ∷ b) ≤ 512
        → line_adds r line (a ++ 32 ∷ 32 ∷ b) ≡ line_adds r line (a ++ 32 ∷ b) }
    ensures first { (r : Reading) (line : ℕ) (a : List ℕ) → length (32 ∷ a) ≤ 512
        → line_adds r line (32 ∷ a) ≡ line_adds r line a }
    ensures last { (r : Reading) (line : ℕ) (a : List ℕ) → length (a ++ 32 ∷ []) ≤ 512
        → line_adds r line (a ++ 32 ∷ []) ≡ line_adds r line a }
    ensures order { (text other : List ℕ) → IsSwapped text other → IsPlain other → AddsAlike text other }
    ensures default { (text other : List ℕ) → IsWrittenOut text other → IsPlain other → AddsAlike text other }
    ensures whole { (bytes others text other : List ℕ) (load : Workload) → DifferAt bytes others text other
        → AddsAlike text other → workload_of bytes ≡ Ok load → workload_of others ≡ Ok load }
{}

/// A further line that adds nothing, as a comment, leaves the workload but for the numbers of the lines behind it.
pub fn law_inserted()
    ensures { (bytes others text : List ℕ) (load : Workload) → IsInserted bytes others text → AddsNothing text
        → workload_of bytes ≡ Ok load → GivesStill others load }
{}

/// What lines say and why lines are refused, by examples of each kind of statement and of each cause.
pub fn worked_lines()
    ensures { WorkedLines }
{}

//! Laws of the generated workload, of the input of `check` and of what it says of a run. Each function does nothing: its contract is the
//! law.

ghost use Rattle.std.specs.Prelude.{◌≡◌, ◌≤◌, ℕ, List, Ok, length};
ghost use Rattle.workload_file.specs.declared.workload.Workload.{Workload};
ghost use Rattle.workload_file.specs.Reading.{workload_of};
ghost use Rattle.node_journals.specs.declared.entries.Journal.{Journal};
ghost use Rattle.workload_file.specs.Formed.{WellFormed};
ghost use Rattle.journal_text.specs.Fits.{IsWritable};
ghost use Rattle.journal_text.specs.Journals.{journal_of, journal_text};
ghost use Rattle.journal_check.specs.Verdicts.{IsVerdict};
ghost use Rattle.journal_check.specs.declared.verdicts.Verdict.TheVariants.{Yes};
ghost use Rattle.workload_runners.specs.RunJournals.{IsRun};
ghost use Rattle.journal_text.specs.Splits.{IsSplit, OfParts};
ghost use Rattle.mtapi_top.specs.Check.{IsInput};
ghost use Rattle.mtapi_top.specs.Settled.{GeneratedIsSettled};

/// The generated workload is settled, for each number of tasks and of workers that it may have.
pub fn law_generated_settled()
    ensures { GeneratedIsSettled }
{}

/// Each input of `check` has a part before the journal and a rest, and they are the only ones.
pub fn law_split()
    ensures some { (bytes : List ℕ) → OfParts bytes (λ front rest. Unit {0}) }
    ensures one { (bytes front rest front' rest' : List ℕ) → IsSplit bytes front rest → IsSplit bytes front' rest'
        → (front ≡ front') × (rest ≡ rest') }
{}

/// The verdict on the journal of a run, beside the workload of the run, is `yes`, and the journal is one that is read again as it was
/// written. So `check` says `yes` of an input that is that workload and a text that is read as this journal.
pub fn law_run_is_yes()
    ensures verdict { (load : Workload) (j : Journal) → IsRun load j → IsVerdict load j Yes }
    ensures writable { (load : Workload) (j : Journal) → WellFormed load → IsRun load j → IsWritable j }
    ensures input { (bytes front : List ℕ) (load : Workload) (j : Journal) → length bytes ≤ 67108864
        → IsSplit bytes front (journal_text j)
        → length front ≤ 1048576 → workload_of front ≡ Ok load → journal_of (journal_text j) ≡ Ok j → IsInput bytes load j }
{}

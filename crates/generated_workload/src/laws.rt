//! The law of the text of the generated workload.
ghost use Rattle.std.specs.Prelude.{◌≡◌, ◌≤◌, ℕ, Ok, length, codes};
ghost use Rattle.workload_file.specs.Reading.{workload_of};
ghost use Rattle.generated_workload.specs.Generated.{generated};
ghost use Rattle.generated_workload.specs.Text.{generated_text};

/// The text of the generated workload gives that workload, and is no longer than a workload may be: 1,048,576 bytes. The row is the
/// text of 3 tasks with 4 workers.
#[tactic(auto, using(crate::proofs::Read::text_read, crate::proofs::Read::text_row))]
pub fn law_generated_text()
    ensures read { (n w : ℕ) → 1 ≤ n → n ≤ 19000 → 1 ≤ w → w ≤ 16
        → workload_of (generated_text n w) ≡ Ok (generated n w) }
    ensures short { (n w : ℕ) → n ≤ 19000 → w ≤ 16 → length (generated_text n w) ≤ 1048576 }
    ensures row { generated_text 3 4 ≡ codes "node workers=4 max_tasks=3\naction a job=1 kind=add\naction b job=2 kind=triangle\ngroup g\nstart t0 job=1 args=0,7 group=g\nstart t1 job=2 args=1 group=g\nstart t2 job=1 args=2,7 group=g\nwait_all g timeout=inf" }
{}

//! What the words of the command ask for.
ghost use Rattle.std.specs.Prelude.{◌≡◌, ◌≤◌, IfSome};
ghost use Rattle.number_text.specs.Numbers.{number_within};
ghost use Rattle.mtapi_top.specs.Words.{texts, asked_by_words, run_asks, gen_asks, check_asks, generated_asks, InRange};

use number_text::number_within;

/// What the words of the command ask for.
#[derive(Drop)]
pub enum Asked {
    /// `run`: the report of the workload that is read.
    Report,
    /// `run --journal`: its report, and behind it the text of its run's journal.
    Journal,
    /// `gen N` and `gen N W`: the summary of a run of the generated workload.
    Generated {
        /// How many tasks it has: 1 to 19,000.
        tasks: u32,
        /// With how many workers it runs: 1 to 16, and 4 where the words don't say.
        workers: u32,
    },
    /// `check`: whether the journal that is read is that of a run of the workload that stands before it.
    Check,
}

/// What the words behind `run` ask for.
fn run_asks(words: &[&str]) -> Option<Asked>
    ensures value { result ≡ run_asks (texts words.now) }
    ensures range { IfSome result InRange }
{
    match words {
        [] => Some(Asked::Report),
        [option] if option.as_bytes() == b"--journal".as_slice() => Some(Asked::Journal),
        _ => None,
    }
}

/// The number from 1 to `high` that a word is.
fn number_to(high: u32, word: &str) -> Option<u32>
    ensures value { result ≡ number_within 1 high word.now }
    ensures within { IfSome result (λ n. (1 ≤ n) × (n ≤ high)) }
{
    match number_within(1, u64::from(high), word.as_bytes()) {
        Some(n) => Some(n as u32),
        None => None,
    }
}

/// The summary of so many tasks with so many workers, where both are numbers in their ranges.
fn generated_asks(tasks: Option<u32>, workers: Option<u32>) -> Option<Asked>
    requires tasks { IfSome tasks (λ n. (1 ≤ n) × (n ≤ 19000)) }
    requires workers { IfSome workers (λ w. (1 ≤ w) × (w ≤ 16)) }
    ensures value { result ≡ generated_asks tasks workers }
    ensures range { IfSome result InRange }
{
    match (tasks, workers) {
        (Some(tasks), Some(workers)) => Some(Asked::Generated { tasks, workers }),
        _ => None,
    }
}

/// What the words behind `gen` ask for.
fn gen_asks(words: &[&str]) -> Option<Asked>
    ensures value { result ≡ gen_asks (texts words.now) }
    ensures range { IfSome result InRange }
{
    match words {
        [tasks] => generated_asks(number_to(19_000, tasks), Some(4)),
        [tasks, workers] => generated_asks(number_to(19_000, tasks), number_to(16, workers)),
        _ => None,
    }
}

/// What the words behind `check` ask for.
fn check_asks(words: &[&str]) -> Option<Asked>
    ensures value { result ≡ check_asks (texts words.now) }
    ensures range { IfSome result InRange }
{
    match words {
        [] => Some(Asked::Check),
        _ => None,
    }
}

/// What the words ask for. None where they are no words of the command.
pub fn asked_of(words: &[&str]) -> Option<Asked>
    ensures value { result ≡ asked_by_words (texts words.now) }
    ensures range { IfSome result InRange }
{
    match words {
        [word, options @ ..] if word.as_bytes() == b"run".as_slice() => run_asks(options),
        [word, options @ ..] if word.as_bytes() == b"gen".as_slice() => gen_asks(options),
        [word, options @ ..] if word.as_bytes() == b"check".as_slice() => check_asks(options),
        _ => None,
    }
}

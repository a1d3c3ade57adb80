//! The programs that show a run, and `explain`, over sources and sinks that fail.

use crate::journals::EMPTY;
use byte_io::{MemSink, MemSource};
use journal_reading::{KeptRun, RunText, RunView, show, tell};
use std::alloc::{AllocError, Global};
use std::test::Fail;
use workload_mistakes::{explain, tell as tell_mistakes};

/// Shows each run by the same ten bytes.
struct Ten;

impl RunText for Ten {
    ghost shows = { λ _ _. Unit {0} };

    fn text_of(alloc: Global, _run: &KeptRun) -> Result<String, AllocError> {
        String::from_str(alloc, "ten bytes!")
    }
}

/// A source of this text, whose call of this number fails, and none for 0.
fn source(alloc: Global, text: &str, fails: u64) -> Result<MemSource, Fail> {
    let fails = vec![in alloc; fails]?;
    Ok(MemSource::new(text.as_bytes().to_vec(alloc)?, 64, fails))
}

/// A sink that takes four bytes a call, whose call of this number fails, and none for 0.
fn sink(alloc: Global, fails: u64) -> Result<MemSink, Fail> {
    let fails = vec![in alloc; fails]?;
    Ok(MemSink::new(alloc, 100, 4, fails)?)
}

/// Whether the input is shown so: the status, and what stands on the output and on the error output, each with a call that fails.
fn is_shown(
    alloc: Global,
    view: RunView,
    fails: [u64; 3],
    status: u8,
    texts: [&str; 2],
) -> Result<bool, Fail> {
    let [read, write, said] = fails;
    let mut src = source(alloc, EMPTY[1], read)?;
    let mut out = sink(alloc, write)?;
    let mut err = sink(alloc, said)?;
    let end = show::<_, _, Ten>(alloc, view, &mut src, &mut out);
    let same = tell(alloc, view, end, &mut err) == status;
    Ok(same && out.bytes() == texts[0].as_bytes() && err.bytes() == texts[1].as_bytes())
}

/// The same of the mistakes of a text.
fn is_explained(
    alloc: Global,
    text: &str,
    fails: [u64; 3],
    status: u8,
    texts: [&str; 2],
) -> Result<bool, Fail> {
    let [read, write, said] = fails;
    let mut src = source(alloc, text, read)?;
    let mut out = sink(alloc, write)?;
    let mut err = sink(alloc, said)?;
    let end = explain(alloc, &mut src, &mut out);
    let same = tell_mistakes(end, &mut err) == status;
    Ok(same && out.bytes() == texts[0].as_bytes() && err.bytes() == texts[1].as_bytes())
}

#[test]
fn faults_of_shown_runs(rt: HostRuntime) -> Result<(), Fail> {
    let alloc = rt.alloc();
    for view in [RunView::Picture, RunView::Trace] {
        for (fails, status, texts) in [
            ([0, 0, 0], 0, ["ten bytes!", ""]),
            ([1, 0, 0], 4, ["", "mtapi: read fault\n"]),
            ([3, 0, 0], 4, ["", "mtapi: read fault\n"]),
            ([0, 1, 0], 5, ["", "mtapi: write fault\n"]),
            ([0, 3, 0], 5, ["ten byte", "mtapi: write fault\n"]),
            // A fault of the error output changes no status.
            ([2, 0, 2], 4, ["", "mtap"]),
            ([0, 2, 1], 5, ["ten ", ""]),
        ] {
            assert!(rt; is_shown(alloc, view, fails, status, texts)?);
        }
    }
    Ok(())
}

#[test]
fn faults_of_explain(rt: HostRuntime) -> Result<(), Fail> {
    let alloc = rt.alloc();
    for (text, fails, status, texts) in [
        ("node workers=2\n", [0, 0, 0], 0, ["no mistake\n", ""]),
        (
            "node workers=2\n",
            [1, 0, 0],
            4,
            ["", "mtapi: read fault\n"],
        ),
        (
            "node workers=2\n",
            [0, 1, 0],
            5,
            ["", "mtapi: write fault\n"],
        ),
        (
            "node workers=2\n",
            [0, 2, 0],
            5,
            ["no m", "mtapi: write fault\n"],
        ),
        ("node workers=2\n", [2, 0, 3], 4, ["", "mtapi: r"]),
    ] {
        assert!(rt; is_explained(alloc, text, fails, status, texts)?);
    }
    Ok(())
}

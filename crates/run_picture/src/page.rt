//! The SVG of a run.

use crate::drawing::{push_box, push_marks, push_words};
use crate::follow::chart_of;
use crate::lanes::Lane;
use crate::lists::at;
use crate::marks::{Chart, Style, counted};
use crate::names::{names_of, seat_name};
use crate::seats::Seat;
use crate::sheet::{LEFT, Place, Row, WIDTH, bottom, middle, rows_of};
use crate::titles::{Scene, lane_name};
use journal_reading::KeptRun;
use mtapi_values::ObjectKind;
use std::alloc::{AllocError, Global};

/// The rest of the first tag, the title, and the colours, in light and dark.
const HEAD: &str = "font-family=\"system-ui,sans-serif\" font-size=\"12\">
<title>mtapi: a run by its journal</title>
<style>
svg{background:#fff}text{fill:#1f2328}.title{font-size:15px;font-weight:600}.note{fill:#59636e}.name,.on{font-size:10px;pointer-events:none}.name{fill:#fff}
.even{fill:#f3f5f8}.odd{fill:#fff}.guide{fill:#d1d9e0}.level{fill:#b6a0e8}.wait{fill:#ffe2a8}.on{fill:#5c4400}.access{fill:#fff}.call{fill:#8c959f}
.completed{fill:#1a7f37;stroke:#1a7f37}.cancelled{fill:#9a6700;stroke:#9a6700}.failed{fill:#cf222e;stroke:#cf222e}.open{fill:#6e7781}
.start{fill:#0969da}.enqueue{fill:#8250df}.give{fill:#0a8a8a}.cancel{fill:#bf3989}.told{fill:#7d4e00}.timeout{fill:#24292f}.refusal{fill:#e8590c}
rect{stroke-width:0}rect.ring{fill:#fff;stroke-width:3;rx:5px}
@media (prefers-color-scheme:dark){svg{background:#0d1117}text{fill:#e6edf3}.note{fill:#9198a1}.name{fill:#fff}.even{fill:#161b22}
.odd{fill:#0d1117}.guide{fill:#30363d}.level{fill:#4c3a78}.wait{fill:#5c4a1e}.on{fill:#ffe2a8}
.completed{fill:#238636;stroke:#238636}.cancelled{fill:#9e6a03;stroke:#9e6a03}.failed{fill:#da3633;stroke:#da3633}
.start{fill:#58a6ff}.enqueue{fill:#bc8cff}.give{fill:#39c5cf}.cancel{fill:#f778ba}.told{fill:#d4a72c}.timeout{fill:#e6edf3}.refusal{fill:#ff9248}
rect.ring{fill:#0d1117}}
";

/// What stands behind the colours of the seats.
const TITLE: &str = "</style>
<text class=\"title\" x=\"16\" y=\"26\">mtapi: a run by its journal</text>
";

/// What the colours mean.
const LEGEND: &str =
    "<rect class=\"completed\" x=\"0\" width=\"18\" height=\"14\"/><text x=\"24\" y=\"11\">completed</text>
<rect class=\"cancelled\" x=\"110\" width=\"18\" height=\"14\"/><text x=\"134\" y=\"11\">cancelled</text>
<rect class=\"failed\" x=\"216\" width=\"18\" height=\"14\"/><text x=\"240\" y=\"11\">failed</text>
<rect class=\"open\" x=\"300\" width=\"18\" height=\"14\"/><text x=\"324\" y=\"11\">no end</text>
<rect class=\"ring cancelled\" x=\"390\" y=\"2\" width=\"10\" height=\"10\"/>
<rect class=\"ring failed\" x=\"405\" y=\"2\" width=\"10\" height=\"10\"/><text x=\"422\" y=\"11\">ended before it began</text>
<rect class=\"wait\" x=\"580\" width=\"18\" height=\"14\"/><text x=\"604\" y=\"11\">waits</text>
<rect class=\"level\" x=\"664\" width=\"18\" height=\"14\"/><text x=\"688\" y=\"11\">tasks that wait in a queue</text>
<rect class=\"start\" x=\"0\" y=\"20\" width=\"3\" height=\"14\"/><text x=\"9\" y=\"31\">start</text>
<rect class=\"enqueue\" x=\"62\" y=\"20\" width=\"3\" height=\"14\"/><text x=\"71\" y=\"31\">enqueue</text>
<rect class=\"give\" x=\"148\" y=\"20\" width=\"3\" height=\"14\"/><text x=\"157\" y=\"31\">given by wait_any</text>
<rect class=\"cancel\" x=\"286\" y=\"20\" width=\"3\" height=\"14\"/><text x=\"295\" y=\"31\">cancel</text>
<rect class=\"told\" x=\"358\" y=\"20\" width=\"3\" height=\"14\"/><text x=\"367\" y=\"31\">a group's status</text>
<rect class=\"timeout\" x=\"486\" y=\"20\" width=\"3\" height=\"14\"/><text x=\"495\" y=\"31\">timeout</text>
<rect class=\"refusal\" x=\"564\" y=\"20\" width=\"3\" height=\"14\"/><text x=\"573\" y=\"31\">refused</text>
<rect class=\"call\" x=\"640\" y=\"29\" width=\"3\" height=\"5\"/><text x=\"649\" y=\"31\">other call</text>
<text class=\"note\" y=\"52\">Objects' rows show who holds them or is attached, in that seat's colour; reads and writes are white. Each mark has a title.</text>
";

/// A colour for each seat, none of them that of an end.
const SEAT_COLOURS: [&str; 25] = [
    "#1a519e", "#9e1a6d", "#1a9e8c", "#571a9e", "#738115", "#1a1a9e", "#1a839e", "#931a9e",
    "#3d77c7", "#c73d94", "#3dc7b4", "#7d3dc7", "#96a530", "#3d3dc7", "#3dabc7", "#bb3dc7",
    "#1a3e70", "#701a50", "#1a7064", "#421a70", "#525b15", "#1a1a70", "#1a5e70", "#681a70",
    "#8f7f9f",
];

/// The first tag, up to the height.
fn push_tag(alloc: Global, out: &mut String, height: u64) -> Result<(), AllocError> {
    out.push_str(&format!(in alloc;
        "<svg xmlns=\"http://www.w3.org/2000/svg\" viewBox=\"0 0 1394 {height}\" width=\"1394\" height=\"{height}\" "
    )?)
}

/// The colours of the seats.
fn push_colours(alloc: Global, out: &mut String, seats: usize) -> Result<(), AllocError> {
    for seat in 0..seats {
        if let Some(colour) = at(&SEAT_COLOURS, seat) {
            out.push_str(&format!(in alloc; ".o{seat}{{fill:{colour}}}")?)?;
        }
    }
    Ok(())
}

/// The number of all looks that were left out.
fn all_looks(seats: &[Seat]) -> u64 {
    let mut looks = 0u64;
    for seat in seats {
        looks = looks.saturating_add(seat.looks);
    }
    looks
}

/// How the tasks of these styles ended: all, and of them those that never began.
fn ended(alloc: Global, chart: &Chart, ran: Style, never: Style) -> Result<String, AllocError> {
    let counts = chart.counts.as_slice();
    let before = counted(counts, never);
    let all = counted(counts, ran).saturating_add(before);
    if before == 0 {
        format!(in alloc; "{all}")
    } else {
        format!(in alloc; "{all} ({before} before they began)")
    }
}

/// How many tasks have no end in the journal.
fn unended(counts: &[u64]) -> u64 {
    counted(counts, Style::Start)
        .saturating_add(counted(counts, Style::Enqueue))
        .saturating_sub(counted(counts, Style::Completed))
        .saturating_sub(counted(counts, Style::Cancelled))
        .saturating_sub(counted(counts, Style::Failed))
        .saturating_sub(counted(counts, Style::NeverCancelled))
        .saturating_sub(counted(counts, Style::NeverFailed))
}

/// What became of the tasks.
fn task_words(alloc: Global, chart: &Chart) -> Result<String, AllocError> {
    let counts = chart.counts.as_slice();
    let started = counted(counts, Style::Start);
    let enqueued = counted(counts, Style::Enqueue);
    let completed = counted(counts, Style::Completed);
    let cancelled = ended(alloc, chart, Style::Cancelled, Style::NeverCancelled)?;
    let failed = ended(alloc, chart, Style::Failed, Style::NeverFailed)?;
    let unended = unended(counts);
    format!(in alloc;
        "started {started}, enqueued {enqueued}: completed {completed}, cancelled {cancelled}, failed {failed}, no end {unended}"
    )
}

/// What was counted.
fn counted_words(alloc: Global, chart: &Chart) -> Result<String, AllocError> {
    let entries = chart.entries;
    let looks = all_looks(chart.seats.as_slice());
    let tasks = task_words(alloc, chart)?;
    let refused = counted(chart.counts.as_slice(), Style::Refusal);
    let late = counted(chart.counts.as_slice(), Style::Timeout);
    format!(in alloc;
        "{entries} entries, {looks} looks left out. Tasks {tasks}. Calls refused {refused}, timed out {late}"
    )
}

/// The ground and the name of a row.
fn push_ground(
    alloc: Global,
    out: &mut String,
    number: usize,
    row: Row,
    name: &str,
) -> Result<(), AllocError> {
    let class = if number % 2 == 0 { "even" } else { "odd" };
    let place = Place {
        x: LEFT,
        y: row.top,
        width: WIDTH,
        height: row.height,
    };
    push_box(alloc, out, class, place, "/>\n")?;
    let fitted = if name.len() > 22 {
        " textLength=\"148\" lengthAdjust=\"spacingAndGlyphs\""
    } else {
        ""
    };
    push_words(alloc, out, fitted, 18, row.top.saturating_add(17), name)
}

/// The colour of a seat.
fn push_colour(alloc: Global, out: &mut String, seat: u32, row: Row) -> Result<(), AllocError> {
    let class = format!(in alloc; "o{seat}")?;
    let place = Place {
        x: 4,
        y: row.top.saturating_add(8),
        width: 9,
        height: 9,
    };
    push_box(alloc, out, class.as_str(), place, "/>\n")
}

/// The grounds and names of the seats' rows.
fn push_seats(scene: &Scene, out: &mut String) -> Result<(), AllocError> {
    let mut seat = 0u32;
    for row in scene.rows {
        if (seat as usize) < scene.chart.seats.len() {
            let name = seat_name(scene.alloc, scene.names, seat)?;
            push_ground(scene.alloc, out, seat as usize, *row, name.as_str())?;
            push_colour(scene.alloc, out, seat, *row)?;
        }
        seat = seat.saturating_add(1);
    }
    Ok(())
}

/// The grounds and names of the objects' rows.
fn push_lanes(scene: &Scene, out: &mut String) -> Result<(), AllocError> {
    for (number, lane) in scene.chart.lanes.iter().enumerate() {
        let place = scene.chart.seats.len().saturating_add(number);
        if let Some(row) = scene.rows.get(place) {
            let name = lane_name(scene, lane.object)?;
            push_ground(scene.alloc, out, number, *row, name.as_str())?;
        }
    }
    Ok(())
}

/// The least of 1, 2, 5, 10, 20, 50 and so on that cuts all entries into at most 12 steps.
fn step_of(entries: u64) -> u64 {
    let mut step = 1u64;
    for _ in 0..19 {
        if entries / step.max(1) <= 12 {
            return step;
        }
        if entries / step.saturating_mul(2).max(1) <= 12 {
            return step.saturating_mul(2);
        }
        if entries / step.saturating_mul(5).max(1) <= 12 {
            return step.saturating_mul(5);
        }
        step = step.saturating_mul(10);
    }
    step
}

/// A number of the scale, and its line.
fn push_scale_line(scene: &Scene, out: &mut String, entry: u64) -> Result<(), AllocError> {
    let x = middle(scene.entries.len(), entry.saturating_sub(1) as usize);
    let guide = Place {
        x,
        y: 76,
        width: 1,
        height: bottom(scene.rows).saturating_sub(76),
    };
    push_box(scene.alloc, out, "guide", guide, "/>\n")?;
    let words = format!(in scene.alloc; "{entry}")?;
    let attributes = " class=\"note\" text-anchor=\"middle\"";
    push_words(scene.alloc, out, attributes, x, 72, words.as_str())
}

/// The scale above the rows, in equal round steps of entries.
fn push_scale(scene: &Scene, out: &mut String) -> Result<(), AllocError> {
    push_words(scene.alloc, out, " class=\"note\"", 18, 72, "entry")?;
    let step = step_of(scene.entries.len() as u64);
    let mut entry = step;
    for _ in 0..12 {
        if entry <= scene.entries.len() as u64 {
            push_scale_line(scene, out, entry)?;
        }
        entry = entry.saturating_add(step);
    }
    Ok(())
}

/// What a seat did, with its percentage.
fn push_seat_line(
    scene: &Scene,
    out: &mut String,
    who: u32,
    seat: &Seat,
    percent: u64,
    y: u64,
) -> Result<(), AllocError> {
    let name = seat_name(scene.alloc, scene.names, who)?;
    let runs = seat.runs;
    let entries = seat.entries;
    let looks = seat.looks;
    let words = format!(in scene.alloc;
        "{name}: tasks run {runs}, entries {entries}, looks left out {looks} ({percent} % of both)"
    )?;
    push_words(scene.alloc, out, "", 18, y, words.as_str())
}

/// How many hundredths a part is of all.
fn percent(part: u64, all: u64) -> u64 {
    (u128::from(part) * 100 / u128::from(all.max(1))).min(100) as u64
}

/// What each seat did. Each percentage is the difference of two that were cut, so that they add up to 100.
fn push_seat_lines(scene: &Scene, out: &mut String, top: u64) -> Result<(), AllocError> {
    let seats = scene.chart.seats.as_slice();
    let all = (scene.entries.len() as u64).saturating_add(all_looks(seats));
    let mut before = 0u64;
    let mut y = top;
    let mut who = 0u32;
    for seat in seats {
        let behind = before
            .saturating_add(seat.entries)
            .saturating_add(seat.looks);
        let share = percent(behind, all).saturating_sub(percent(before, all));
        push_seat_line(scene, out, who, seat, share, y)?;
        before = behind;
        who = who.saturating_add(1);
        y = y.saturating_add(18);
    }
    Ok(())
}

/// What was reached of an object.
fn push_lane_line(scene: &Scene, out: &mut String, lane: &Lane, y: u64) -> Result<(), AllocError> {
    let name = lane_name(scene, lane.object)?;
    let (id, most, longest) = (lane.id, lane.most, lane.longest);
    let words = match lane.object.kind {
        ObjectKind::Queue => format!(in scene.alloc; "{name} (id {id}): at most {most} waiting")?,
        _ => format!(in scene.alloc;
            "{name} (id {id}): at most {most} at a time, longest wait {longest} looks"
        )?,
    };
    push_words(scene.alloc, out, "", 520, y, words.as_str())
}

/// What was reached of each object.
fn push_lane_lines(scene: &Scene, out: &mut String, top: u64) -> Result<(), AllocError> {
    let mut y = top;
    for lane in scene.chart.lanes.as_slice() {
        push_lane_line(scene, out, lane, y)?;
        y = y.saturating_add(18);
    }
    Ok(())
}

/// What stands below the rows.
fn push_foot(scene: &Scene, out: &mut String) -> Result<(), AllocError> {
    let y = bottom(scene.rows).saturating_add(16);
    out.push_str(&format!(in scene.alloc; "<g transform=\"translate(18 {y})\">\n")?)?;
    out.push_str(LEGEND)?;
    out.push_str("</g>\n")?;
    push_seat_lines(scene, out, y.saturating_add(82))?;
    push_lane_lines(scene, out, y.saturating_add(82))?;
    out.push_str("</svg>\n")
}

/// What stands above the rows.
fn push_head(scene: &Scene, out: &mut String) -> Result<(), AllocError> {
    let chart = scene.chart;
    let lines = chart.seats.len().max(chart.lanes.len()) as u64;
    let height = bottom(scene.rows)
        .saturating_add(lines.saturating_mul(18))
        .saturating_add(104);
    push_tag(scene.alloc, out, height)?;
    out.push_str(HEAD)?;
    push_colours(scene.alloc, out, chart.seats.len())?;
    out.push_str(TITLE)?;
    let words = counted_words(scene.alloc, chart)?;
    push_words(scene.alloc, out, " class=\"note\"", 18, 48, words.as_str())
}

/// A chart on a sheet.
fn drawn(scene: &Scene) -> Result<String, AllocError> {
    let mut out = String::new(scene.alloc);
    push_head(scene, &mut out)?;
    push_seats(scene, &mut out)?;
    push_lanes(scene, &mut out)?;
    push_scale(scene, &mut out)?;
    push_marks(scene, &mut out)?;
    push_foot(scene, &mut out)?;
    Ok(out)
}

/// The SVG of a run. Names that somebody gave to objects stand in place of handles; where the workload is known, its names do too, as far
/// as the calls of each caller are those of its statements. It takes one pass over the entries, and one for each part of the workload.
///
/// # Errors
///
/// - `AllocError`: memory ran out.
pub fn svg_of(alloc: Global, run: &KeptRun) -> Result<String, AllocError> {
    let journal = &run.journal;
    let workers = journal.settings.workers().min(16);
    let seats = workers + journal.callers.min(9);
    let all = journal.entries.in_full(alloc)?;
    let entries = all.as_slice();
    let names = names_of(alloc, run.workload.as_ref(), &run.names, workers, entries)?;
    let chart = chart_of(alloc, workers, seats, entries, journal.entries.skipped())?;
    let rows = rows_of(alloc, &chart)?;
    drawn(&Scene {
        alloc,
        entries,
        names: &names,
        chart: &chart,
        rows: rows.as_slice(),
    })
}

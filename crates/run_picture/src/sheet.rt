//! Where things stand on the sheet that a picture is drawn on. All lengths are in pixels.

use crate::lanes::Lane;
use crate::lists::at;
use crate::marks::{Chart, Mark, Style, cell, cells};
use mtapi_values::ObjectKind;
use std::alloc::{AllocError, Global};

/// Where rows begin.
pub const LEFT: u64 = 170;

/// How wide rows are.
pub const WIDTH: u64 = 1_200;

/// A row.
#[derive(Clone, Copy, Drop)]
pub struct Row {
    pub top: u64,
    pub height: u64,
    /// How high one of its parts is.
    pub part: u64,
}

/// A rectangle.
#[derive(Clone, Copy, Drop)]
pub struct Place {
    pub x: u64,
    pub y: u64,
    pub width: u64,
    pub height: u64,
}

/// The row of an object, at this height: each seat that holds it at a time has a part.
fn lane_row(top: u64, lane: &Lane) -> Row {
    let parts = match lane.object.kind {
        ObjectKind::Queue => 1,
        _ => lane.most.max(1),
    };
    let part = (20 / parts.max(1)).max(11);
    Row {
        top,
        height: part.saturating_mul(parts).saturating_add(6),
        part,
    }
}

/// Where the rows stand.
pub fn rows_of(alloc: Global, chart: &Chart) -> Result<Vec<Row>, AllocError> {
    let mut rows = Vec::new(alloc);
    let mut top = 84u64;
    for _ in 0..chart.seats.len() {
        rows.push(Row {
            top,
            height: 26,
            part: 20,
        })?;
        top = top.saturating_add(26);
    }
    top = top.saturating_add(12);
    for lane in chart.lanes.as_slice() {
        let row = lane_row(top, lane);
        rows.push(row)?;
        top = top.saturating_add(row.height);
    }
    Ok(rows)
}

/// The bottom of the rows.
pub fn bottom(rows: &[Row]) -> u64 {
    match rows.last() {
        Some(row) => row.top.saturating_add(row.height),
        None => 84,
    }
}

/// Where a cell begins.
fn left_of(entries: usize, cell: u64) -> u64 {
    LEFT.saturating_add(cell.saturating_mul(WIDTH) / cells(entries).max(1))
}

/// The middle of an entry's cell.
pub fn middle(entries: usize, place: usize) -> u64 {
    let cell = cell(entries, place);
    left_of(entries, cell).saturating_add(left_of(entries, cell.saturating_add(1))) / 2
}

/// In which of six lines a tick stands, where each has a line of its own.
fn tick_line(style: Style) -> u64 {
    match style {
        Style::Start | Style::Enqueue => 0,
        Style::Give => 1,
        Style::Cancel => 2,
        Style::Told => 3,
        Style::Timeout => 4,
        _ => 5,
    }
}

/// Where a tick stands: across its row, or in its line.
fn tick_place(entries: usize, row: Row, mark: &Mark) -> Place {
    let middle = middle(entries, mark.from);
    if cells(entries) == entries as u64 {
        return Place {
            x: middle.saturating_sub(1),
            y: row.top.saturating_add(2),
            width: 3,
            height: 22,
        };
    }
    Place {
        x: middle.saturating_sub(2),
        y: tick_line(mark.style)
            .saturating_mul(4)
            .saturating_add(row.top)
            .saturating_add(1),
        width: 4,
        height: 4,
    }
}

/// Where a bar of this height begins and ends, so far below the top of its row.
fn bar_place(entries: usize, row: Row, mark: &Mark, below: u64, height: u64) -> Place {
    let x = left_of(entries, cell(entries, mark.from));
    let end = left_of(entries, cell(entries, mark.to).saturating_add(1));
    Place {
        x,
        y: row.top.saturating_add(below),
        width: end.saturating_sub(x).saturating_sub(1).max(1),
        height,
    }
}

/// Where a level stands: so high as it is a part of the greatest.
fn level_place(chart: &Chart, row: Row, mark: &Mark) -> Place {
    let lane = mark.row.saturating_sub(chart.seats.len());
    let most = match at(chart.lanes.as_slice(), lane) {
        Some(lane) => lane.most.max(1),
        None => 1,
    };
    let height = (mark.count.saturating_mul(20) / most.max(1)).clamp(1, 20);
    let place = bar_place(
        chart.entries,
        row,
        mark,
        23u64.saturating_sub(height),
        height,
    );
    Place {
        width: place.width.saturating_add(1),
        ..place
    }
}

/// Where a mark stands in the part of a row that its seat holds.
fn held_place(entries: usize, row: Row, mark: &Mark) -> Place {
    let below = mark.slot.saturating_mul(row.part).saturating_add(3);
    bar_place(entries, row, mark, below, row.part.saturating_sub(1))
}

/// Where a read or a write stands: in the lower half of the part that its seat holds.
fn access_place(entries: usize, row: Row, mark: &Mark) -> Place {
    let held = held_place(entries, row, mark);
    Place {
        x: middle(entries, mark.from).saturating_sub(1),
        y: held.y.saturating_add(held.height / 2),
        width: 2,
        height: held.height / 2,
    }
}

/// Where a mark stands.
pub fn place_of(chart: &Chart, row: Row, mark: &Mark) -> Place {
    let entries = chart.entries;
    match mark.style {
        Style::Level => level_place(chart, row, mark),
        Style::Held => held_place(entries, row, mark),
        Style::Access => access_place(entries, row, mark),
        Style::Completed | Style::Open | Style::Cancelled | Style::Failed => {
            bar_place(entries, row, mark, 4, 18)
        }
        Style::Wait => bar_place(entries, row, mark, 5, 12),
        Style::Call if cells(entries) == entries as u64 => Place {
            y: row.top.saturating_add(19),
            height: 5,
            ..tick_place(entries, row, mark)
        },
        Style::NeverCancelled | Style::NeverFailed => Place {
            x: middle(entries, mark.from).saturating_sub(5),
            y: row.top.saturating_add(14),
            width: 10,
            height: 10,
        },
        _ => tick_place(entries, row, mark),
    }
}

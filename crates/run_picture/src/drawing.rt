//! The marks of a picture as elements of SVG.

use crate::marks::{Mark, STYLES, Style};
use crate::names::seat_name;
use crate::sheet::{Place, place_of};
use crate::titles::{Scene, subject, title};
use crate::words::class_of;
use std::alloc::{AllocError, Global};

/// Words at a place.
pub fn push_words(
    alloc: Global,
    out: &mut String,
    attributes: &str,
    x: u64,
    y: u64,
    words: &str,
) -> Result<(), AllocError> {
    out.push_str(&format!(in alloc; "<text{attributes} x=\"{x}\" y=\"{y}\">{words}</text>\n")?)
}

fn push_size(alloc: Global, out: &mut String, place: Place, end: &str) -> Result<(), AllocError> {
    let width = place.width;
    let height = place.height;
    out.push_str(&format!(in alloc; "width=\"{width}\" height=\"{height}\"{end}")?)
}

/// A rectangle begins.
pub fn push_box(
    alloc: Global,
    out: &mut String,
    class: &str,
    place: Place,
    end: &str,
) -> Result<(), AllocError> {
    let x = place.x;
    let y = place.y;
    out.push_str(&format!(in alloc; "<rect class=\"{class}\" x=\"{x}\" y=\"{y}\" ")?)?;
    push_size(alloc, out, place, end)
}

/// The class of a mark: that of its style, or of its seat's colour.
fn mark_class(alloc: Global, mark: &Mark) -> Result<String, AllocError> {
    let word = class_of(mark.style);
    let seat = mark.seat;
    match mark.style {
        Style::Held => format!(in alloc; "o{seat}"),
        _ => format!(in alloc; "{word}"),
    }
}

/// What is written on a mark.
fn label(scene: &Scene, mark: &Mark) -> Result<String, AllocError> {
    match mark.style {
        Style::Held => seat_name(scene.alloc, scene.names, mark.seat),
        Style::Completed | Style::Open | Style::Cancelled | Style::Failed | Style::Wait => {
            subject(scene, mark)
        }
        _ => Ok(String::new(scene.alloc)),
    }
}

/// Writes on a mark, if there is room.
fn push_label(
    scene: &Scene,
    out: &mut String,
    mark: &Mark,
    place: Place,
) -> Result<(), AllocError> {
    if mark.times > 1 || place.width < 12 || place.height < 9 {
        return Ok(());
    }
    let text = label(scene, mark)?;
    let room = (text.len() as u64).saturating_mul(6).saturating_add(4);
    if text.len() == 0 || room > place.width {
        return Ok(());
    }
    let class = if mark.style == Style::Wait {
        " class=\"on\""
    } else {
        " class=\"name\""
    };
    let x = place.x.saturating_add(3);
    let y = place.y.saturating_add(place.height / 2).saturating_add(4);
    push_words(scene.alloc, out, class, x, y, text.as_str())
}

/// A mark.
fn push_drawn(scene: &Scene, out: &mut String, mark: &Mark) -> Result<(), AllocError> {
    let Some(row) = scene.rows.get(mark.row) else {
        return Ok(());
    };
    let place = place_of(scene.chart, *row, mark);
    let class = mark_class(scene.alloc, mark)?;
    push_box(scene.alloc, out, class.as_str(), place, "><title>")?;
    let title = title(scene, mark)?;
    out.push_str(title.as_str())?;
    out.push_str("</title></rect>\n")?;
    push_label(scene, out, mark, place)
}

/// The marks of one style.
fn push_style(scene: &Scene, out: &mut String, style: Style) -> Result<(), AllocError> {
    for mark in scene.chart.marks.as_slice() {
        if mark.style == style {
            push_drawn(scene, out, mark)?;
        }
    }
    Ok(())
}

/// All marks, what is rare on top.
pub fn push_marks(scene: &Scene, out: &mut String) -> Result<(), AllocError> {
    for style in STYLES.iter() {
        push_style(scene, out, *style)?;
    }
    Ok(())
}

//! A run as a drawing for a browser: the same lanes as in the text, with arrows for bytes and waits.

use crate::lanes::width_of;
use crate::scene::{Line, Mark, Scene};
use std::alloc::AllocError;
use std::fmt::Write;

/// Sizes in pixels: the left edge of the first lane, the least lane, a letter, a row, the heading.
const LEFT: usize = 110;

const LANE: usize = 270;

const LETTER: usize = 8;

const ROW: usize = 26;

const TOP: usize = 54;

/// A text as it is written in XML.
fn escaped(out: &mut String, text: &str) -> Result<(), AllocError> {
    for letter in text.chars() {
        match letter {
            '&' => out.push_str("&amp;")?,
            '<' => out.push_str("&lt;")?,
            '>' => out.push_str("&gt;")?,
            '"' => out.push_str("&quot;")?,
            other => out.push(other)?,
        }
    }
    Ok(())
}

/// How many lanes there are, and how wide each is.
#[derive(Clone, Copy)]
struct Sheet {
    guests: usize,
    lane: usize,
}

/// A sheet whose lanes hold the longest text.
fn sheet_of(scene: &Scene) -> Sheet {
    let mut letters = 0usize;
    for line in &scene.lines {
        letters = letters
            .max(width_of(line.text.as_str()))
            .max(width_of(line.note.as_str()));
    }
    Sheet {
        guests: scene.guests,
        lane: LANE.max(letters.saturating_add(4).saturating_mul(LETTER)),
    }
}

/// Where a lane stands; the notes have the one behind the last guest's.
fn lane_at(sheet: Sheet, guest: usize) -> usize {
    LEFT.saturating_add(guest.saturating_mul(sheet.lane))
}

/// A text at a place, with a class.
fn label(out: &mut String, x: usize, y: usize, class: &str, text: &str) -> Result<(), AllocError> {
    write!(out, "<text x=\"{x}\" y=\"{y}\" class=\"{class}\">")?;
    escaped(out, text)?;
    out.push_str("</text>\n")
}

/// A line from one place to another, with a class.
fn stroke(
    out: &mut String,
    from: (usize, usize),
    to: (usize, usize),
    class: &str,
) -> Result<(), AllocError> {
    let (x, y) = from;
    write!(out, "<line x1=\"{x}\" y1=\"{y}\" ")?;
    let (x, y) = to;
    write!(out, "x2=\"{x}\" y2=\"{y}\" class=\"{class}\"/>\n")
}

fn class_of(mark: Mark) -> &'static str {
    match mark {
        Mark::Away => "",
        Mark::Live => "live",
        Mark::Waits => "waits",
        Mark::Owes => "owes",
    }
}

/// How the guests stand in a row.
fn marks(out: &mut String, line: &Line, sheet: Sheet, y: usize) -> Result<(), AllocError> {
    let mut guest = 0usize;
    for mark in line.marks.iter().take(sheet.guests) {
        if *mark != Mark::Away {
            let x = lane_at(sheet, guest);
            stroke(out, (x, y), (x, y.saturating_add(ROW)), class_of(*mark))?;
        }
        guest = guest.saturating_add(1);
    }
    Ok(())
}

/// The arrow of a row: bytes from their maker to the reader, or a wait to the one who is waited for.
fn arrow(out: &mut String, line: &Line, sheet: Sheet, y: usize) -> Result<(), AllocError> {
    let Some(other) = line.other else {
        return Ok(());
    };
    if other == line.guest || other >= sheet.guests {
        return Ok(());
    }
    let own = lane_at(sheet, line.guest);
    let theirs = lane_at(sheet, other);
    let y = y.saturating_add(4);
    if line.is_wait {
        stroke(out, (own, y), (theirs, y), "wait")
    } else {
        stroke(out, (theirs, y), (own, y), "bytes")
    }
}

fn row(out: &mut String, line: &Line, sheet: Sheet, y: usize) -> Result<(), AllocError> {
    marks(out, line, sheet, y)?;
    let text_y = y.saturating_add(18);
    if line.step > 0 {
        let step = line.step;
        let text = format!(in *out.allocator(); "{step}")?;
        label(out, 12, text_y, "dim", text.as_str())?;
    }
    let moment = line.moment;
    let text = format!(in *out.allocator(); "{moment}")?;
    label(out, 52, text_y, "dim", text.as_str())?;
    if line.guest < sheet.guests {
        arrow(out, line, sheet, y)?;
        let x = lane_at(sheet, line.guest);
        if line.is_wait {
            label(out, x.saturating_add(9), text_y, "late", line.text.as_str())?;
        } else {
            let middle = y.saturating_add(13);
            write!(out, "<circle cx=\"{x}\" cy=\"{middle}\" r=\"4\"/>\n")?;
            label(out, x.saturating_add(9), text_y, "did", line.text.as_str())?;
        }
    }
    label(
        out,
        lane_at(sheet, sheet.guests),
        text_y,
        "note",
        line.note.as_str(),
    )
}

const STYLE: &str =
    "<style>text{font:13px monospace}.dim{fill:#888}.did{fill:#111}.late{fill:#a60;font-style:italic}.note{fill:#06c}.head{font-weight:bold}line{stroke-width:1.5}.live{stroke:#999}.waits{stroke:#c80;stroke-dasharray:2 4}.owes{stroke:#c30;stroke-width:4}.wait{stroke:#c80;stroke-dasharray:4 3;marker-end:url(#w)}.bytes{stroke:#06c;marker-end:url(#b)}circle{fill:#111}</style>\n<defs><marker id=\"b\" viewBox=\"0 0 8 8\" refX=\"8\" refY=\"4\" markerWidth=\"6\" markerHeight=\"6\" orient=\"auto\"><path d=\"M0 0L8 4L0 8z\" fill=\"#06c\"/></marker><marker id=\"w\" viewBox=\"0 0 8 8\" refX=\"8\" refY=\"4\" markerWidth=\"6\" markerHeight=\"6\" orient=\"auto\"><path d=\"M0 0L8 4L0 8z\" fill=\"#c80\"/></marker></defs>\n<rect width=\"100%\" height=\"100%\" fill=\"#fff\"/>\n";

/// The heading: the names of the columns.
fn head(out: &mut String, sheet: Sheet) -> Result<(), AllocError> {
    label(out, 12, 30, "head", "step")?;
    label(out, 52, 30, "head", "at")?;
    for guest in 0..sheet.guests {
        let number = guest.saturating_add(1);
        let text = format!(in *out.allocator(); "guest {number}")?;
        label(out, lane_at(sheet, guest), 30, "head", text.as_str())?;
    }
    label(out, lane_at(sheet, sheet.guests), 30, "head", "object")
}

/// The scene as an SVG drawing.
pub fn draw_svg(out: &mut String, scene: &Scene) -> Result<(), AllocError> {
    let sheet = sheet_of(scene);
    let width = lane_at(sheet, sheet.guests).saturating_add(sheet.lane);
    let height = scene
        .lines
        .len()
        .saturating_mul(ROW)
        .saturating_add(TOP)
        .saturating_add(ROW.saturating_mul(2));
    write!(
        out,
        "<svg xmlns=\"http://www.w3.org/2000/svg\" width=\"{width}\" height=\"{height}\">\n"
    )?;
    out.push_str(STYLE)?;
    head(out, sheet)?;
    let mut y = TOP.saturating_sub(ROW / 2);
    for line in &scene.lines {
        row(out, line, sheet, y)?;
        y = y.saturating_add(ROW);
    }
    label(
        out,
        12,
        y.saturating_add(ROW),
        "dim",
        "thick: has to insert or renew; dotted: waits; blue arrow: bytes; dashed arrow: waits for",
    )?;
    out.push_str("</svg>\n")
}

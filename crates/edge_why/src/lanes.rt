//! A run as a text: a lane for each guest, a row for each step, and below it the waits.

use crate::scene::{Line, Mark, Scene};
use std::alloc::{AllocError, Global};
use std::fmt::Write;

/// How many letters a text shows: its bytes but for those that continue one.
pub fn width_of(text: &str) -> usize {
    let mut count = 0usize;
    for byte in text.as_bytes() {
        if *byte / 64 != 2 {
            count = count.saturating_add(1);
        }
    }
    count
}

/// A text, and spaces up to a width.
fn padded(out: &mut String, text: &str, width: usize) -> Result<(), AllocError> {
    out.push_str(text)?;
    for _ in width_of(text)..width {
        out.push(' ')?;
    }
    Ok(())
}

/// A number behind spaces up to a width.
fn right(out: &mut String, number: u64, width: usize) -> Result<(), AllocError> {
    let text = format!(in *out.allocator(); "{number}")?;
    for _ in text.len()..width {
        out.push(' ')?;
    }
    out.push_str(text.as_str())
}

/// The widths of the lanes: that of the longest text in each, and two spaces.
fn widths_of(alloc: Global, scene: &Scene) -> Result<Vec<usize>, AllocError> {
    let mut widths = vec![in alloc; 11usize; scene.guests]?;
    for line in &scene.lines {
        if let Some(width) = widths.get_mut(line.guest) {
            *width = (*width).max(width_of(line.text.as_str()).saturating_add(2));
        }
    }
    Ok(widths)
}

fn mark_text(mark: Mark) -> &'static str {
    match mark {
        Mark::Away => "",
        Mark::Live => "│",
        Mark::Waits => "┊",
        Mark::Owes => "┃",
    }
}

fn head(out: &mut String, widths: &[usize], moments: usize) -> Result<(), AllocError> {
    out.push_str("step")?;
    for _ in 1..moments {
        out.push(' ')?;
    }
    out.push_str("at  ")?;
    let mut number = 0u64;
    for width in widths {
        number = number.saturating_add(1);
        let name = format!(in *out.allocator(); "guest {number}")?;
        padded(out, name.as_str(), *width)?;
    }
    out.push_str("entry  object\n")
}

/// The lanes of a row.
fn row_lanes(out: &mut String, line: &Line, widths: &[usize]) -> Result<(), AllocError> {
    let mut guest = 0usize;
    for width in widths {
        let mark = line.marks.get(guest).copied().unwrap_or(Mark::Away);
        if guest == line.guest {
            padded(out, line.text.as_str(), *width)?;
        } else {
            padded(out, mark_text(mark), *width)?;
        }
        guest = guest.saturating_add(1);
    }
    Ok(())
}

fn row(out: &mut String, line: &Line, widths: &[usize], moments: usize) -> Result<(), AllocError> {
    if line.step == 0 {
        out.push_str("   -")?;
    } else {
        right(out, line.step as u64, 4)?;
    }
    right(out, line.moment, moments.saturating_add(1))?;
    out.push_str("  ")?;
    row_lanes(out, line, widths)?;
    if line.entry == 0 {
        return out.push_str("    -\n");
    }
    right(out, line.entry, 5)?;
    if !line.note.is_empty() {
        out.push_str("  ")?;
        out.push_str(line.note.as_str().trim_end())?;
    }
    out.push('\n')
}

/// The list of waits.
fn waits(out: &mut String, scene: &Scene) -> Result<(), AllocError> {
    if scene.waits.is_empty() {
        return out.push_str("nobody waited\n");
    }
    out.push_str("waited\n")?;
    for wait in &scene.waits {
        let guest = wait.guest.saturating_add(1);
        let from = wait.from;
        let to = wait.to;
        write!(out, "  guest {guest}  from step {from} ")?;
        if to == 0 {
            out.push_str("to the end")?;
        } else {
            write!(out, "to {to}")?;
        }
        if let Some(other) = wait.other {
            let other = other.saturating_add(1);
            write!(out, "  for guest {other}")?;
        }
        let word = wait.word;
        write!(out, "  ({word})\n")?;
    }
    Ok(())
}

/// The widest moment in digits, at least 2.
fn moments_of(alloc: Global, scene: &Scene) -> Result<usize, AllocError> {
    let mut most = 0u64;
    for line in &scene.lines {
        most = most.max(line.moment);
    }
    let text = format!(in alloc; "{most}")?;
    Ok(text.len().max(2).saturating_add(1))
}

/// The scene as a text.
pub fn draw_lanes(out: &mut String, scene: &Scene) -> Result<(), AllocError> {
    let widths = widths_of(*out.allocator(), scene)?;
    let moments = moments_of(*out.allocator(), scene)?;
    head(out, widths.as_slice(), moments)?;
    for line in &scene.lines {
        row(out, line, widths.as_slice(), moments)?;
    }
    if scene.is_cut {
        out.push_str("only the first 1,000 steps and 40 guests are drawn\n")?;
    }
    waits(out, scene)?;
    out.push_str(
        "│ goes on   ┊ waits   ┃ has to insert or renew   ◄══ bytes of the object that the row names\n",
    )
}

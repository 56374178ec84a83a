//! Where a line of a run file stands.

/// What may stand at a line.
#[derive(Clone, Copy, PartialEq, Eq)]
pub enum Part {
    /// The first line.
    Head,
    /// Before the first guest's block.
    Guests,
    /// In a guest's block.
    Block,
    /// In the schedule.
    Steps,
    /// Behind the line `end`.
    Over,
}

/// A line, and what the lines before it say.
#[derive(Clone, Copy)]
pub struct Spot<'a> {
    /// The line's text, without its line feed.
    pub line: &'a [u8],
    /// The line's number, counted from 1.
    pub number: usize,
    /// The file has a line with this number.
    pub exists: bool,
    /// The line has its line feed.
    pub ended: bool,
    pub part: Part,
    /// How many blocks have begun.
    pub guests: usize,
    /// The place that a call has in its block, counted from 1.
    pub place: usize,
    /// How many steps were made.
    pub steps: usize,
}

/// The part and the counts behind one more line.
fn pass<'a>(spot: Spot<'a>, line: &[u8]) -> Spot<'a> {
    let mut next = spot;
    next.number = spot.number.saturating_add(1);
    match spot.part {
        Part::Head => next.part = Part::Guests,
        Part::Steps => {
            if line == b"end".as_slice() {
                next.part = Part::Over;
            } else {
                next.steps = spot.steps.saturating_add(1);
            }
        }
        Part::Over => {}
        _ => {
            if line == b"guest".as_slice() {
                next.part = Part::Block;
                next.guests = spot.guests.saturating_add(1);
                next.place = 1;
            } else if line == b"steps".as_slice() {
                next.part = Part::Steps;
            } else {
                next.place = spot.place.saturating_add(1);
            }
        }
    }
    next
}

/// The spot of the line with this number; where the file has none, that behind its last line.
pub fn spot_at(bytes: &[u8], number: usize) -> Spot<'_> {
    let mut spot = Spot {
        line: b"",
        number: 1,
        exists: false,
        ended: false,
        part: Part::Head,
        guests: 0,
        place: 0,
        steps: 0,
    };
    for line in bytes.split_inclusive(|byte| *byte == b'\n') {
        let ended = line.last() == Some(&b'\n');
        let text = line.strip_suffix(b"\n").unwrap_or(line);
        if spot.number >= number || !ended {
            spot.line = text;
            spot.exists = true;
            spot.ended = ended;
            return spot;
        }
        spot = pass(spot, text);
    }
    spot
}

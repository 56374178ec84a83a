//! Where a line of a play file stands.

/// What may stand at a line.
#[derive(Clone, Copy, PartialEq, Eq)]
pub enum PlayPart {
    /// The first line.
    Head,
    Fuel,
    Random,
    /// Requests, up to the line `steps`.
    Requests,
    /// In the schedule.
    Steps,
    /// Behind the line `end`.
    Over,
}

/// A line, and what the lines before it say.
#[derive(Clone, Copy)]
pub struct PlaySpot<'a> {
    /// The line's text, without its line feed.
    pub line: &'a [u8],
    /// The line's number, counted from 1.
    pub number: usize,
    /// The file has a line with this number.
    pub exists: bool,
    /// The line has its line feed.
    pub ended: bool,
    pub part: PlayPart,
    /// How many requests there were.
    pub requests: usize,
    /// How many steps were made.
    pub steps: usize,
}

/// The part and the counts behind one more line.
fn pass<'a>(spot: PlaySpot<'a>, line: &[u8]) -> PlaySpot<'a> {
    let mut next = spot;
    next.number = spot.number.saturating_add(1);
    match spot.part {
        PlayPart::Head => next.part = PlayPart::Fuel,
        PlayPart::Fuel => next.part = PlayPart::Random,
        PlayPart::Random => next.part = PlayPart::Requests,
        PlayPart::Requests => {
            if line == b"steps".as_slice() {
                next.part = PlayPart::Steps;
            } else {
                next.requests = spot.requests.saturating_add(1);
            }
        }
        PlayPart::Steps => {
            if line == b"end".as_slice() {
                next.part = PlayPart::Over;
            } else {
                next.steps = spot.steps.saturating_add(1);
            }
        }
        PlayPart::Over => {}
    }
    next
}

/// The spot of the line with this number; where the file has none, that behind its last line.
pub fn play_spot_at(bytes: &[u8], number: usize) -> PlaySpot<'_> {
    let mut spot = PlaySpot {
        line: b"",
        number: 1,
        exists: false,
        ended: false,
        part: PlayPart::Head,
        requests: 0,
        steps: 0,
    };
    for line in bytes.split_inclusive(|byte| *byte == b'\n') {
        let ended = line.last() == Some(&b'\n');
        let text = line.strip_suffix(b"\n").unwrap_or(line);
        if spot.number >= number || !ended {
            spot.line = text;
            spot.exists = true;
            spot.ended = ended;
            return spot;
        }
        spot = pass(spot, text);
    }
    spot
}

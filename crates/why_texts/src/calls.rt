//! What is wrong with the line of a call.

use crate::options::{Taken, bad_options};
use crate::spelling::{bad_range, bad_reference, bad_sized, begins_with_digit};
use crate::text::{nearest, quote};
use std::alloc::{AllocError, Global};
use std::fmt::Write;

/// What stands behind the name of a call, before its options.
#[derive(Clone, Copy)]
enum Operand {
    Key,
    Surrogate,
    Reference,
    Piece,
    Place,
    Most,
    Hardness,
}

/// A call: its operands, the options that it takes, and how its line looks.
#[derive(Drop)]
struct Form {
    operands: &'static [Operand],
    taken: Taken,
    shape: &'static str,
}

const NOTHING: Taken = Taken {
    sets: false,
    opts: false,
    heads: false,
};

const CALLS: [&str; 15] = [
    "lookup", "txlookup", "insert", "txinsert", "txupdate", "txcancel", "close", "write", "finish",
    "abandon", "read", "purge", "guest", "steps", "end",
];

fn plain(operands: &'static [Operand], shape: &'static str) -> Option<Form> {
    Some(Form {
        operands,
        taken: NOTHING,
        shape,
    })
}

fn writing(
    operands: &'static [Operand],
    opts: bool,
    heads: bool,
    shape: &'static str,
) -> Option<Form> {
    Some(Form {
        operands,
        taken: Taken {
            sets: true,
            opts,
            heads,
        },
        shape,
    })
}

fn form_of(name: &[u8]) -> Option<Form> {
    let heads = Taken {
        sets: false,
        opts: false,
        heads: true,
    };
    match name {
        b"lookup" => Some(Form {
            operands: &[Operand::Key],
            taken: heads,
            shape: "lookup KEY [h=NAME:HEX ..]",
        }),
        b"txlookup" => Some(Form {
            operands: &[Operand::Key],
            taken: heads,
            shape: "txlookup KEY [h=NAME:HEX ..]",
        }),
        b"insert" => writing(
            &[Operand::Key],
            true,
            true,
            "insert KEY max=NUM [further options] [h=NAME:HEX ..]",
        ),
        b"txinsert" => writing(
            &[Operand::Reference],
            true,
            false,
            "txinsert @n max=NUM [further options]",
        ),
        b"txupdate" => writing(
            &[Operand::Reference],
            false,
            false,
            "txupdate @n max=NUM [age= swr= sur= meta=]",
        ),
        b"txcancel" => plain(&[Operand::Reference], "txcancel @n"),
        b"close" => plain(&[Operand::Reference], "close @n"),
        b"write" => plain(&[Operand::Reference, Operand::Piece], "write @n HEX"),
        b"finish" => plain(&[Operand::Reference], "finish @n"),
        b"abandon" => plain(&[Operand::Reference], "abandon @n"),
        b"read" => plain(
            &[Operand::Reference, Operand::Place, Operand::Most],
            "read @n PLACE MOST",
        ),
        b"purge" => plain(
            &[Operand::Surrogate, Operand::Hardness],
            "purge KEY hard, or purge KEY soft",
        ),
        _ => None,
    }
}

fn bad_hardness(out: &mut String, word: &[u8]) -> Result<bool, AllocError> {
    if word == b"hard".as_slice() || word == b"soft".as_slice() {
        return Ok(false);
    }
    out.push_str("a purge is `hard` or `soft`")?;
    Ok(true)
}

fn bad_operand(
    out: &mut String,
    operand: Operand,
    word: &[u8],
    place: usize,
) -> Result<bool, AllocError> {
    match operand {
        Operand::Key => bad_sized(out, "the key", word, 1, 4096),
        Operand::Surrogate => bad_sized(out, "the surrogate key", word, 1, 1024),
        Operand::Reference => bad_reference(out, word, place),
        Operand::Piece => bad_sized(out, "the piece of the body", word, 0, 65_536),
        Operand::Place => bad_range(out, "the place to read at", word, 0, u64::MAX),
        Operand::Most => bad_range(out, "the most bytes to read", word, 1, 65_536),
        Operand::Hardness => bad_hardness(out, word),
    }
}

/// The word of run files for a call of the public interface.
fn interface_name(name: &[u8]) -> Option<&'static str> {
    match name {
        b"transaction_lookup" => Some("txlookup"),
        b"transaction_insert" => Some("txinsert"),
        b"transaction_update" => Some("txupdate"),
        b"transaction_cancel" => Some("txcancel"),
        b"get_body" => Some("read"),
        b"purge_surrogate_key" => Some("purge"),
        _ => None,
    }
}

/// A name that no call has.
fn unknown_call(out: &mut String, name: &[u8]) -> Result<(), AllocError> {
    if name.starts_with(b"#") || name.starts_with(b"//") {
        return out.push_str("a run file has no comments");
    }
    if begins_with_digit(name) {
        return out.push_str(
            "a step stands before the line `steps`: the schedule begins with that word on a line of its own",
        );
    }
    out.push_str("there is no call ")?;
    quote(out, name)?;
    if let Some(known) = interface_name(name) {
        return write!(out, "; in a run file it is `{known}`");
    }
    match nearest(name, &CALLS) {
        Some(known) => write!(out, "; did you mean `{known}`?"),
        None => out.push_str(
            "; the calls are lookup txlookup insert txinsert txupdate txcancel close write finish abandon read purge",
        ),
    }
}

/// The words of a line.
fn words_of<'a>(alloc: Global, line: &'a [u8]) -> Result<Vec<&'a [u8]>, AllocError> {
    let mut words = Vec::new(alloc);
    for word in line.split(|byte| *byte == b' ') {
        words.push(word)?;
    }
    Ok(words)
}

/// The words behind the name of a call of this form.
fn bad_words<'a>(
    out: &mut String,
    form: &Form,
    words: &[&'a [u8]],
    place: usize,
) -> Result<bool, AllocError> {
    let mut at = 0usize;
    for operand in form.operands {
        let Some(word) = words.get(at) else {
            return Ok(false);
        };
        if bad_operand(out, *operand, word, place)? {
            return Ok(true);
        }
        at = at.saturating_add(1);
    }
    match words.split_at_checked(at) {
        Some((_, rest)) => bad_options(out, rest, form.taken),
        None => Ok(false),
    }
}

/// The hint for a line of a guest's block, at this place of the block.
pub fn call_hint(out: &mut String, line: &[u8], place: usize) -> Result<(), AllocError> {
    let alloc = *out.allocator();
    let words = words_of(alloc, line)?;
    let Some((name, rest)) = words.as_slice().split_first() else {
        return Ok(());
    };
    let Some(form) = form_of(name) else {
        return unknown_call(out, name);
    };
    if bad_words(out, &form, rest, place)? {
        return Ok(());
    }
    let shape = form.shape;
    if rest.len() < form.operands.len() {
        return write!(out, "the line is too short; it looks so: {shape}");
    }
    write!(out, "this line looks so: {shape}")
}

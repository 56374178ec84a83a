//! Sections and other parts with a stated size (section 5.5.2).

ghost use Rattle.std.specs.Prelude.{◌≡◌};
ghost use Rattle.std.specs.Option.{option_map};
ghost use Rattle.wasm_code.specs.Reading.{Gives};
ghost use Rattle.wasm_reader.specs.Sections.{short_before, open_at, close_at, sized_at, custom_at, next_custom_at, customs_at, optional_at, section_at};
ghost use Rattle.wasm_reader.specs.Parts.{inside_of};

use crate::names::name_of;
use std::alloc::Global;
use wasm_code::{Field, ReadKind, Scope, Stop, fault_at, read_u32, short_of};

// What a stated size leaves to read inside it and after it. Where it passes the end of what surrounds it, what
// stands up to that end is the content, and the part isn't whole.
#[derive(Clone, Copy)]
struct Part<'a> {
    scope: Scope,
    content: &'a [u8],
    after: &'a [u8],
    whole: bool,
}

// What it is to pass the end of a part behind which these bytes stand, if it is `last` where none do.
fn short_before(last: ReadKind, after: &[u8]) -> ReadKind
    ensures { result ≡ short_before last after.now }
{
    match after {
        [] => last,
        [_, ..] => ReadKind::SectionSize,
    }
}

#[tactic(auto, unfolding(crate::specs::Sections::open_at))]
fn open_part(last: ReadKind, scope: Scope, bytes: &[u8]) -> Result<Part<'_>, Stop>
    ensures { Gives (λ x. inside_of x) result (open_at last scope bytes.now) }
{
    let (size, rest) = read_u32(scope, bytes)?;
    let size = size as usize;
    if size <= rest.len() {
        let (content, after) = rest.split_at(size);
        let end = scope.end.saturating_sub(after.len());
        let short = short_before(last, after);
        let scope = Scope { end, short };
        return Ok(Part {
            scope,
            content,
            after,
            whole: true,
        });
    }
    Ok(Part {
        scope,
        content: rest,
        after: &[],
        whole: false,
    })
}

// What follows the part, if the content has ended where it does.
#[tactic(auto, unfolding(crate::specs::Sections::close_at))]
fn close_part<'a>(part: &Part<'a>, rest: &[u8]) -> Result<&'a [u8], Stop>
    ensures { Gives (λ x. x.now) result (close_at (inside_of part.now) rest.now) }
{
    match rest {
        [] => {
            if part.whole {
                return Ok(part.after);
            }
            Err(Stop::Fault(short_of(part.scope)))
        }
        [_, ..] => Err(Stop::Fault(fault_at(ReadKind::SectionSize, part.scope, rest))),
    }
}

/// A size, and so many bytes that hold the value. To pass their end is `last` where nothing stands behind them.
#[tactic(auto, unfolding(crate::specs::Sections::sized_at))]
pub(crate) fn read_sized<'a, F: Field>(
    last: ReadKind,
    content: &F,
    alloc: Global,
    scope: Scope,
    bytes: &'a [u8],
) -> Result<(F::Item, &'a [u8]), Stop>
    ensures { Gives (λ x. (x.0, x.1.now)) result (sized_at last (F.reading content.now) scope bytes.now) }
{
    let part = open_part(last, scope, bytes)?;
    let (value, rest) = content.read(alloc, part.scope, part.content)?;
    let after = close_part(&part, rest)?;
    Ok((value, after))
}

// What follows a custom section behind its number.
#[tactic(auto, unfolding(crate::specs::Sections::custom_at))]
fn skip_custom(scope: Scope, bytes: &[u8]) -> Result<&[u8], Stop>
    ensures { Gives (λ x. x.now) result (custom_at scope bytes.now) }
{
    let part = open_part(ReadKind::SectionSize, scope, bytes)?;
    let (_, _) = name_of(part.scope, part.content)?;
    close_part(&part, &[])
}

// What follows the custom section that stands here, if one does.
#[tactic(auto, unfolding(crate::specs::Sections::next_custom_at))]
fn next_custom(scope: Scope, bytes: &[u8]) -> Result<Option<&[u8]>, Stop>
    ensures { Gives (λ x. option_map (λ s. s.now) x) result (next_custom_at scope bytes.now) }
{
    match bytes {
        [] => Ok(None),
        [id, rest @ ..] => {
            if *id == 0 {
                return Ok(Some(skip_custom(scope, rest)?));
            }
            Ok(None)
        }
    }
}

/// What follows the custom sections that stand here.
pub(crate) fn skip_customs(scope: Scope, bytes: &[u8]) -> Result<&[u8], Stop>
    ensures { Gives (λ x. x.now) result (customs_at scope bytes.now) }
{
    let mut rest = bytes;
    for _ in 0..bytes.len() {
        match next_custom(scope, rest)? {
            Some(after) => rest = after,
            None => return Ok(rest),
        }
    }
    Ok(rest)
}

#[tactic(auto, unfolding(crate::specs::Sections::optional_at))]
fn read_optional<'a, F: Field>(
    id: u8,
    none: F::Item,
    content: &F,
    alloc: Global,
    scope: Scope,
    bytes: &'a [u8],
) -> Result<(F::Item, &'a [u8]), Stop>
    ensures { Gives (λ x. (x.0, x.1.now)) result (optional_at id none (F.reading content.now) scope bytes.now) }
{
    match bytes {
        [] => Ok((none, bytes)),
        [first, rest @ ..] => {
            if *first == id {
                return read_sized(ReadKind::SectionSize, content, alloc, scope, rest);
            }
            Ok((none, bytes))
        }
    }
}

/// Custom sections, and then the section with this number, if it stands there.
#[tactic(auto, unfolding(crate::specs::Sections::section_at))]
pub(crate) fn read_section<'a, F: Field>(
    id: u8,
    none: F::Item,
    content: &F,
    alloc: Global,
    scope: Scope,
    bytes: &'a [u8],
) -> Result<(F::Item, &'a [u8]), Stop>
    ensures { Gives (λ x. (x.0, x.1.now)) result (section_at id none (F.reading content.now) scope bytes.now) }
{
    let rest = skip_customs(scope, bytes)?;
    read_optional(id, none, content, alloc, scope, rest)
}

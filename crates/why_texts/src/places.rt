//! Where a byte of a module stands: its section, and in the code section its function. Nothing here judges the module; a
//! place that can't be told is left out.

/// A section: its number, where its content begins and where it ends.
#[derive(Clone, Copy)]
pub struct Section {
    pub number: u8,
    pub content: usize,
    pub end: usize,
}

/// The number in LEB128 at a place, and the place behind it.
pub fn leb_at(bytes: &[u8], place: usize) -> Option<(u64, usize)> {
    let mut number: u64 = 0;
    let mut scale: u64 = 1;
    let mut next = place;
    for _ in 0..10 {
        let byte = *bytes.get(next)?;
        next = next.saturating_add(1);
        number = number.saturating_add(u64::from(byte % 128).saturating_mul(scale));
        if byte < 128 {
            return Some((number, next));
        }
        scale = scale.saturating_mul(128);
    }
    None
}

/// The section whose number stands at a place.
fn section_from(bytes: &[u8], place: usize) -> Option<Section> {
    let number = *bytes.get(place)?;
    let (size, content) = leb_at(bytes, place.saturating_add(1))?;
    let end = content.saturating_add(size as usize).min(bytes.len());
    Some(Section {
        number,
        content,
        end,
    })
}

/// The first section that has this number; of custom ones the first with this name; or the one that a place stands in.
fn find_section(bytes: &[u8], number: Option<u8>, name: &[u8], place: usize) -> Option<Section> {
    let mut at = 8usize;
    for _ in 0..bytes.len() {
        let section = section_from(bytes, at)?;
        let holds = at <= place && place < section.end;
        let is_it = match number {
            None => holds,
            Some(0) => section.number == 0 && is_named(bytes, section, name),
            Some(number) => section.number == number,
        };
        if is_it {
            return Some(section);
        }
        at = section.end;
    }
    None
}

fn is_named(bytes: &[u8], section: Section, name: &[u8]) -> bool {
    match leb_at(bytes, section.content) {
        Some((_, text)) => bytes.get(text..).is_some_and(|rest| rest.starts_with(name)),
        None => false,
    }
}

/// The section that the place stands in.
pub fn section_of(bytes: &[u8], place: usize) -> Option<Section> {
    find_section(bytes, None, b"", place)
}

/// There is a custom section with this name.
pub fn has_custom(bytes: &[u8], name: &[u8]) -> bool {
    find_section(bytes, Some(0), name, 0).is_some()
}

/// The place behind the limits of a table or a memory.
fn skip_limits(bytes: &[u8], place: usize) -> Option<usize> {
    let flag = *bytes.get(place)?;
    let (_, next) = leb_at(bytes, place.saturating_add(1))?;
    if flag % 2 == 0 {
        return Some(next);
    }
    let (_, next) = leb_at(bytes, next)?;
    Some(next)
}

/// The place behind a name.
fn skip_name(bytes: &[u8], place: usize) -> Option<usize> {
    let (len, text) = leb_at(bytes, place)?;
    Some(text.saturating_add(len as usize))
}

/// The place behind an import, and whether it is a function.
fn skip_import(bytes: &[u8], place: usize) -> Option<(usize, bool)> {
    let kind_place = skip_name(bytes, skip_name(bytes, place)?)?;
    let kind = *bytes.get(kind_place)?;
    let at = kind_place.saturating_add(1);
    match kind {
        0 => Some((leb_at(bytes, at)?.1, true)),
        1 => Some((skip_limits(bytes, at.saturating_add(1))?, false)),
        2 => Some((skip_limits(bytes, at)?, false)),
        _ => Some((at.saturating_add(2), false)),
    }
}

/// How many functions are imported.
fn imported_functions(bytes: &[u8]) -> u64 {
    let Some(section) = find_section(bytes, Some(2), b"", 0) else {
        return 0;
    };
    let Some((count, mut at)) = leb_at(bytes, section.content) else {
        return 0;
    };
    let mut functions: u64 = 0;
    for _ in 0..count.min(bytes.len() as u64) {
        let Some((next, is_function)) = skip_import(bytes, at) else {
            return functions;
        };
        if is_function {
            functions = functions.saturating_add(1);
        }
        at = next;
    }
    functions
}

/// The function whose body a place stands in, imported functions counted, and where its body's content begins.
pub fn function_of(bytes: &[u8], place: usize) -> Option<(u64, usize)> {
    let section = section_of(bytes, place)?;
    if section.number != 10 {
        return None;
    }
    let (count, mut at) = leb_at(bytes, section.content)?;
    let mut function = imported_functions(bytes);
    for _ in 0..count.min(bytes.len() as u64) {
        let (size, body) = leb_at(bytes, at)?;
        let end = body.saturating_add(size as usize);
        if place >= at && place < end {
            return Some((function, body));
        }
        function = function.saturating_add(1);
        at = end;
    }
    None
}

/// The content of the body of a function, imported ones counted, and where it ends.
pub fn body_of(bytes: &[u8], function: u64) -> Option<(usize, usize)> {
    let section = find_section(bytes, Some(10), b"", 0)?;
    let (_, mut at) = leb_at(bytes, section.content)?;
    for _ in imported_functions(bytes)..function {
        let (size, body) = leb_at(bytes, at)?;
        at = body.saturating_add(size as usize);
    }
    let (size, body) = leb_at(bytes, at)?;
    Some((body, body.saturating_add(size as usize).min(bytes.len())))
}

/// What a section holds, by its number.
pub fn section_name(number: u8) -> &'static str {
    match number {
        0 => "a custom section",
        1 => "the types",
        2 => "the imports",
        3 => "the functions",
        4 => "the tables",
        5 => "the memories",
        6 => "the globals",
        7 => "the exports",
        8 => "the start function",
        9 => "the elements",
        10 => "the code",
        11 => "the data",
        _ => "a section of a later proposal",
    }
}

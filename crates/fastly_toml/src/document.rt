//! A document of settings, and what stands in it.
ghost use Rattle.std.specs.Prelude.{◌≡◌, IfOk, option_map, option_and_then};
ghost use Rattle.toml.specs.Data.{Data, get_member, as_table};
ghost use Rattle.toml.specs.Parse.{parse_document};
ghost use Rattle.toml.specs.View.{view, table_view, items_view};
ghost use Rattle.fastly_toml.specs.Document.{document_of, any_member, any_item, local, members_at, text_at, says, is_no_table};

use crate::texts::text_of;
use std::alloc::{AllocError, Global};
use toml::{Table, Value};

/// The table that a text is.
fn parsed(alloc: Global, text: &str) -> Result<Option<Table>, AllocError>
    ensures { IfOk result (λ table. option_map table_view table ≡ parse_document text.now) }
{
    match toml::table_from_str(alloc, text) {
        Ok(table) => Ok(Some(table)),
        Err(error) if error.is_memory() => Err(AllocError),
        Err(_) => Ok(None),
    }
}

/// The table that the bytes are, where they are a TOML document.
pub fn document_of(alloc: Global, bytes: &[u8]) -> Result<Option<Table>, AllocError>
    ensures { IfOk result (λ table. option_map table_view table ≡ document_of bytes.now) }
{
    match text_of(bytes) {
        Some(text) => parsed(alloc, text),
        None => Ok(None),
    }
}

/// A test on a value.
pub trait Test {
    ghost use Rattle.std.specs.Prelude.{Bool};

    ghost holds: { Self → Data → Bool };

    fn test(&self, value: &Value) -> bool
        ensures { result ≡ holds self.now (view value.now) };
}

/// Some member has a value that passes the test.
pub fn any_member<T: Test>(table: &Table, test: &T) -> bool
    ensures { result ≡ any_member (T.holds test.now) (table_view table.now) }
{
    for (_, value) in table.iter() {
        if test.test(value) {
            return true;
        }
    }
    false
}

/// Some value passes the test.
pub fn any_item<T: Test>(values: &[Value], test: &T) -> bool
    ensures { result ≡ any_item (T.holds test.now) (items_view values.now) }
{
    for value in values {
        if test.test(value) {
            return true;
        }
    }
    false
}

/// What a table has under a name.
pub fn member<'a>(table: &'a Table, name: &str) -> Option<&'a Value>
    ensures { option_map (λ value. view value.now) result ≡ get_member name.now (table_view table.now) }
{
    table.get(name)
}

/// What `local_server` has under a name.
pub fn local<'a>(document: &'a Table, name: &str) -> Option<&'a Value>
    ensures { option_map (λ value. view value.now) result ≡ local name.now (table_view document.now) }
{
    match member(document, "local_server") {
        Some(server) => server.get(name),
        None => None,
    }
}

/// The table that `local_server` has under a name.
pub fn table_at<'a>(document: &'a Table, name: &str) -> Option<&'a Table>
    ensures { option_map (λ table. table_view table.now) result ≡ option_and_then as_table (local name.now (table_view document.now)) }
{
    match local(document, name) {
        Some(value) => value.as_table(),
        None => None,
    }
}

/// Some member of this table of `local_server` has a value that passes the test.
pub fn any_at<T: Test>(document: &Table, name: &str, test: &T) -> bool
    ensures { result ≡ any_member (T.holds test.now) (members_at name.now (table_view document.now)) }
{
    match table_at(document, name) {
        Some(table) => any_member(table, test),
        None => false,
    }
}

/// It is there and is no table.
pub fn is_no_table(found: Option<&Value>) -> bool
    ensures { result ≡ is_no_table (option_map (λ value. view value.now) found.entry) }
{
    match found {
        Some(value) => value.as_table().is_none(),
        None => false,
    }
}

/// The text that a table has under a name.
pub fn text_at<'a>(value: &'a Value, name: &str) -> Option<&'a str>
    ensures { option_map (λ text. text.now) result ≡ text_at name.now (view value.now) }
{
    match value.get(name) {
        Some(found) => found.as_str(),
        None => None,
    }
}

/// Whether it is this one.
pub fn says(value: &Value, name: &str, text: &str) -> bool
    ensures { result ≡ says name.now text.now (view value.now) }
{
    match text_at(value, name) {
        Some(found) => found == text,
        None => false,
    }
}

//! The entry with a number, which stands in its place.

ghost use Rattle.std.specs.Prelude.{◌≡◌, option_copied};
ghost use Rattle.cache_types.specs.Entries.{newest_first, entry_at};
ghost use Rattle.cache_types.specs.Legal.{IsLegal};

use cache_types::Entry;

/// The entry with this number.
pub fn entry_at(entries: &[Entry], number: u64) -> Option<&Entry>
    requires { IsLegal entries.now }
    ensures { option_copied result ≡ entry_at (newest_first entries.now) number }
{
    if number == 0 {
        return None;
    }
    let place = (number - 1) as usize;
    if place < entries.len() {
        Some(&entries[place])
    } else {
        None
    }
}

//! The lookups that were ended, and those that were closed.

ghost use Rattle.std.specs.Prelude.{◌≡◌, ◌&&◌, ◌||◌, ◌==◌, ℕ, true, is_some, OnOk};
ghost use Rattle.cache_waiters.specs.Endings.{ending_at, is_over, is_closed};

use std::alloc::{AllocError, Global};
use std::collections::BTreeMap;

/// What ended a lookup.
#[derive(Debug, Drop, Clone, Copy)]
pub struct Ending {
    /// An insertion, an update, a cancel or a close named it.
    pub over: bool,
    /// A close named it.
    pub closed: bool,
}

/// What ended each lookup, by its number.
pub type EndingMap = BTreeMap<u64, Ending>;

/// An insertion, an update, a cancel or a close named the lookup.
pub fn is_over(endings: &EndingMap, number: u64) -> bool
    ensures { result ≡ is_over endings.now number }
{
    match endings.get(&number) {
        Some(ending) => ending.over,
        None => false,
    }
}

/// A close named the lookup.
pub fn is_closed(endings: &EndingMap, number: u64) -> bool
    ensures { result ≡ is_closed endings.now number }
{
    match endings.get(&number) {
        Some(ending) => ending.closed,
        None => false,
    }
}

/// Makes room for the ending of this lookup.
pub fn make_room(endings: &mut EndingMap, number: u64) -> Result<(), AllocError>
    ensures over { (q : ℕ) → is_over endings.new q ≡ is_over endings.old q }
    ensures closed { (q : ℕ) → is_closed endings.new q ≡ is_closed endings.old q }
    ensures room { OnOk result (is_some (ending_at endings.new number) ≡ true) }
{
    if endings.get(&number).is_none() {
        let ending = Ending {
            over: false,
            closed: false,
        };
        endings.insert(number, ending)?;
    }
    Ok(())
}

/// The lookup is over, which has room for its ending; `closed` says that a close ended it.
pub fn tell(endings: &mut EndingMap, number: u64, closed: bool)
    requires { is_some (ending_at endings.old number) ≡ true }
    ensures over { (q : ℕ) → is_over endings.new q ≡ (number == q || is_over endings.old q) }
    ensures closed { (q : ℕ) → is_closed endings.new q ≡ ((number == q && closed) || is_closed endings.old q) }
{
    if let Some(ending) = endings.get_mut(&number) {
        ending.over = true;
        ending.closed = ending.closed || closed;
    }
}

//! One turn, step by step: it is claimed, the value is taken out and put back, the entry is counted, and the turn is given back.
ghost use Rattle.std.specs.Prelude.{◌≡◌, ℕ, ◌+◌, ◌<◌, List, [], ◌∷◌, length, MatchBool, Some, None, Option};
ghost use Rattle.turnstile.specs.Standing.{Fits, MayJoin, family_entries};
ghost use Rattle.turnstile.specs.Plays.{Won, Lost, Shares, IsReady, IsDone, IsEnded, HasServed};
ghost use Rattle.turnstile.specs.Rule.{IsOutside, IsTable, IsSameSeat};

use crate::standing::{Kept, Standing};
use crate::view::{Cells, Claim, Leave, LeaveIdle, Place, Publish};

// The words: the turn, and how many entries were added.
pub const TURN: usize = 0;

pub const COUNT: usize = 1;

pub const FREE: u64 = 0;

const HELD: u64 = 1;

// The slot of the value.
pub const VALUE: usize = 0;

/// Whether the seat has the turn now: where not, its one exchange found it held.
pub fn claim<T: Standing>(cells: &Cells<T>, seat: &mut Place<T>) -> bool
    requires table { IsTable cells.now.table_id seat.old.table_id }
    requires outside { IsOutside seat.old.me }
    ensures same { IsSameSeat seat.old seat.new }
    ensures told { MatchBool result (Won T.entries T.first (Fits T.setting T.first T.entries T.sound) T.family seat.old.me seat.new.me) (Lost T.entries T.first (Fits T.setting T.first T.entries T.sound) T.family seat.old.me seat.new.me) }
{
    cells.compare_exchange::<Claim<T>>(seat, TURN, FREE, HELD) == FREE
}

// The value that the seat has in the slot.
fn take_value<T: Standing>(cells: &Cells<T>, seat: &mut Place<T>) -> T
    requires table { seat.old.table_id ≡ cells.now.table_id }
    requires loaded { (x : T) × (seat.old.me.1 ≡ (0, Some x) ∷ []) }
    ensures same { IsSameSeat seat.old seat.new × (seat.new.me.0 ≡ seat.old.me.0) }
    ensures taken { (seat.old.me.1 ≡ (0, Some result) ∷ []) × (seat.new.me.1 ≡ (0, None) ∷ []) }
{
    match cells.exchange(seat, VALUE, None) {
        Some(value) => value,
        None => unreachable!(),
    }
}

fn put_value<T: Standing>(cells: &Cells<T>, seat: &mut Place<T>, value: T)
    requires table { seat.old.table_id ≡ cells.now.table_id }
    requires empty { seat.old.me.1 ≡ (0, None) ∷ [] }
    ensures same { IsSameSeat seat.old seat.new × (seat.new.me.0 ≡ seat.old.me.0) }
    ensures loaded { seat.new.me.1 ≡ (0, Some value) ∷ [] }
{
    match cells.exchange(seat, VALUE, Some(value)) {
        None => {}
        Some(_) => unreachable!(),
    }
}

// An entry that was added is counted, and the turn given back.
fn give_back<T: Standing>(cells: &Cells<T>, seat: &mut Place<T>, added: bool)
    requires table { IsTable cells.now.table_id seat.old.table_id }
    requires live { (0 < seat.old.me.0.parts) × (seat.old.me.0.start ≡ Some cells.now.key.value) }
    requires done { IsDone T.setting T.first T.entries T.sound T.family cells.now.key.value seat.old.me added }
    ensures same { IsSameSeat seat.old seat.new }
    ensures ended { IsEnded T.first T.entries T.family cells.now.key.value seat.old.me added seat.new.me }
    ensures shares { Shares T.entries T.first (Fits T.setting T.first T.entries T.sound) T.family seat.new.me.0 }
{
    if added {
        cells.fetch_add::<Publish<T>>(seat, COUNT, 1);
        cells.swap::<Leave<T>>(seat, TURN, FREE);
    } else {
        cells.swap::<LeaveIdle<T>>(seat, TURN, FREE);
    }
}

/// Serves a job, once, by a seat that has the turn, and gives the turn back.
pub fn serve<J, T: Kept<J>>(cells: &Cells<T>, seat: &mut Place<T>, job: &J) -> T::Answer
    requires table { IsTable cells.now.table_id seat.old.table_id }
    requires live { (0 < seat.old.me.0.parts) × (seat.old.me.0.start ≡ Some cells.now.key.value) }
    requires ready { IsReady T.setting T.first T.entries T.sound cells.now.key.value seat.old.me (λ x. T.asks job.now (family_entries T.family (T.joins job.now) (T.entries x))) }
    requires may { MayJoin T.family (T.joins job.now) seat.old.me.0.mine }
    ensures same { IsSameSeat seat.old seat.new }
    ensures served { HasServed T.first T.entries T.family (T.joins job.now) T.gives seat.old.me job.now result seat.new.me }
    ensures shares { Shares T.entries T.first (Fits T.setting T.first T.entries T.sound) T.family seat.new.me.0 }
{
    let mut value = take_value(cells, seat);
    let (answer, added) = value.serve(job);
    put_value(cells, seat, value);
    give_back(cells, seat, added);
    answer
}

//! Seats are cut in two, and put together.
ghost use Rattle.std.specs.Prelude.{◌≡◌, ℕ, ◌+◌, ◌-◌, ◌<◌, ◌≤◌, List, [], length};
ghost use mathlib.Core.List.{IsPrefix};
ghost use Rattle.turnstile.specs.Standing.{Fits};
ghost use Rattle.turnstile.specs.Rule.{IsOutside, IsTable, IsSameSeat};
ghost use Rattle.turnstile.specs.Plays.{Shares, kept_part, new_part, rejoined};

use crate::standing::Standing;
use crate::steps::TURN;
use crate::view::{Cells, Cut, Place, Portion, Settle, Together};

/// A new seat, with so many of the seat's parts.
pub fn cut<M: Portion, T: Standing>(cells: &Cells<T>, seat: &mut Place<T>, parts: u64) -> Place<T>
    requires table { IsTable cells.now.table_id seat.old.table_id }
    requires outside { IsOutside seat.old.me }
    requires portion { (parts ≡ M.portion) × (0 < parts) × (parts < seat.old.me.0.parts) }
    ensures same { IsSameSeat seat.old seat.new }
    ensures kept { seat.new.me ≡ (kept_part parts seat.old.me.0, []) }
    ensures new { (result.table_id ≡ seat.old.table_id) × (result.me ≡ (new_part parts seat.old.me.0, [])) }
{
    cells.split_seat::<Cut<M>>(seat)
}

/// The seat takes in the other. One load tells which had seen more.
pub fn join<T: Standing>(cells: &Cells<T>, seat: &mut Place<T>, other: Place<T>)
    requires table { IsTable cells.now.table_id seat.old.table_id }
    requires outside { IsOutside seat.old.me }
    requires other { (other.table_id ≡ cells.now.table_id) × IsOutside other.me }
    ensures same { IsSameSeat seat.old seat.new }
    ensures both { seat.new.me ≡ (rejoined seat.old.me.0 other.me.0, []) }
    ensures one_seen { IsPrefix seat.old.me.0.seen seat.new.me.0.seen }
    ensures other_seen { IsPrefix other.me.0.seen seat.new.me.0.seen }
    ensures shares { Shares T.entries T.first (Fits T.setting T.first T.entries T.sound) T.family seat.new.me.0 }
{
    cells.join_seat::<Together>(seat, other);
    cells.load::<Settle<T>>(seat, TURN);
}

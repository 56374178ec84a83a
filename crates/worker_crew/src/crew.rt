//! Workers side by side.
ghost use Rattle.std.specs.Prelude.{All};
ghost use Rattle.std.specs.Thread.{IsSync};
ghost use Rattle.worker_crew.specs.Pairs.{Each};

use std::sync::Wait;
use std::thread;
use std::thread::Threads;

/// What each worker does, from its own seat.
pub trait Duty<T> {
    /// The seat is fit for it.
    ghost can: { Self → T → Type 0 };

    /// The work was done: the seat before it and after it.
    ghost did: { Self → T → T → Type 0 };

    /// Works at one seat. It may wait.
    fn work<W: Wait>(&self, rt: &W, seat: &mut T)
        requires { can self.now seat.old }
        ensures { did self.now seat.old seat.new };
}

/// Does the duty at each seat, each in a thread of its own, and waits for all. Where a thread can't be started, the
/// caller's does the work.
pub fn run<R: Threads + Wait + Sync, T: Send, D: Duty<T> + Sync>(rt: &R, duty: &D, seats: &mut [T])
    requires can { All (D.can duty.now) seats.old }
    ensures did { Each (D.did duty.now) seats.old seats.new }
{
    let threads = seats.len();
    if threads == 0 {
        return;
    }
    let work = |_place: usize, seat: &mut T|
        requires { IsSync R.row × IsSync D.row × D.can duty.now seat.old }
        ensures { D.did duty.entry.now seat.old seat.new }
    { duty.work(rt, seat) };
    thread::for_each_mut(rt, seats, threads, &work);
}

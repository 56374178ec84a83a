//! Run files with their journals.

use crate::commands::exit_of;
use cache_core::CoreCache;
use cache_plain::PlainCache;
use cache_refusing::RefusingCache;
use edge_top::{Exit, journal_of, journal_over};
use run_files::read_run;
use std::test::Fail;

/// The greatest number of entries and live guests in a command.
const MOST: u64 = 1_000_000;

/// What is shown, the run file and its journal.
const ROWS: &str = "\
Nothing at all|\
edge-run 1\nsteps\nend\n|\
edge-journal 1\nend 0\n%\
A body that is read while it is written, to its declared length|\
edge-run 1\nguest\ninsert 6b max=10 len=2\nwrite @1 61\nwrite @1 62\nfinish @1\nguest\nlookup 6b\nread @1 0 9\nread @1 1 9\nread @1 2 9\nsteps\n0 1\n0 1\n0 1\n0 2\n0 2\n0 2\n0 2\n0 1\n0 2\n0 2\n0 1\n0 2\n0 1\n0 2\nend\n|\
edge-journal 1\n1 1 0 begin = begun\n2 1 0 insert 6b max=10 len=2 = made\n3 1 0 write 2 61 = done\n4 4 0 begin = begun\n5 4 0 lookup 6b = got 3 2 0 10 0 2 -\n6 4 0 read 5 0 9 = bytes 61\n7 1 0 write 2 62 = done\n8 4 0 read 5 1 9 = bytes 62\n9 1 0 finish 2 = done\n10 4 0 read 5 2 9 = ended\n11 1 0 end = done\n12 4 0 end = done\nguest 1 1\nc 1\nc 2\nc 3\nc 7\nc 9\nc 11\nover returned\nguest 2 4\nc 4\nc 5\nc 6\nc 8\nc 10\nc 12\nover returned\nend 12\n%\
A guest left without steps, and one that never began|\
edge-run 1\nguest\nlookup 6b\nguest\nlookup 6b\nsteps\n7 1\nend\n|\
edge-journal 1\n1 1 7 begin = begun\n2 1 7 end = done\nguest 1 1\nc 1\nc 2\nover unscheduled\nguest 2 0\nover unscheduled\nend 2\n%\
Abandoned|\
edge-run 1\nguest\ninsert 6b max=10\nwrite @1 61\nabandon @1\nguest\nlookup 6b\nread @1 0 9\nread @1 1 9\nlookup 6b\nsteps\n0 1\n0 1\n0 1\n0 2\n0 2\n0 2\n0 1\n0 2\n0 2\n0 1\n0 2\nend\n|\
edge-journal 1\n1 1 0 begin = begun\n2 1 0 insert 6b max=10 = made\n3 1 0 write 2 61 = done\n4 4 0 begin = begun\n5 4 0 lookup 6b = got 3 2 0 10 0 ? -\n6 4 0 read 5 0 9 = bytes 61\n7 1 0 abandon 2 = done\n8 4 0 read 5 1 9 = failed\n9 4 0 lookup 6b = got 0\n10 1 0 end = done\n11 4 0 end = done\nguest 1 1\nc 1\nc 2\nc 3\nc 7\nc 10\nover returned\nguest 2 4\nc 4\nc 5\nc 6\nc 8\nc 9\nc 11\nover returned\nend 11\n%\
Transfer|\
edge-run 1\nguest\ntxlookup 6b\ntxcancel @1\nguest\ntxlookup 6b\nsteps\n0 1\n0 1\n0 2\n0 2\n0 1\n0 2\n0 1\n0 2\nend\n|\
edge-journal 1\n1 1 0 begin = begun\n2 1 0 txlookup 6b = got 8\n3 3 0 begin = begun\n4 1 0 txcancel 2 = done\n5 3 0 txlookup 6b = got 8\n6 1 0 end = done\n7 3 0 end = done\nguest 1 1\nc 1\nc 2\nc 4\nc 6\nover returned\nguest 2 3\nc 3\nc 5\nc 7\nover returned\nend 7\n%\
A close frees, and is made once|\
edge-run 1\nguest\ntxlookup 6b\nclose @1\nclose @1\nguest\ntxlookup 6b\nsteps\n0 1\n0 1\n0 2\n0 2\n0 1\n0 2\n0 1\n0 1\n0 2\nend\n|\
edge-journal 1\n1 1 0 begin = begun\n2 1 0 txlookup 6b = got 8\n3 3 0 begin = begun\n4 1 0 close 2 = done\n5 3 0 txlookup 6b = got 8\n6 1 0 close 2 = refused\n7 1 0 end = done\n8 3 0 end = done\nguest 1 1\nc 1\nc 2\nc 4\nc 6\nc 7\nover returned\nguest 2 3\nc 3\nc 5\nc 8\nover returned\nend 8\n%\
End frees|\
edge-run 1\nguest\ntxlookup 6b\nguest\ntxlookup 6b\nsteps\n0 1\n0 1\n0 2\n0 2\n0 1\n0 2\nend\n|\
edge-journal 1\n1 1 0 begin = begun\n2 1 0 txlookup 6b = got 8\n3 3 0 begin = begun\n4 1 0 end = done\n5 3 0 txlookup 6b = got 8\n6 3 0 end = done\nguest 1 1\nc 1\nc 2\nc 4\nover returned\nguest 2 3\nc 3\nc 5\nc 6\nover unscheduled\nend 6\n%\
Vary|\
edge-run 1\nguest\ntxlookup 6b h=accept-language:6465\ntxinsert @1 max=10 vary=accept-language\nguest\ntxlookup 6b h=accept-language:6465\nguest\ntxlookup 6b h=accept-language:6672\nsteps\n0 1\n0 1\n0 2\n0 2\n0 3\n0 3\n0 1\n0 2\n0 3\nend\n|\
edge-journal 1\n1 1 0 begin = begun\n2 1 0 txlookup 6b h=accept-language:6465 = got 8\n3 3 0 begin = begun\n4 4 0 begin = begun\n5 1 0 txinsert 2 max=10 vary=accept-language = made\n6 3 0 txlookup 6b h=accept-language:6465 = got 3 5 0 10 0 ? -\n7 4 0 txlookup 6b h=accept-language:6672 = got 8\n8 1 0 end = done\n9 3 0 end = done\n10 4 0 end = done\nguest 1 1\nc 1\nc 2\nc 5\nc 8\nover unscheduled\nguest 2 3\nc 3\nc 6\nc 9\nover unscheduled\nguest 3 4\nc 4\nc 7\nc 10\nover unscheduled\nend 10\n%\
Ages|\
edge-run 1\nguest\ninsert 6b max=10 swr=5\nfinish @1\nlookup 6b\nlookup 6b\nlookup 6b\nlookup 6b\nsteps\n100 1\n100 1\n100 1\n109 1\n110 1\n114 1\n115 1\nend\n|\
edge-journal 1\n1 1 100 begin = begun\n2 1 100 insert 6b max=10 swr=5 = made\n3 1 100 finish 2 = done\n4 1 109 lookup 6b = got 3 2 9 10 5 0 -\n5 1 110 lookup 6b = got 7 2 10 10 5 0 -\n6 1 114 lookup 6b = got 7 2 14 10 5 0 -\n7 1 115 lookup 6b = got 5 2 15 10 5 0 -\n8 1 115 end = done\nguest 1 1\nc 1\nc 2\nc 3\nc 4\nc 5\nc 6\nc 7\nc 8\nover unscheduled\nend 8\n%\
Ages at 110|\
edge-run 1\nguest\ninsert 6b max=10 swr=5\nfinish @1\nguest\ntxlookup 6b\nguest\ntxlookup 6b\nsteps\n100 1\n100 1\n100 1\n110 2\n110 2\n110 3\n110 3\nend\n|\
edge-journal 1\n1 1 100 begin = begun\n2 1 100 insert 6b max=10 swr=5 = made\n3 1 100 finish 2 = done\n4 4 110 begin = begun\n5 4 110 txlookup 6b = got 15 2 10 10 5 0 -\n6 6 110 begin = begun\n7 6 110 txlookup 6b = got 7 2 10 10 5 0 -\n8 1 110 end = done\n9 4 110 end = done\n10 6 110 end = done\nguest 1 1\nc 1\nc 2\nc 3\nc 8\nover unscheduled\nguest 2 4\nc 4\nc 5\nc 9\nover unscheduled\nguest 3 6\nc 6\nc 7\nc 10\nover unscheduled\nend 10\n%\
Ages at 115|\
edge-run 1\nguest\ninsert 6b max=10 swr=5\nfinish @1\nguest\ntxlookup 6b\nguest\ntxlookup 6b\nsteps\n100 1\n100 1\n100 1\n115 2\n115 2\n115 3\n115 3\nend\n|\
edge-journal 1\n1 1 100 begin = begun\n2 1 100 insert 6b max=10 swr=5 = made\n3 1 100 finish 2 = done\n4 4 115 begin = begun\n5 4 115 txlookup 6b = got 13 2 15 10 5 0 -\n6 6 115 begin = begun\n7 1 115 end = done\n8 4 115 end = done\n9 6 115 end = done\nguest 1 1\nc 1\nc 2\nc 3\nc 7\nover unscheduled\nguest 2 4\nc 4\nc 5\nc 8\nover unscheduled\nguest 3 6\nc 6\nc 9\nover unscheduled\nend 9\n%\
Update|\
edge-run 1\nguest\ninsert 6b max=10 meta=6d\nwrite @1 6869\nfinish @1\ntxlookup 6b\ntxupdate @4 max=20\nlookup 6b\nread @6 0 9\nsteps\n100 1\n100 1\n100 1\n100 1\n115 1\n115 1\n115 1\n115 1\n115 1\nend\n|\
edge-journal 1\n1 1 100 begin = begun\n2 1 100 insert 6b max=10 meta=6d = made\n3 1 100 write 2 6869 = done\n4 1 100 finish 2 = done\n5 1 115 txlookup 6b = got 13 2 15 10 0 2 6d\n6 1 115 txupdate 5 max=20 = done\n7 1 115 lookup 6b = got 3 2 0 20 0 2 -\n8 1 115 read 7 0 9 = bytes 6869\n9 1 115 end = done\nguest 1 1\nc 1\nc 2\nc 3\nc 4\nc 5\nc 6\nc 7\nc 8\nc 9\nover returned\nend 9\n%\
Purge|\
edge-run 1\nguest\ninsert 6b max=10 sur=7331\nwrite @1 61\npurge 7331 soft\nlookup 6b\npurge 7331 hard\nlookup 6b\nfinish @1\nread @4 0 9\nread @4 1 9\nsteps\n0 1\n0 1\n0 1\n0 1\n0 1\n0 1\n0 1\n0 1\n0 1\n0 1\n0 1\nend\n|\
edge-journal 1\n1 1 0 begin = begun\n2 1 0 insert 6b max=10 sur=7331 = made\n3 1 0 write 2 61 = done\n4 1 0 purge 7331 soft = done\n5 1 0 lookup 6b = got 7 2 0 10 0 ? -\n6 1 0 purge 7331 hard = done\n7 1 0 lookup 6b = got 0\n8 1 0 finish 2 = done\n9 1 0 read 5 0 9 = bytes 61\n10 1 0 read 5 1 9 = ended\n11 1 0 end = done\nguest 1 1\nc 1\nc 2\nc 3\nc 4\nc 5\nc 6\nc 7\nc 8\nc 9\nc 10\nc 11\nover returned\nend 11\n%\
Clock|\
edge-run 1\nguest\ninsert 6b max=18446744073709551615 swr=18446744073709551615\nlookup 6b\nsteps\n100 1\n100 1\n90 1\nend\n|\
edge-journal 1\n1 1 100 begin = begun\n2 1 100 insert 6b max=18446744073709551615 swr=18446744073709551615 = made\n3 1 100 lookup 6b = got 3 2 0 18446744073709551615 18446744073709551615 ? -\n4 1 100 end = done\nguest 1 1\nc 1\nc 2\nc 3\nc 4\nover unscheduled\nend 4\n%\
Clock at most|\
edge-run 1\nguest\ninsert 6b max=18446744073709551615 age=18446744073709551615 swr=1\nlookup 6b\nsteps\n100 1\n100 1\n200 1\nend\n|\
edge-journal 1\n1 1 100 begin = begun\n2 1 100 insert 6b max=18446744073709551615 age=18446744073709551615 swr=1 = made\n3 1 200 lookup 6b = got 7 2 18446744073709551615 18446744073709551615 1 ? -\n4 1 200 end = done\nguest 1 1\nc 1\nc 2\nc 3\nc 4\nover unscheduled\nend 4\n%\
Own names|\
edge-run 1\nguest\ntxlookup 6b\ntxinsert @1 max=1\ntxinsert @1 max=1\nguest\ntxinsert #2 max=1\ntxcancel #2\nclose #2\nread #2 0 1\nwrite #99 61\nsteps\n0 1\n0 1\n0 2\n0 2\n0 2\n0 2\n0 2\n0 2\n0 1\n0 1\nend\n|\
edge-journal 1\n1 1 0 begin = begun\n2 1 0 txlookup 6b = got 8\n3 3 0 begin = begun\n4 3 0 txinsert 2 max=1 = refused\n5 3 0 txcancel 2 = refused\n6 3 0 close 2 = refused\n7 3 0 read 2 0 1 = refused\n8 3 0 write 99 61 = refused\n9 1 0 txinsert 2 max=1 = made\n10 1 0 txinsert 2 max=1 = refused\n11 1 0 end = done\n12 3 0 end = done\nguest 1 1\nc 1\nc 2\nc 9\nc 10\nc 11\nover unscheduled\nguest 2 3\nc 3\nc 4\nc 5\nc 6\nc 7\nc 8\nc 12\nover unscheduled\nend 12\n%\
Length|\
edge-run 1\nguest\ninsert 6b max=9 len=3\nwrite @1 61626364\nwrite @1 6162\nfinish @1\nlookup 6b\nwrite @1 63\nfinish @1\nsteps\n0 1\n0 1\n0 1\n0 1\n0 1\n0 1\n0 1\n0 1\n0 1\nend\n|\
edge-journal 1\n1 1 0 begin = begun\n2 1 0 insert 6b max=9 len=3 = made\n3 1 0 write 2 61626364 = toolong\n4 1 0 write 2 6162 = done\n5 1 0 finish 2 = short\n6 1 0 lookup 6b = got 0\n7 1 0 write 2 63 = refused\n8 1 0 finish 2 = refused\n9 1 0 end = done\nguest 1 1\nc 1\nc 2\nc 3\nc 4\nc 5\nc 6\nc 7\nc 8\nc 9\nover returned\nend 9\n%\
Superseded|\
edge-run 1\nguest\ninsert 6b max=9\nfinish @1\ninsert 6b max=9\nabandon @3\nlookup 6b\nsteps\n0 1\n0 1\n0 1\n0 1\n0 1\n0 1\n0 1\nend\n|\
edge-journal 1\n1 1 0 begin = begun\n2 1 0 insert 6b max=9 = made\n3 1 0 finish 2 = done\n4 1 0 insert 6b max=9 = made\n5 1 0 abandon 4 = done\n6 1 0 lookup 6b = got 0\n7 1 0 end = done\nguest 1 1\nc 1\nc 2\nc 3\nc 4\nc 5\nc 6\nc 7\nover returned\nend 7\n";

#[test]
fn journals_are_written(rt: HostRuntime) -> Result<(), Fail> {
    for row in ROWS.split('%') {
        let (name, rest) = row.split_once('|').ok_or("no name")?;
        let (text, journal) = rest.split_once('|').ok_or("no journal")?;
        let (exit, written) = exit_of(&rt, "script a", text.as_bytes(), "")?;
        assert!(rt; exit == Exit::Ok, "{name}");
        assert!(rt; written.as_slice() == journal.as_bytes(), "{name}");
        let run = read_run(rt.alloc(), text.as_bytes()).map_err(|_| "no run")?;
        let plain = journal_over(rt.alloc(), PlainCache::new(rt.alloc(), MOST), &run)?;
        assert!(rt;
            plain.bytes() == journal.as_bytes(),
            "{name}, over the plain cache"
        );
    }
    Ok(())
}

/// Guests that are stopped because the history is full, or aren't: the room is for four entries and live guests.
const FULL: &str = "\
In the middle of its lines, and before its Begin|\
edge-run 1\nguest\nlookup 6b\nlookup 6b\nlookup 6b\nguest\nlookup 6b\nsteps\n0 1\n0 1\n0 1\n5 1\n5 1\n5 2\nend\n|\
edge-journal 1\n1 1 0 begin = begun\n2 1 0 lookup 6b = got 0\n3 1 0 lookup 6b = got 0\n4 1 5 end = done\nguest 1 1\nc 1\nc 2\nc 3\nc 4\nover full\nguest 2 0\nover full\nend 4\n%\
Not by guests that are over|\
edge-run 1\nguest\nguest\nsteps\n0 1\n0 1\n0 2\n0 2\nend\n|\
edge-journal 1\n1 1 0 begin = begun\n2 1 0 end = done\n3 3 0 begin = begun\n4 3 0 end = done\nguest 1 1\nc 1\nc 2\nover returned\nguest 2 3\nc 3\nc 4\nover returned\nend 4\n";

#[test]
fn a_full_history_stops_guests(rt: HostRuntime) -> Result<(), Fail> {
    for row in FULL.split('%') {
        let (name, rest) = row.split_once('|').ok_or("no name")?;
        let (text, wanted) = rest.split_once('|').ok_or("no journal")?;
        let run = read_run(rt.alloc(), text.as_bytes()).map_err(|_| "no run")?;
        let journal = journal_of(rt.alloc(), 4, &run)?;
        assert!(rt; journal.bytes() == wanted.as_bytes(), "{name}");
        let plain = journal_over(rt.alloc(), PlainCache::new(rt.alloc(), 4), &run)?;
        assert!(rt;
            plain.bytes() == wanted.as_bytes(),
            "{name}, over the plain cache"
        );
    }
    Ok(())
}

/// A guest whose transaction is awaited finds no memory to cancel it: the fifth step that is no end, one that waits among
/// them.
const WANTING: &str = "\
edge-run 1\nguest\ntxlookup 6b\ntxcancel @1\nguest\ntxlookup 6b\nsteps\n0 1\n0 1\n0 2\n0 2\n0 1\n0 2\n0 1\n0 2\nend\n|\
edge-journal 1\n1 1 0 begin = begun\n2 1 0 txlookup 6b = got 8\n3 3 0 begin = begun\n4 1 0 end = done\n5 3 0 txlookup 6b = got 8\n6 3 0 end = done\nguest 1 1\nc 1\nc 2\nc 4\nover memory\nguest 2 3\nc 3\nc 5\nc 6\nover returned\nend 6\n";

#[test]
fn want_of_memory_stops_a_guest(rt: HostRuntime) -> Result<(), Fail> {
    let (text, wanted) = WANTING.split_once('|').ok_or("no journal")?;
    let run = read_run(rt.alloc(), text.as_bytes()).map_err(|_| "no run")?;
    let core = RefusingCache::new(CoreCache::new(rt.alloc(), MOST), 5);
    let journal = journal_over(rt.alloc(), core, &run)?;
    assert!(rt; journal.bytes() == wanted.as_bytes());
    let plain = RefusingCache::new(PlainCache::new(rt.alloc(), MOST), 5);
    let journal = journal_over(rt.alloc(), plain, &run)?;
    assert!(rt;
        journal.bytes() == wanted.as_bytes(),
        "over the plain cache"
    );
    Ok(())
}

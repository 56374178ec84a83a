//! Journals there and back, what their words mean, and the first bad line of broken ones.

use crate::{RunFault, journal_text, read_journal};
use std::alloc::{AllocError, Global};
use std::test::Fail;

/// The journal of an empty run.
const EMPTY: &str = "edge-journal 1\nend 0\n";

/// A journal of every call, reply, event and outcome.
const WHOLE: &str = "\
edge-journal 1\n\
1 1 0 begin = begun\n\
2 1 0 lookup 6b = got 0\n\
3 1 5 lookup 6b h=accept:- h=b:6869 = got 3 2 0 10 0 ? -\n\
4 1 5 txlookup 6b = got 255 2 1 10 5 7 6d\n\
5 1 6 insert 6b max=10 = made\n\
6 1 6 insert 6b max=10 age=1 swr=5 sur=7331,7332 meta=6d vary=a,b len=3 h=accept:- = made\n\
7 1 6 txinsert 4 max=0 len=0 = made\n\
8 1 6 txupdate 4 max=18446744073709551615 = done\n\
9 1 6 txcancel 4 = refused\n\
10 1 6 close 4 = done\n\
11 1 6 write 5 - = short\n\
12 1 6 write 5 6869 = toolong\n\
13 1 6 finish 5 = done\n\
14 1 6 abandon 5 = done\n\
15 1 6 read 3 0 65536 = bytes 6869\n\
16 1 6 read 3 2 1 = ended\n\
17 1 7 read 3 2 1 = failed\n\
18 1 7 purge 7331 hard = done\n\
19 1 7 purge 7331 soft = bytes -\n\
0 18446744073709551615 0 end = done\n\
guest 0 1\n\
c 1\n\
now 4294967295 18446744073709551615\n\
start 61 - = 1\n\
start - 72 = failed\n\
poll 1 = wait\n\
poll 1 = ready 68\n\
poll 1 = failed\n\
wait 1 = ready -\n\
wait 1 = failed\n\
any 1 = 0\n\
any 2,1,18446744073709551615 = 4294967295\n\
head 68\n\
piece -\n\
close whole\n\
close cut\n\
log 65 6c\n\
over returned\n\
guest 1 0\n\
over exited 4294967295\n\
guest 2 0\n\
over trapped unreachable\n\
guest 3 0\n\
over trapped divide\n\
guest 4 0\n\
over trapped overflow\n\
guest 5 0\n\
over trapped bounds\n\
guest 6 0\n\
over trapped table\n\
guest 7 0\n\
over trapped null\n\
guest 8 0\n\
over trapped indirect\n\
guest 9 0\n\
over trapped stack\n\
guest 10 0\n\
over trapped segment\n\
guest 11 0\n\
over fuel\n\
guest 12 0\n\
over timeout 0 9\n\
guest 13 0\n\
over full\n\
guest 14 0\n\
over gone\n\
guest 15 0\n\
over unscheduled\n\
guest 18446744073709551615 0\n\
over memory\n\
end 20\n\
";

/// Journals with one mistake each, behind the first line that can't stand where it stands. A bar stands for a line feed.
const BROKEN: &str = "\
1\x20\n\
1 |\n\
1 edge-journal 2|end 0|\n\
1 edge-journal 1 |end 0|\n\
1 edge-journal 1\n\
2 edge-journal 1|\n\
2 edge-journal 1||end 0|\n\
2 edge-journal 1|end|\n\
2 edge-journal 1|end 1|\n\
2 edge-journal 1|end 00|\n\
2 edge-journal 1|end 0\n\
3 edge-journal 1|end 0||\n\
3 edge-journal 1|end 0|end 0|\n\
2 edge-journal 1|1 1 0 begin|end 1|\n\
2 edge-journal 1|1 1 0 begin = |end 1|\n\
2 edge-journal 1|1 1 0 begin = begun |end 1|\n\
2 edge-journal 1|1 1 0 begin  = begun|end 1|\n\
2 edge-journal 1|01 1 0 begin = begun|end 1|\n\
2 edge-journal 1|18446744073709551616 1 0 begin = begun|end 1|\n\
2 edge-journal 1|1 1 begin = begun|end 1|\n\
2 edge-journal 1|1 1 0 start = begun|end 1|\n\
2 edge-journal 1|1 1 0 begin = wait|end 1|\n\
2 edge-journal 1|1 1 0 begin = got|end 1|\n\
2 edge-journal 1|1 1 0 begin = got 256|end 1|\n\
2 edge-journal 1|1 1 0 begin = got 1 2|end 1|\n\
2 edge-journal 1|1 1 0 begin = got 1 2 0 10 0 - -|end 1|\n\
2 edge-journal 1|1 1 0 begin = got 1 2 0 10 0 ? - -|end 1|\n\
2 edge-journal 1|1 1 0 begin = bytes|end 1|\n\
2 edge-journal 1|1 1 0 begin = bytes 6|end 1|\n\
3 edge-journal 1|1 1 0 begin = begun|end 0|\n\
4 edge-journal 1|1 1 0 begin = begun|2 1 0 end = done|2 1 0 end = done done|end 3|\n\
2 edge-journal 1|over returned|end 0|\n\
2 edge-journal 1|guest 1|over returned|end 0|\n\
2 edge-journal 1|guest 1 0 |over returned|end 0|\n\
3 edge-journal 1|guest 1 0|end 0|\n\
3 edge-journal 1|guest 1 0|guest 2 0|over returned|end 0|\n\
3 edge-journal 1|guest 1 0|over|end 0|\n\
3 edge-journal 1|guest 1 0|over exited|end 0|\n\
3 edge-journal 1|guest 1 0|over exited 4294967296|end 0|\n\
3 edge-journal 1|guest 1 0|over trapped|end 0|\n\
3 edge-journal 1|guest 1 0|over trapped Stack|end 0|\n\
3 edge-journal 1|guest 1 0|over timeout 1|end 0|\n\
3 edge-journal 1|guest 1 0|over returned 0|end 0|\n\
3 edge-journal 1|guest 1 0|c|over returned|end 0|\n\
4 edge-journal 1|guest 1 0|c 1|c 1 2|over returned|end 0|\n\
3 edge-journal 1|guest 1 0|now 4294967296 0|over returned|end 0|\n\
3 edge-journal 1|guest 1 0|now 0 = 0|over returned|end 0|\n\
3 edge-journal 1|guest 1 0|start 61 = 1|over returned|end 0|\n\
3 edge-journal 1|guest 1 0|start 61 62 1|over returned|end 0|\n\
3 edge-journal 1|guest 1 0|start 61 62 = wait|over returned|end 0|\n\
3 edge-journal 1|guest 1 0|poll 1 = 2|over returned|end 0|\n\
3 edge-journal 1|guest 1 0|wait 1 = wait|over returned|end 0|\n\
3 edge-journal 1|guest 1 0|any = 0|over returned|end 0|\n\
3 edge-journal 1|guest 1 0|any 1, = 0|over returned|end 0|\n\
3 edge-journal 1|guest 1 0|any 1,02 = 0|over returned|end 0|\n\
3 edge-journal 1|guest 1 0|any 1,2 = 4294967296|over returned|end 0|\n\
3 edge-journal 1|guest 1 0|piece 6B|over returned|end 0|\n\
3 edge-journal 1|guest 1 0|close half|over returned|end 0|\n\
3 edge-journal 1|guest 1 0|log 61|over returned|end 0|\n\
3 edge-journal 1|guest 1 0|txcancel 1 = done|over returned|end 0|\n\
4 edge-journal 1|guest 1 0|over returned|\n\
4 edge-journal 1|guest 1 0|over returned|end 1|\n\
4 edge-journal 1|guest 1 0|over returned|1 1 0 begin = begun|end 1|\n\
4 edge-journal 1|guest 1 0|over returned|guest 1 0|over returned|end 0|\n\
4 edge-journal 1|guest 2 0|over returned|guest 1 0|over returned|end 0|";

/// Lines of journals and what they say, in the debug form of the value. A bar stands for a line feed.
const MEANINGS: &str = "\
7 1 100 begin = begun|end 1;call: Begin, reply: Begun\n\
7 1 100 end = made|end 1;call: End, reply: Made\n\
7 1 100 txcancel 4 = done|end 1;call: TxCancel { tx: 4 }, reply: Done\n\
7 1 100 close 4 = refused|end 1;call: Close { tx: 4 }, reply: Refused\n\
7 1 100 finish 4 = short|end 1;call: Finish { object: 4 }, reply: Short\n\
7 1 100 abandon 4 = toolong|end 1;call: Abandon { object: 4 }, reply: TooLong\n\
7 1 100 read 4 5 6 = ended|end 1;call: Read { hit: 4, place: 5, most: 6 }, reply: Ended\n\
7 1 100 read 4 5 6 = failed|end 1;call: Read { hit: 4, place: 5, most: 6 }, reply: Failed\n\
7 1 100 read 4 5 6 = bytes 68|end 1;reply: Bytes(\n\
7 1 100 lookup 6b = got 3|end 1;reply: Got { bits: 3, hit: None }\n\
7 1 100 lookup 6b = got 0 1 2 3 4 ? -|end 1;Hit { object: 1, age: 2, max_age: 3, stale: 4, length: None,\n\
7 1 100 lookup 6b = got 0 1 2 3 4 5 -|end 1;length: Some(5)\n\
7 1 100 lookup 6b = done|end 1;call: Lookup {\n\
7 1 100 txlookup 6b = done|end 1;call: TxLookup {\n\
7 1 100 insert 6b max=1 age=2 swr=3 = done|end 1;call: Insert {\n\
7 1 100 txinsert 4 max=1 age=2 swr=3 len=5 = done|end 1;max_age: 1, initial_age: 2, stale: 3,\n\
7 1 100 txupdate 4 max=1 = done|end 1;call: TxUpdate { tx: 4,\n\
7 1 100 write 4 - = done|end 1;call: Write { object: 4,\n\
7 1 100 purge 73 soft = done|end 1;soft: true\n\
7 1 100 purge 73 hard = done|end 1;soft: false\n\
guest 7 9|over returned|end 0;index: 7, guest: 9,\n\
guest 7 9|c 5|over exited 3|end 0;Entry(5)\n\
guest 7 9|now 1 2|over exited 3|end 0;call: Now { clock: 1 }, reply: Now(2)\n\
guest 7 9|start 61 - = 4|over exited 3|end 0;reply: Started(4)\n\
guest 7 9|start 61 - = failed|over exited 3|end 0;call: Start {\n\
guest 7 9|poll 4 = wait|over exited 3|end 0;call: Poll { ticket: 4 }, reply: NotReady\n\
guest 7 9|poll 4 = ready 68|over exited 3|end 0;call: Poll { ticket: 4 }, reply: Ready(\n\
guest 7 9|wait 4 = failed|over exited 3|end 0;call: WaitFor { ticket: 4 }, reply: LinkFailed\n\
guest 7 9|any 4,5 = 1|over exited 3|end 0;reply: Index(1)\n\
guest 7 9|head 68|over exited 3|end 0;call: Head {\n\
guest 7 9|piece 68|over exited 3|end 0;call: Piece {\n\
guest 7 9|close whole|over exited 3|end 0;call: Close { whole: true }, reply: Sent\n\
guest 7 9|close cut|over exited 3|end 0;call: Close { whole: false }, reply: Sent\n\
guest 7 9|log 65 6c|over exited 3|end 0;call: Log { endpoint:\n\
guest 7 9|over returned|end 0;outcome: Returned\n\
guest 7 9|over exited 3|end 0;outcome: Exited(3)\n\
guest 7 9|over trapped unreachable|end 0;outcome: Trapped(Unreachable)\n\
guest 7 9|over trapped divide|end 0;outcome: Trapped(DivideByZero)\n\
guest 7 9|over trapped overflow|end 0;outcome: Trapped(Overflow)\n\
guest 7 9|over trapped bounds|end 0;outcome: Trapped(OutOfBounds)\n\
guest 7 9|over trapped table|end 0;outcome: Trapped(TableBounds)\n\
guest 7 9|over trapped null|end 0;outcome: Trapped(NullElement)\n\
guest 7 9|over trapped indirect|end 0;outcome: Trapped(IndirectType)\n\
guest 7 9|over trapped stack|end 0;outcome: Trapped(StackFull)\n\
guest 7 9|over trapped segment|end 0;outcome: Trapped(Segment)\n\
guest 7 9|over fuel|end 0;outcome: OutOfFuel\n\
guest 7 9|over timeout 1 9|end 0;outcome: Timeout { first: 1, reading: 9 }\n\
guest 7 9|over full|end 0;outcome: HistoryFull\n\
guest 7 9|over gone|end 0;outcome: ClientGone\n\
guest 7 9|over unscheduled|end 0;outcome: Unscheduled\n\
guest 7 9|over memory|end 0;outcome: OutOfMemory";

/// The text with line feeds in the place of its bars.
fn with_lines(alloc: Global, text: &str) -> Result<Vec<u8>, AllocError> {
    let mut bytes = Vec::new(alloc);
    for byte in text.as_bytes() {
        bytes.push(if *byte == b'|' { b'\n' } else { *byte })?;
    }
    Ok(bytes)
}

#[test]
fn journals_go_there_and_back(rt: HostRuntime) -> Result<(), Fail> {
    let alloc = rt.alloc();
    for text in [EMPTY, WHOLE] {
        let journal = read_journal(alloc, text.as_bytes())
            .ok()
            .ok_or("no journal")?;
        let again = journal_text(alloc, &journal.history, journal.guests.items())?;
        assert_eq!(rt; again.bytes(), text.as_bytes());
    }
    Ok(())
}

#[test]
fn words_have_meanings(rt: HostRuntime) -> Result<(), Fail> {
    let alloc = rt.alloc();
    for row in MEANINGS.split('\n') {
        let (line, want) = row.split_once(';').ok_or("no row")?;
        let text = format!(in alloc; "edge-journal 1|{line}|")?;
        let bytes = with_lines(alloc, text.as_str())?;
        let journal = read_journal(alloc, &bytes).ok().ok_or("no journal")?;
        let value = format!(in alloc; "{journal:?}")?;
        assert!(rt; value.as_str().contains(want), "{row}");
    }
    Ok(())
}

#[test]
fn the_first_bad_line_is_told(rt: HostRuntime) -> Result<(), Fail> {
    let alloc = rt.alloc();
    for row in BROKEN.split('\n') {
        let (line, text) = row.split_once(' ').ok_or("no row")?;
        let line = line.parse::<u32>().ok().ok_or("no line")?;
        let bytes = with_lines(alloc, text)?;
        let fault = read_journal(alloc, &bytes).err();
        assert_eq!(rt; fault, Some(RunFault::Line(line)), "{row}");
    }
    Ok(())
}

//! Guests of one module by a schedule, as `play` runs them, with their whole journals. What each guest does is the body of its
//! request, which `scripted.rt` spells out.

use crate::scripted::SCRIPTED;
use edge_outside::{MemFiles, MemSink, NamedFile, NoLink};
use edge_top::{Exit, host};
use std::alloc::{AllocError, Global};
use std::test::Fail;

/// The heads of answers with the body `hi`.
const WHOLE_HEAD: &str = "HTTP/1.1 200 OK\r\ncontent-length: 2\r\nconnection: close\r\n\r\n";

const STREAMED_HEAD: &str =
    "HTTP/1.1 200 OK\r\ntransfer-encoding: chunked\r\nconnection: close\r\n\r\n";

/// Settings of a backend that nobody asks, and tables that are passed over.
const SETTINGS: &[u8] =
    b"name = \"rows\"\n[local_server.backends.origin]\nurl = \"http://localhost:8080\"\n[local_server.other]\nkey = 1\n[scripts]\nbuild = \"true\"\n";

/// What is shown; the guests' scripts, with a comma between two; the schedule: a reading, and the guests that step at it; and
/// the journal, in which `WHOLE` and `STREAMED` stand for the heads of answers.
const ROWS: &str = "\
Nobody|||edge-journal 1\nend 0\n%\
An object that its guest reads back|\
10mI=42W=F=L=B=10R2=10R0=|100 11111111|\
edge-journal 1\n1 1 100 begin = begun\n2 1 100 insert 6b max=10 = made\n3 1 100 write 2 6869 = done\n4 1 100 finish 2 = done\n5 1 100 lookup 6b = got 3 2 0 10 0 2 -\n6 1 100 read 5 0 10 = bytes 6869\n7 1 100 read 5 2 10 = ended\n8 1 100 end = done\nguest 1 1\nc 1\nc 2\nc 3\nc 4\nc 5\nc 6\nc 7\nc 8\nover returned\nend 8\n%\
With a step less, its end isn't its own|\
10mI=42W=F=L=B=10R2=10R0=|100 1111111|\
edge-journal 1\n1 1 100 begin = begun\n2 1 100 insert 6b max=10 = made\n3 1 100 write 2 6869 = done\n4 1 100 finish 2 = done\n5 1 100 lookup 6b = got 3 2 0 10 0 2 -\n6 1 100 read 5 0 10 = bytes 6869\n7 1 100 read 5 2 10 = ended\n8 1 100 end = done\nguest 1 1\nc 1\nc 2\nc 3\nc 4\nc 5\nc 6\nc 7\nc 8\nover unscheduled\nend 8\n%\
With two steps less, its last read is missing|\
10mI=42W=F=L=B=10R2=10R0=|100 111111|\
edge-journal 1\n1 1 100 begin = begun\n2 1 100 insert 6b max=10 = made\n3 1 100 write 2 6869 = done\n4 1 100 finish 2 = done\n5 1 100 lookup 6b = got 3 2 0 10 0 2 -\n6 1 100 read 5 0 10 = bytes 6869\n7 1 100 end = done\nguest 1 1\nc 1\nc 2\nc 3\nc 4\nc 5\nc 6\nc 7\nover unscheduled\nend 7\n%\
Streaming|\
10mI=01W=11W=F=,L=B=9R1=9R1=9R0=|0 11122221221212|\
edge-journal 1\n1 1 0 begin = begun\n2 1 0 insert 6b max=10 = made\n3 1 0 write 2 61 = done\n4 4 0 begin = begun\n5 4 0 lookup 6b = got 3 2 0 10 0 ? -\n6 4 0 read 5 0 9 = bytes 61\n7 1 0 write 2 62 = done\n8 4 0 read 5 1 9 = bytes 62\n9 1 0 finish 2 = done\n10 4 0 read 5 2 9 = ended\n11 1 0 end = done\n12 4 0 end = done\nguest 1 1\nc 1\nc 2\nc 3\nc 7\nc 9\nc 11\nover returned\nguest 2 4\nc 4\nc 5\nc 6\nc 8\nc 10\nc 12\nover returned\nend 12\n%\
Abandoned|\
10mI=01W=A=,L=B=9R1=9R101=L=G0=|0 11122212212|\
edge-journal 1\n1 1 0 begin = begun\n2 1 0 insert 6b max=10 = made\n3 1 0 write 2 61 = done\n4 4 0 begin = begun\n5 4 0 lookup 6b = got 3 2 0 10 0 ? -\n6 4 0 read 5 0 9 = bytes 61\n7 1 0 abandon 2 = done\n8 4 0 read 5 1 9 = failed\n9 4 0 lookup 6b = got 0\n10 1 0 end = done\n11 4 0 end = done\nguest 1 1\nc 1\nc 2\nc 3\nc 7\nc 10\nover returned\nguest 2 4\nc 4\nc 5\nc 6\nc 8\nc 9\nc 11\nover returned\nend 11\n%\
Transfer|\
T=G8=X=,T=G8=|0 11221212|\
edge-journal 1\n1 1 0 begin = begun\n2 1 0 txlookup 6b = got 8\n3 3 0 begin = begun\n4 1 0 txcancel 2 = done\n5 3 0 txlookup 6b = got 8\n6 1 0 end = done\n7 3 0 end = done\nguest 1 1\nc 1\nc 2\nc 4\nc 6\nover returned\nguest 2 3\nc 3\nc 5\nc 7\nover returned\nend 7\n%\
The end frees|\
T=,T=G8=|0 112212|\
edge-journal 1\n1 1 0 begin = begun\n2 1 0 txlookup 6b = got 8\n3 3 0 begin = begun\n4 1 0 end = done\n5 3 0 txlookup 6b = got 8\n6 3 0 end = done\nguest 1 1\nc 1\nc 2\nc 4\nover returned\nguest 2 3\nc 3\nc 5\nc 6\nover unscheduled\nend 6\n%\
So does that of one that traps|\
T=Z,T=G8=|0 112212|\
edge-journal 1\n1 1 0 begin = begun\n2 1 0 txlookup 6b = got 8\n3 3 0 begin = begun\n4 1 0 end = done\n5 3 0 txlookup 6b = got 8\n6 3 0 end = done\nguest 1 1\nc 1\nc 2\nc 4\nover trapped unreachable\nguest 2 3\nc 3\nc 5\nc 6\nover unscheduled\nend 6\n%\
Of one that exits|\
T=7E,T=G8=|0 112212|\
edge-journal 1\n1 1 0 begin = begun\n2 1 0 txlookup 6b = got 8\n3 3 0 begin = begun\n4 1 0 end = done\n5 3 0 txlookup 6b = got 8\n6 3 0 end = done\nguest 1 1\nc 1\nc 2\nc 4\nover exited 7\nguest 2 3\nc 3\nc 5\nc 6\nover unscheduled\nend 6\n%\
Of one that is out of fuel|\
T=S,T=G8=|0 112212|\
edge-journal 1\n1 1 0 begin = begun\n2 1 0 txlookup 6b = got 8\n3 3 0 begin = begun\n4 1 0 end = done\n5 3 0 txlookup 6b = got 8\n6 3 0 end = done\nguest 1 1\nc 1\nc 2\nc 4\nover fuel\nguest 2 3\nc 3\nc 5\nc 6\nover unscheduled\nend 6\n%\
A trap with an insertion that nothing was written to|\
T=10mJ=Z,T=G3=B=9R101=T=G8=|0 1122122122|\
edge-journal 1\n1 1 0 begin = begun\n2 1 0 txlookup 6b = got 8\n3 3 0 begin = begun\n4 1 0 txinsert 2 max=10 = made\n5 3 0 txlookup 6b = got 3 4 0 10 0 ? -\n6 1 0 end = done\n7 3 0 read 5 0 9 = failed\n8 3 0 txlookup 6b = got 8\n9 3 0 end = done\nguest 1 1\nc 1\nc 2\nc 4\nc 6\nover trapped unreachable\nguest 2 3\nc 3\nc 5\nc 7\nc 8\nc 9\nover unscheduled\nend 9\n%\
A trap with an unfinished body|\
T=10mJ=01W=Z,T=G3=B=9R1=9R101=T=G8=|0 112211222122|\
edge-journal 1\n1 1 0 begin = begun\n2 1 0 txlookup 6b = got 8\n3 3 0 begin = begun\n4 1 0 txinsert 2 max=10 = made\n5 1 0 write 4 61 = done\n6 3 0 txlookup 6b = got 3 4 0 10 0 ? -\n7 3 0 read 6 0 9 = bytes 61\n8 1 0 end = done\n9 3 0 read 6 1 9 = failed\n10 3 0 txlookup 6b = got 8\n11 3 0 end = done\nguest 1 1\nc 1\nc 2\nc 4\nc 5\nc 8\nover trapped unreachable\nguest 2 3\nc 3\nc 6\nc 7\nc 9\nc 10\nc 11\nover unscheduled\nend 11\n%\
A goal that its guest holds itself|\
T=T=|0 111111|\
edge-journal 1\n1 1 0 begin = begun\n2 1 0 txlookup 6b = got 8\n3 1 0 end = done\nguest 1 1\nc 1\nc 2\nc 3\nover unscheduled\nend 3\n%\
Vary|\
0hT=G8=10mvJ=,0hT=G3=,1hT=G8=|0 112233123|\
edge-journal 1\n1 1 0 begin = begun\n2 1 0 txlookup 6b h=accept-language:6465 = got 8\n3 3 0 begin = begun\n4 4 0 begin = begun\n5 1 0 txinsert 2 max=10 vary=accept-language = made\n6 3 0 txlookup 6b h=accept-language:6465 = got 3 5 0 10 0 ? -\n7 4 0 txlookup 6b h=accept-language:6672 = got 8\n8 1 0 end = done\n9 3 0 end = done\n10 4 0 end = done\nguest 1 1\nc 1\nc 2\nc 5\nc 8\nover unscheduled\nguest 2 3\nc 3\nc 6\nc 9\nover unscheduled\nguest 3 4\nc 4\nc 7\nc 10\nover unscheduled\nend 10\n%\
Ages|\
10m5sI=F=L=G3=L=G7=L=G7=L=G5=|100 111 109 1 110 1 114 1 115 1|\
edge-journal 1\n1 1 100 begin = begun\n2 1 100 insert 6b max=10 swr=5 = made\n3 1 100 finish 2 = done\n4 1 109 lookup 6b = got 3 2 9 10 5 0 -\n5 1 110 lookup 6b = got 7 2 10 10 5 0 -\n6 1 114 lookup 6b = got 7 2 14 10 5 0 -\n7 1 115 lookup 6b = got 5 2 15 10 5 0 -\n8 1 115 end = done\nguest 1 1\nc 1\nc 2\nc 3\nc 4\nc 5\nc 6\nc 7\nc 8\nover unscheduled\nend 8\n%\
Ages at 110|\
10m5sI=F=,T=G15=,T=G7=|100 111 110 2233|\
edge-journal 1\n1 1 100 begin = begun\n2 1 100 insert 6b max=10 swr=5 = made\n3 1 100 finish 2 = done\n4 4 110 begin = begun\n5 4 110 txlookup 6b = got 15 2 10 10 5 0 -\n6 6 110 begin = begun\n7 6 110 txlookup 6b = got 7 2 10 10 5 0 -\n8 1 110 end = done\n9 4 110 end = done\n10 6 110 end = done\nguest 1 1\nc 1\nc 2\nc 3\nc 8\nover unscheduled\nguest 2 4\nc 4\nc 5\nc 9\nover unscheduled\nguest 3 6\nc 6\nc 7\nc 10\nover unscheduled\nend 10\n%\
Ages at 115|\
10m5sI=F=,T=G13=,T=|100 111 115 2233|\
edge-journal 1\n1 1 100 begin = begun\n2 1 100 insert 6b max=10 swr=5 = made\n3 1 100 finish 2 = done\n4 4 115 begin = begun\n5 4 115 txlookup 6b = got 13 2 15 10 5 0 -\n6 6 115 begin = begun\n7 1 115 end = done\n8 4 115 end = done\n9 6 115 end = done\nguest 1 1\nc 1\nc 2\nc 3\nc 7\nover unscheduled\nguest 2 4\nc 4\nc 5\nc 8\nover unscheduled\nguest 3 6\nc 6\nc 9\nover unscheduled\nend 9\n%\
Update|\
10mdI=42W=F=T=G13=z20mU=L=B=9R2=|100 1111 115 11111|\
edge-journal 1\n1 1 100 begin = begun\n2 1 100 insert 6b max=10 meta=6d = made\n3 1 100 write 2 6869 = done\n4 1 100 finish 2 = done\n5 1 115 txlookup 6b = got 13 2 15 10 0 2 6d\n6 1 115 txupdate 5 max=20 = done\n7 1 115 lookup 6b = got 3 2 0 20 0 2 -\n8 1 115 read 7 0 9 = bytes 6869\n9 1 115 end = done\nguest 1 1\nc 1\nc 2\nc 3\nc 4\nc 5\nc 6\nc 7\nc 8\nc 9\nover returned\nend 9\n%\
Purge|\
10muI=01W=p=L=G7=P=L=G0=F=1cB=9R1=9R0=|0 11111111111|\
edge-journal 1\n1 1 0 begin = begun\n2 1 0 insert 6b max=10 sur=7331 = made\n3 1 0 write 2 61 = done\n4 1 0 purge 7331 soft = done\n5 1 0 lookup 6b = got 7 2 0 10 0 ? -\n6 1 0 purge 7331 hard = done\n7 1 0 lookup 6b = got 0\n8 1 0 finish 2 = done\n9 1 0 read 5 0 9 = bytes 61\n10 1 0 read 5 1 9 = ended\n11 1 0 end = done\nguest 1 1\nc 1\nc 2\nc 3\nc 4\nc 5\nc 6\nc 7\nc 8\nc 9\nc 10\nc 11\nover returned\nend 11\n%\
Clock|\
18446744073709551615m18446744073709551615sI=L=|100 11 90 1|\
edge-journal 1\n1 1 100 begin = begun\n2 1 100 insert 6b max=18446744073709551615 swr=18446744073709551615 = made\n3 1 100 lookup 6b = got 3 2 0 18446744073709551615 18446744073709551615 ? -\n4 1 100 end = done\nguest 1 1\nc 1\nc 2\nc 3\nc 4\nover unscheduled\nend 4\n%\
Clock at most|\
18446744073709551615m18446744073709551615a1sI=L=|100 11 200 1|\
edge-journal 1\n1 1 100 begin = begun\n2 1 100 insert 6b max=18446744073709551615 age=18446744073709551615 swr=1 = made\n3 1 200 lookup 6b = got 7 2 18446744073709551615 18446744073709551615 1 ? -\n4 1 200 end = done\nguest 1 1\nc 1\nc 2\nc 3\nc 4\nover unscheduled\nend 4\n%\
Own names: a second insertion, handles that were never given, a lookup that isn't a transaction, a closed handle|\
T=1mJ=J2=,7cC3=G103=B3=J3=U3=X3=9i01W3=F3=A3=L=J2=U2=X2=C=C3=X3=G103=|0 112222111|\
edge-journal 1\n1 1 0 begin = begun\n2 1 0 txlookup 6b = got 8\n3 3 0 begin = begun\n4 3 0 lookup 6b = got 0\n5 3 0 close 4 = done\n6 3 0 end = done\n7 1 0 txinsert 2 max=1 = made\n8 1 0 txinsert 2 max=1 = refused\n9 1 0 end = done\nguest 1 1\nc 1\nc 2\nc 7\nc 8\nc 9\nover returned\nguest 2 3\nc 3\nc 4\nc 5\nc 6\nover returned\nend 9\n%\
Length|\
9m3lI=04W13=02W=F9=L=G0=21W3=F3=|0 1111111|\
edge-journal 1\n1 1 0 begin = begun\n2 1 0 insert 6b max=9 len=3 = made\n3 1 0 write 2 61626364 = toolong\n4 1 0 write 2 6162 = done\n5 1 0 finish 2 = short\n6 1 0 lookup 6b = got 0\n7 1 0 end = done\nguest 1 1\nc 1\nc 2\nc 3\nc 4\nc 5\nc 6\nc 7\nover returned\nend 7\n%\
Superseded|\
9mI=F=I=A=L=G0=|0 1111111|\
edge-journal 1\n1 1 0 begin = begun\n2 1 0 insert 6b max=9 = made\n3 1 0 finish 2 = done\n4 1 0 insert 6b max=9 = made\n5 1 0 abandon 4 = done\n6 1 0 lookup 6b = got 0\n7 1 0 end = done\nguest 1 1\nc 1\nc 2\nc 3\nc 4\nc 5\nc 6\nc 7\nover returned\nend 7\n%\
Readings of a clock are those of the steps, also one that is earlier|\
K8=K5=|7 1 8 1 5 1 9 1|\
edge-journal 1\n1 1 7 begin = begun\n2 1 9 end = done\nguest 1 1\nc 1\nnow 1 8\nnow 1 5\nc 2\nover returned\nend 2\n%\
Answers, whole and streamed|\
D=,1D=|0 1111122222|\
edge-journal 1\n1 1 0 begin = begun\n2 1 0 end = done\n3 3 0 begin = begun\n4 3 0 end = done\nguest 1 1\nc 1\nhead WHOLE\npiece 6869\nclose whole\nc 2\nover returned\nguest 2 3\nc 3\nhead STREAMED\npiece 6869\nclose whole\nc 4\nover returned\nend 4\n";

fn file_of(alloc: Global, name: &str, bytes: &[u8]) -> Result<NamedFile, AllocError> {
    let name = String::from_str(alloc, name)?;
    let bytes = bytes.to_vec(alloc)?;
    Ok(NamedFile { name, bytes })
}

/// The files of a play: the scripted guest `m`, the settings `s`, and this play file, `r`.
fn files_of(alloc: Global, run: &[u8]) -> Result<MemFiles, AllocError> {
    let mut named = Vec::new(alloc);
    named.push(file_of(alloc, "m", SCRIPTED)?)?;
    named.push(file_of(alloc, "s", SETTINGS)?)?;
    named.push(file_of(alloc, "r", run)?)?;
    Ok(MemFiles::new(alloc, named, Vec::new(alloc)))
}

fn words_of(alloc: Global) -> Result<Vec<String>, AllocError> {
    let mut words = Vec::new(alloc);
    for word in "play m s r".split(' ') {
        words.push(String::from_str(alloc, word)?)?;
    }
    Ok(words)
}

/// What `play` of the scripted guest tells with this play file: what it wrote, or the text of its exit.
fn told_of(rt: &HostRuntime, run: &[u8]) -> Result<Vec<u8>, AllocError> {
    let alloc = rt.alloc();
    let words = words_of(alloc)?;
    let mut files = files_of(alloc, run)?;
    let mut out = MemSink::new(alloc, Vec::new(alloc));
    match host(alloc, &words, &mut files, &mut out, &mut NoLink::new()) {
        Exit::Ok => out.bytes().to_vec(alloc),
        exit => exit.text(alloc)?.as_bytes().to_vec(alloc),
    }
}

/// The line of a request with this body.
fn request_of(alloc: Global, script: &str) -> Result<String, AllocError> {
    let length = script.len();
    let request = format!(in alloc;
        "POST / HTTP/1.1\r\nhost: x\r\ncontent-length: {length}\r\n\r\n{script}"
    )?;
    let digits = hex::encode(alloc, request.as_bytes())?;
    format!(in alloc; "request {digits}\n")
}

/// The lines of the steps: a word of a reading, and one of a digit for each guest that steps at it.
fn steps_of(alloc: Global, schedule: &str) -> Result<String, AllocError> {
    let mut lines = String::new(alloc);
    let mut reading = None;
    for word in schedule.split(' ') {
        match reading {
            None => reading = Some(word),
            Some(at) => {
                for guest in word.chars() {
                    let line = format!(in alloc; "{at} {guest}\n")?;
                    lines.push_str(line.as_str())?;
                }
                reading = None;
            }
        }
    }
    Ok(lines)
}

/// The play file of these guests and this schedule.
fn run_of(alloc: Global, scripts: &str, schedule: &str) -> Result<String, AllocError> {
    let mut requests = String::new(alloc);
    for script in scripts.split(',') {
        if !script.is_empty() {
            requests.push_str(request_of(alloc, script)?.as_str())?;
        }
    }
    let zeros = "00000000000000000000000000000000";
    let steps = steps_of(alloc, schedule)?;
    format!(in alloc;
        "edge-play 1\nfuel 100000\nrandom {zeros}{zeros}\n{requests}steps\n{steps}end\n"
    )
}

/// The journal, with the heads of answers in the place of their names.
fn journal_of(alloc: Global, text: &str) -> Result<String, AllocError> {
    let head = hex::encode(alloc, WHOLE_HEAD.as_bytes())?;
    let text = text.replace(alloc, "WHOLE", head.as_str())?;
    let head = hex::encode(alloc, STREAMED_HEAD.as_bytes())?;
    text.replace(alloc, "STREAMED", head.as_str())
}

/// Whether `play` of these guests and this schedule tells this journal.
fn is_told(
    rt: &HostRuntime,
    scripts: &str,
    schedule: &str,
    journal: &str,
) -> Result<bool, AllocError> {
    let run = run_of(rt.alloc(), scripts, schedule)?;
    let told = told_of(rt, run.as_bytes())?;
    let journal = journal_of(rt.alloc(), journal)?;
    Ok(told.as_slice() == journal.as_bytes())
}

#[test]
fn guests_are_played(rt: HostRuntime) -> Result<(), Fail> {
    for row in ROWS.split('%') {
        let (name, rest) = row.split_once('|').ok_or("no name")?;
        let (scripts, rest) = rest.split_once('|').ok_or("no schedule")?;
        let (schedule, journal) = rest.split_once('|').ok_or("no journal")?;
        assert!(rt; is_told(&rt, scripts, schedule, journal)?, "{name}");
    }
    Ok(())
}

#[test]
fn an_empty_file_is_no_play(rt: HostRuntime) -> Result<(), Fail> {
    let told = told_of(&rt, b"")?;
    assert!(rt; told.as_slice() == b"run: line 1".as_slice());
    Ok(())
}

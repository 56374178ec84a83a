//! Run files with what they say, and the first bad line of broken ones.

use crate::{Named, RunFault, Step, read_run};
use cache_types::CacheCall;
use std::alloc::{AllocError, Global};
use std::test::Fail;

const ROW: &str =
    "edge-run 1\nguest\ninsert 6b max=10\nread @1 0 10\nguest\nwrite #99 -\nsteps\n100 1\n0 2\nend\n";

#[test]
fn a_run_is_read(rt: HostRuntime) -> Result<(), Fail> {
    let run = read_run(rt.alloc(), ROW.as_bytes()).ok().ok_or("no run")?;
    assert_eq!(rt; run.guests.items().len(), 2);
    let lines = run.guests.items()[0].items();
    assert_eq!(rt; lines.len(), 2);
    let CacheCall::Read { hit, place, most } = lines[1].call else {
        return Err(Fail::from("no read"));
    };
    assert_eq!(rt; (hit, place, most), (0, 0, 10));
    assert_eq!(rt; lines[1].named, Named::Line(1));
    let steps = [
        Step {
            reading: 100,
            player: 1,
        },
        Step {
            reading: 0,
            player: 2,
        },
    ];
    assert_eq!(rt; run.steps.items(), steps.as_slice());
    Ok(())
}

/// What `read_run` says of a text of a head, so many units and a tail: the bad line, or 0. A slash stands for a line feed.
fn line_of(
    alloc: Global,
    head: &str,
    unit: &str,
    count: usize,
    tail: &str,
) -> Result<u32, AllocError> {
    let mut text = String::from_str(alloc, head)?;
    for _ in 0..count {
        text.push_str(unit)?;
    }
    text.push_str(tail)?;
    let mut bytes = Vec::new(alloc);
    for byte in text.as_bytes() {
        bytes.push(if *byte == b'/' { b'\n' } else { *byte })?;
    }
    match read_run(alloc, &bytes) {
        Ok(_) => Ok(0),
        Err(RunFault::Line(line)) => Ok(line),
        Err(RunFault::OutOfMemory) => Err(AllocError),
    }
}

const BEFORE: &str = "edge-run 1/guest/insert 6b max=1/";

const AFTER: &str = "/steps/0 1/end/";

/// Lines that may stand second in a block, one behind another in one text: a long table takes long to check.
const GOOD: &str =
    "lookup 6b\nlookup 6b h=a:- h=a:6b h=accept-language:6465\ntxlookup ff h=!#$%&'*+-.^_`|~09az:00\ninsert 6b max=0\ninsert 6b max=18446744073709551615 len=0\ninsert 6b max=1 age=1 swr=2 sur=73,73,7331 meta=6d vary=!,a,ab,b,~ len=3 h=b:62 h=a:-\ntxinsert @1 max=1 vary=a len=67108864\ntxupdate #9 max=1 age=2 swr=3 sur=73 meta=00\ntxcancel @1\nclose #0\nwrite @1 -\nfinish #18446744073709551615\nabandon @1\nread @1 18446744073709551615 65536\nread #1 0 1\npurge 73 hard\npurge 73 soft";

/// Lines that can't, with one mistake each.
const BAD: &str =
    "\n lookup 6b\nlookup\nlookup 6b \nlookup  6b\nlookup\t6b\nLookup 6b\nlookup -\nlookup 6\nlookup 6B\nlookup 6g\nlookup --\nlookup @1\nlookup 6b h=a\nlookup 6b h=:6b\nlookup 6b h=A:6b\nlookup 6b h=a,b:6b\nlookup 6b h=a:\nlookup 6b h=a:6\nlookup 6b h=a:b:6b\nlookup 6b h=a:6b 6b\nlookup 6b vary=a\ntxlookup 6b max=1\ntxlookup 6b h=a:- H=a:-\ninsert 6b\ninsert 6b len=1\ninsert 6b max=\ninsert 6b max=01\ninsert 6b max=18446744073709551616\ninsert 6b max=1 max=1\ninsert 6b age=1 max=1\ninsert 6b max=1 age=0\ninsert 6b max=1 age=\ninsert 6b max=1 age=1 age=1\ninsert 6b max=1 swr=0\ninsert 6b max=1 swr=1 age=1\ninsert 6b max=1 sur=\ninsert 6b max=1 sur=-\ninsert 6b max=1 sur=73,\ninsert 6b max=1 sur=,73\ninsert 6b max=1 sur=73 sur=74\ninsert 6b max=1 meta=-\ninsert 6b max=1 meta=6d sur=73\ninsert 6b max=1 vary=\ninsert 6b max=1 vary=b,a\ninsert 6b max=1 vary=ab,a\ninsert 6b max=1 vary=a,a\ninsert 6b max=1 vary=a,\ninsert 6b max=1 vary=A\ninsert 6b max=1 vary=a;\ninsert 6b max=1 vary=a meta=6d\ninsert 6b max=1 len=\ninsert 6b max=1 len=67108865\ninsert 6b max=1 len=1 vary=a\ninsert 6b max=1 h=a:- len=1\ntxinsert @1\ntxinsert 1 max=1\ntxinsert @0 max=1\ntxinsert @2 max=1\ntxinsert @1 max=1 h=a:-\ntxupdate @1 max=1 vary=a\ntxupdate @1 max=1 len=1\ntxcancel\ntxcancel @1 @1\nclose @01\nclose #18446744073709551616\nclose #\nwrite @1\nwrite @1 6b 6b\nfinish @1 -\nabandon @3\nread @1 0 0\nread @1 0 65537\nread @1 -1 1\nread @1 +1 1\nread @1 \u{661} 1\npurge 73\npurge 73 Hard\nbegin\nend";

#[test]
fn lines_of_a_block_are_judged(rt: HostRuntime) -> Result<(), Fail> {
    let alloc = rt.alloc();
    for line in GOOD.split('\n') {
        assert_eq!(rt; line_of(alloc, BEFORE, line, 1, AFTER)?, 0, "{line}");
    }
    for line in BAD.split('\n') {
        assert_eq!(rt; line_of(alloc, BEFORE, line, 1, AFTER)?, 4, "{line}");
    }
    Ok(())
}

/// The bad line or 0 of files, each with a head, a unit, its count and a tail. A slash stands for a line feed. The later half
/// is at the limits, and past them by one.
const FILES: &str = "\
1;;;0;\n\
1;/;;0;\n\
1;edge-run 2/steps/end/;;0;\n\
1;edge-run 1 /steps/end/;;0;\n\
1;edge-run 1\r/steps/end/;;0;\n\
1;edge-run 1;;0;\n\
2;edge-run 1/;;0;\n\
2;edge-run 1//;;0;\n\
2;edge-run 1/end/;;0;\n\
2;edge-run 1/lookup 6b/;;0;\n\
3;edge-run 1/guest/guest /;;0;\n\
5;edge-run 1/guest/lookup 6b/guest/finish @1/;;0;\n\
3;edge-run 1/steps/0 1/end/;;0;\n\
4;edge-run 1/guest/steps/0 2/end/;;0;\n\
4;edge-run 1/guest/steps/0 0/end/;;0;\n\
4;edge-run 1/guest/steps/0 1 /end/;;0;\n\
4;edge-run 1/guest/steps/18446744073709551616 1/end/;;0;\n\
5;edge-run 1/guest/steps/0 1/;;0;\n\
3;edge-run 1/steps/end;;0;\n\
4;edge-run 1/steps/end//;;0;\n\
0;edge-run 1/;guest/;1000;steps/end/\n\
1002;edge-run 1/;guest/;1001;steps/end/\n\
0;edge-run 1/guest/lookup ;61;4096;/steps/0 1/end/\n\
3;edge-run 1/guest/lookup ;61;4097;/steps/0 1/end/\n\
3;edge-run 1/guest/purge ;61;1025; soft/steps/end/\n\
0;edge-run 1/guest/lookup 6b; h=a:-;100;/steps/0 1/end/\n\
3;edge-run 1/guest/lookup 6b; h=a:-;101;/steps/0 1/end/\n\
0;edge-run 1/guest/lookup 6b h=;a;64;:-/steps/end/\n\
3;edge-run 1/guest/lookup 6b h=;a;65;:-/steps/end/\n\
3;edge-run 1/guest/insert 6b max=1 sur=;61;1025;/steps/0 1/end/\n\
0;edge-run 1/guest/insert 6b max=1 sur=;61,;8191;6161/steps/end/\n\
3;edge-run 1/guest/insert 6b max=1 sur=;61,;8191;616161/steps/end/\n\
3;edge-run 1/guest/insert 6b max=1 meta=;00;65537;/steps/0 1/end/\n\
0;edge-run 1/guest/insert 6b max=1 vary=a,b,c,d,e,f,g,h,i,j,k,l,m,n,o,p,q,r,s,t,u,v,w,x,y,z,za,zb,zc,zd,ze,zf;;0;/steps/0 1/end/\n\
3;edge-run 1/guest/insert 6b max=1 vary=a,b,c,d,e,f,g,h,i,j,k,l,m,n,o,p,q,r,s,t,u,v,w,x,y,z,za,zb,zc,zd,ze,zf,zg;;0;/steps/0 1/end/\n\
3;edge-run 1/guest/write #1 ;00;65537;/steps/0 1/end/";

#[test]
fn the_first_bad_line_is_told(rt: HostRuntime) -> Result<(), Fail> {
    let alloc = rt.alloc();
    for row in FILES.split('\n') {
        let (line, rest) = row.split_once(';').ok_or("no line")?;
        let (head, rest) = rest.split_once(';').ok_or("no head")?;
        let (unit, rest) = rest.split_once(';').ok_or("no unit")?;
        let (count, tail) = rest.split_once(';').ok_or("no count")?;
        let line = line.parse::<u32>().ok().ok_or("no line")?;
        let count = count.parse::<usize>().ok().ok_or("no count")?;
        assert_eq!(rt; line_of(alloc, head, unit, count, tail)?, line, "{row}");
    }
    Ok(())
}

#[test]
fn faults_have_texts(rt: HostRuntime) -> Result<(), Fail> {
    let rows = [
        (RunFault::Line(3), "run: line 3"),
        (RunFault::OutOfMemory, "out of memory"),
    ];
    for (fault, text) in rows {
        assert_eq!(rt; format!(in rt.alloc(); "{fault}")?.as_str(), text);
    }
    Ok(())
}

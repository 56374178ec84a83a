//! A play file with what it says, and the first bad line of broken ones.

use play_files::{RunFault, Step, read_play};
use std::alloc::{AllocError, Global};
use std::test::Fail;

/// The bytes 0 to 31, and two requests: `GET /a`, and `POST /b` with the body `hi`.
const PLAY: &str =
    "edge-play 1\nfuel 1000\nrandom 000102030405060708090a0b0c0d0e0f101112131415161718191a1b1c1d1e1f\nrequest 474554202f6120485454502f312e310d0a486f73743a20780d0a0d0a\nrequest 504f5354202f6220485454502f312e310d0a486f73743a20780d0a436f6e74656e742d4c656e6774683a20320d0a0d0a6869\nsteps\n100 1\n0 2\nend\n";

#[test]
fn a_play_is_read(rt: HostRuntime) -> Result<(), Fail> {
    let file = read_play(rt.alloc(), PLAY.as_bytes())
        .ok()
        .ok_or("no play")?;
    assert_eq!(rt; file.fuel, 1000);
    let random = file.random.bytes();
    assert_eq!(rt; (random.len(), random[30], random[31]), (32, 30, 31));
    let requests = file.requests.items();
    assert_eq!(rt; requests.len(), 2);
    assert_eq!(rt; requests[0].head.uri().bytes(), b"http://x/a".as_slice());
    assert_eq!(rt; requests[1].head.method().bytes(), b"POST".as_slice());
    assert_eq!(rt; requests[1].body.bytes(), b"hi".as_slice());
    let steps = [
        Step {
            reading: 100,
            player: 1,
        },
        Step {
            reading: 0,
            player: 2,
        },
    ];
    assert_eq!(rt; file.steps.items(), steps.as_slice());
    Ok(())
}

/// What some signs of a text stand for: a line feed, a line of random bytes, the bytes of a request.
fn push_sign(text: &mut String, sign: char) -> Result<(), AllocError> {
    match sign {
        '/' => text.push('\n'),
        '~' => text.push_str(
            "random 0000000000000000000000000000000000000000000000000000000000000000",
        ),
        '^' => text.push_str("474554202f6120485454502f312e310d0a486f73743a20780d0a0d0a"),
        _ => text.push(sign),
    }
}

/// What `read_play` says of a text of a head, so many units and a tail: the bad line, or 0.
fn line_of(
    alloc: Global,
    head: &str,
    unit: &str,
    count: usize,
    tail: &str,
) -> Result<u32, AllocError> {
    let mut signs = String::from_str(alloc, head)?;
    for _ in 0..count {
        signs.push_str(unit)?;
    }
    signs.push_str(tail)?;
    let mut text = String::new(alloc);
    for sign in signs.chars() {
        push_sign(&mut text, sign)?;
    }
    match read_play(alloc, text.as_bytes()) {
        Ok(_) => Ok(0),
        Err(RunFault::Line(line)) => Ok(line),
        Err(RunFault::OutOfMemory) => Err(AllocError),
    }
}

/// The bad line or 0 of files, each with a head, a unit, its count and a tail: heads, requests that are none, steps, ends,
/// and the limits with one past each.
const FILES: &str = "\
1;;;0;\n\
1;/;;0;\n\
1;edge-run 1/fuel 1/~/steps/end/;;0;\n\
1;edge-play 1 /fuel 1/~/steps/end/;;0;\n\
1;edge-play 1;;0;\n\
2;edge-play 1/;;0;\n\
2;edge-play 1/~/steps/end/;;0;\n\
2;edge-play 1/fuel/~/steps/end/;;0;\n\
2;edge-play 1/fuel 01/~/steps/end/;;0;\n\
2;edge-play 1/fuel 1 1/~/steps/end/;;0;\n\
2;edge-play 1/Fuel 1/~/steps/end/;;0;\n\
0;edge-play 1/fuel 18446744073709551615/~/steps/end/;;0;\n\
2;edge-play 1/fuel 18446744073709551616/~/steps/end/;;0;\n\
3;edge-play 1/fuel 1/steps/end/;;0;\n\
3;edge-play 1/fuel 1/random /steps/end/;;0;\n\
3;edge-play 1/fuel 1/random -/steps/end/;;0;\n\
3;edge-play 1/fuel 1/random ;00;31;/steps/end/\n\
0;edge-play 1/fuel 1/random ;00;32;/steps/end/\n\
3;edge-play 1/fuel 1/random ;00;33;/steps/end/\n\
3;edge-play 1/fuel 1/random ;0A;32;/steps/end/\n\
0;edge-play 1/fuel 1/~/steps/end/;;0;\n\
4;edge-play 1/fuel 1/~/;;0;\n\
4;edge-play 1/fuel 1/~/end/;;0;\n\
4;edge-play 1/fuel 1/~/0 1/;;0;\n\
4;edge-play 1/fuel 1/~/request/steps/end/;;0;\n\
4;edge-play 1/fuel 1/~/request -/steps/end/;;0;\n\
4;edge-play 1/fuel 1/~/request 0/steps/end/;;0;\n\
4;edge-play 1/fuel 1/~/request 6b/steps/end/;;0;\n\
0;edge-play 1/fuel 1/~/request ^/steps/0 1/end/;;0;\n\
4;edge-play 1/fuel 1/~/request ^0a/steps/0 1/end/;;0;\n\
4;edge-play 1/fuel 1/~/request ^^/steps/0 1/end/;;0;\n\
4;edge-play 1/fuel 1/~/requests ^/steps/0 1/end/;;0;\n\
4;edge-play 1/fuel 1/~/request ^ ^/steps/0 1/end/;;0;\n\
4;edge-play 1/fuel 1/~/request 474554202f6120485454502f312e310d0a486f73743a20780d0a/steps/0 1/end/;;0;\n\
4;edge-play 1/fuel 1/~/request 474554202f6120485454502f312e310d0a0d0a/steps/0 1/end/;;0;\n\
5;edge-play 1/fuel 1/~/request ^/request 504f5354202f6220485454502f312e310d0a486f73743a20780d0a436f6e74656e742d4c656e6774683a20320d0a0d0a68/steps/0 1/end/;;0;\n\
5;edge-play 1/fuel 1/~/request ^/request 504f5354202f6220485454502f312e310d0a486f73743a20780d0a436f6e74656e742d4c656e6774683a20320d0a0d0a686921/steps/0 1/end/;;0;\n\
0;edge-play 1/fuel 1/~/request 504f5354202f20485454502f312e310d0a486f73743a20780d0a5472616e736665722d456e636f64696e673a206368756e6b65640d0a0d0a320d0a68690d0a300d0a0d0a/steps/end/;;0;\n\
6;edge-play 1/fuel 1/~/request ^/steps/0 2/end/;;0;\n\
6;edge-play 1/fuel 1/~/request ^/steps/0 0/end/;;0;\n\
6;edge-play 1/fuel 1/~/request ^/steps/0 1 /end/;;0;\n\
6;edge-play 1/fuel 1/~/request ^/steps/request ^/end/;;0;\n\
7;edge-play 1/fuel 1/~/request ^/steps/0 1/;;0;\n\
7;edge-play 1/fuel 1/~/request ^/steps/0 1/end;;0;\n\
8;edge-play 1/fuel 1/~/request ^/steps/0 1/end//;;0;\n\
8;edge-play 1/fuel 1/~/request ^/steps/0 1/end/0 1/;;0;\n\
5;edge-play 1/fuel 1/~/steps/0 1/end/;;0;\n\
0;edge-play 1/fuel 1/~/;request ^/;1000;steps/0 1000/end/\n\
1004;edge-play 1/fuel 1/~/;request ^/;1001;steps/end/";

#[test]
fn the_first_bad_line_is_told(rt: HostRuntime) -> Result<(), Fail> {
    let alloc = rt.alloc();
    for row in FILES.split('\n') {
        let (line, rest) = row.split_once(';').ok_or("no line")?;
        let (head, rest) = rest.split_once(';').ok_or("no head")?;
        let (unit, rest) = rest.split_once(';').ok_or("no unit")?;
        let (count, tail) = rest.split_once(';').ok_or("no count")?;
        let line = line.parse::<u32>().ok().ok_or("no line")?;
        let count = count.parse::<usize>().ok().ok_or("no count")?;
        assert_eq!(rt; line_of(alloc, head, unit, count, tail)?, line, "{row}");
    }
    Ok(())
}

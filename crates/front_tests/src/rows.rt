//! Requests at the edge of each rule and past it.
use http_front::FrontFault;
use http_front::FrontFault::{Bad, Cut, TooLarge, Unsupported};

/// A text that begins with a request, its uri and its body.
pub type Good = (&'static [u8], &'static [u8], &'static [u8]);

/// A text that begins with no request, and why.
pub type Refused = (&'static [u8], FrontFault);

/// Whoever goes over the rows needn't be proved with all of them in view.
pub fn good() -> &'static [Good] {
    &GOOD
}

pub fn refused() -> &'static [Refused] {
    &REFUSED
}

const GOOD: [Good; 24] = [
    (b"GET /a HTTP/1.1\r\nHost: x\r\n\r\n", b"http://x/a", b""),
    (b"GET /a HTTP/1.1\nHost: x\n\n", b"http://x/a", b""),
    (
        b"\r\n\r\nGET /a HTTP/1.1\r\nHost: x\r\n\r\n",
        b"http://x/a",
        b"",
    ),
    (b"GET /a HTTP/1.0\r\n\r\n", b"http://localhost/a", b""),
    (
        b"GET /a HTTP/1.0\r\nHost: y:8080\r\n\r\n",
        b"http://y:8080/a",
        b"",
    ),
    (
        b"GET http://h/p HTTP/1.1\r\nHost: x\r\n\r\n",
        b"http://h/p",
        b"",
    ),
    (
        b"GET https://h/p HTTP/1.1\r\nHost: x\r\n\r\n",
        b"https://h/p",
        b"",
    ),
    (
        b"GET HTTP://h/p HTTP/1.1\r\nHost: x\r\n\r\n",
        b"http://xHTTP://h/p",
        b"",
    ),
    (b"OPTIONS * HTTP/1.1\r\nHost: x\r\n\r\n", b"http://x*", b""),
    (b"GET /a HTTP/1.1\r\nHost:\r\n\r\n", b"http:///a", b""),
    (
        b"GET /a HTTP/1.1\r\nHOST:\t x \t\r\n\r\n",
        b"http://x/a",
        b"",
    ),
    (
        b"POST /a HTTP/1.1\r\nHost: x\r\nContent-Length: 2\r\n\r\nhi",
        b"http://x/a",
        b"hi",
    ),
    (
        b"POST /a HTTP/1.1\r\nHost: x\r\nContent-Length: 2\r\n\r\nhiGET / HTTP/1.1\r\n\r\n",
        b"http://x/a",
        b"hi",
    ),
    (
        b"POST /a HTTP/1.1\r\nHost: x\r\ncontent-length: 0000002\r\n\r\nhi",
        b"http://x/a",
        b"hi",
    ),
    (
        b"GET /a HTTP/1.1\r\nHost: x\r\nContent-Length: 0\r\n\r\n",
        b"http://x/a",
        b"",
    ),
    (
        b"GET /a HTTP/1.1\r\nHost: x\r\nTransfer-Encoding: CHUNKED\r\n\r\n0\r\n\r\n",
        b"http://x/a",
        b"",
    ),
    (
        b"GET /a HTTP/1.0\r\nTransfer-Encoding: chunked\r\n\r\n1\r\na\r\n0\r\n\r\n",
        b"http://localhost/a",
        b"a",
    ),
    (
        b"GET /a HTTP/1.1\r\nHost: x\r\nTransfer-Encoding: chunked\r\n\r\n1 \t;a=b;c\r\na\r\n00;z\r\n\r\n",
        b"http://x/a",
        b"a",
    ),
    (
        b"GET /a HTTP/1.1\r\nHost: x\r\nTransfer-Encoding: chunked\r\n\r\n00000000000000A\r\n0123456789\r\na\r\n0123456789\r\n0\r\n\r\n",
        b"http://x/a",
        b"01234567890123456789",
    ),
    (
        b"GET /a HTTP/1.1\r\nHost: x\r\nTransfer-Encoding: chunked\r\n\r\n2\r\n\r\n\r\n0\r\n\r\n",
        b"http://x/a",
        b"\r\n",
    ),
    (
        b"GET /a HTTP/1.1\r\nHost: x\r\nTransfer-Encoding: chunked\r\n\r\n0\r\n\r\nGET /b HTTP/1.1\r\nHost: x\r\n\r\n",
        b"http://x/a",
        b"",
    ),
    (
        b"GET /a HTTP/1.1\r\nHost: x\r\nX:\r\nX: a\r\n\r\n",
        b"http://x/a",
        b"",
    ),
    (
        b"a!#$%&'*+-.^_`|~1 /a HTTP/1.1\r\nHost: x\r\n\r\n",
        b"http://x/a",
        b"",
    ),
    (
        b"HEAD /a HTTP/1.1\r\nHost: x\r\nConnection: keep-alive\r\n\r\n",
        b"http://x/a",
        b"",
    ),
];

const REFUSED: [Refused; 58] = [
    (b"", Cut),
    (b"\r\n", Cut),
    (b"GET", Cut),
    (b"GET /a HTTP/1.1", Cut),
    (b"GET /a HTTP/1.1\r\nHost: x\r\n", Cut),
    (b"GET /a HTTP/1.1\r\nHost: x\r\n\r", Cut),
    (
        b"GET /a HTTP/1.1\r\nHost: x\r\nContent-Length: 3\r\n\r\nhi",
        Cut,
    ),
    (
        b"GET /a HTTP/1.1\r\nHost: x\r\nTransfer-Encoding: chunked\r\n\r\n",
        Cut,
    ),
    (
        b"GET /a HTTP/1.1\r\nHost: x\r\nTransfer-Encoding: chunked\r\n\r\n2\r\nhi",
        Cut,
    ),
    (
        b"GET /a HTTP/1.1\r\nHost: x\r\nTransfer-Encoding: chunked\r\n\r\n2\r\nhi\r\n0\r\n",
        Cut,
    ),
    (b" GET /a HTTP/1.1\r\nHost: x\r\n\r\n", Bad),
    (b"GET  /a HTTP/1.1\r\nHost: x\r\n\r\n", Bad),
    (b"GET /a\r\n\r\n", Bad),
    (b"GET /a HTTP/1.2\r\nHost: x\r\n\r\n", Bad),
    (b"GET /a HTTP/2.0\r\nHost: x\r\n\r\n", Bad),
    (b"GET /a http/1.1\r\nHost: x\r\n\r\n", Bad),
    (b"GET /a b HTTP/1.1\r\nHost: x\r\n\r\n", Bad),
    (b"GET /\x7f HTTP/1.1\r\nHost: x\r\n\r\n", Bad),
    (b"GET /\xff HTTP/1.1\r\nHost: x\r\n\r\n", Bad),
    (b"G(T /a HTTP/1.1\r\nHost: x\r\n\r\n", Bad),
    (b"GET /a HTTP/1.1\rHost: x\r\n\r\n", Bad),
    (b"GET /a HTTP/1.1\r\nHost : x\r\n\r\n", Bad),
    (b"GET /a HTTP/1.1\r\n Host: x\r\n\r\n", Bad),
    (b"GET /a HTTP/1.1\r\nHost: x\r\n folded\r\n\r\n", Bad),
    (b"GET /a HTTP/1.1\r\nHost: x\r\nNo colon\r\n\r\n", Bad),
    (b"GET /a HTTP/1.1\r\nHost: x\r\n: v\r\n\r\n", Bad),
    (b"GET /a HTTP/1.1\r\nHost: x\r\nA: b\x00c\r\n\r\n", Bad),
    (b"GET /a HTTP/1.1\r\nHost: x\r\nA: b\rc\r\n\r\n", Bad),
    (b"GET /a HTTP/1.1\r\nHost: x\r\nA: \xc3\xa4\r\n\r\n", Bad),
    (b"GET /a HTTP/1.1\r\nHost: x\x7f\r\n\r\n", Bad),
    (b"GET /a HTTP/1.1\r\n\r\n", Bad),
    (b"GET /a HTTP/1.1\r\nHost: x\r\nHost: x\r\n\r\n", Bad),
    (b"GET /a HTTP/1.0\r\nHost: x\r\nhost: y\r\n\r\n", Bad),
    (
        b"GET /a HTTP/1.1\r\nHost: x\r\nContent-Length: 2\r\nContent-Length: 2\r\n\r\nhi",
        Bad,
    ),
    (
        b"GET /a HTTP/1.1\r\nHost: x\r\nContent-Length: 2\r\nTransfer-Encoding: chunked\r\n\r\n0\r\n\r\n",
        Bad,
    ),
    (
        b"GET /a HTTP/1.1\r\nHost: x\r\nTransfer-Encoding: gzip\r\nContent-Length: 2\r\n\r\nhi",
        Bad,
    ),
    (
        b"GET /a HTTP/1.1\r\nHost: x\r\nContent-Length:\r\n\r\n",
        Bad,
    ),
    (
        b"GET /a HTTP/1.1\r\nHost: x\r\nContent-Length: +2\r\n\r\nhi",
        Bad,
    ),
    (
        b"GET /a HTTP/1.1\r\nHost: x\r\nContent-Length: -0\r\n\r\n",
        Bad,
    ),
    (
        b"GET /a HTTP/1.1\r\nHost: x\r\nContent-Length: 2, 2\r\n\r\nhi",
        Bad,
    ),
    (
        b"GET /a HTTP/1.1\r\nHost: x\r\nContent-Length: 0x2\r\n\r\nhi",
        Bad,
    ),
    (
        b"GET /a HTTP/1.1\r\nHost: x\r\nTransfer-Encoding: chunked\r\n\r\n\r\n",
        Bad,
    ),
    (
        b"GET /a HTTP/1.1\r\nHost: x\r\nTransfer-Encoding: chunked\r\n\r\n1\nx\n0\n\n",
        Bad,
    ),
    (
        b"GET /a HTTP/1.1\r\nHost: x\r\nTransfer-Encoding: chunked\r\n\r\n-1\r\n",
        Bad,
    ),
    (
        b"GET /a HTTP/1.1\r\nHost: x\r\nTransfer-Encoding: chunked\r\n\r\n1\r\nhi\r\n0\r\n\r\n",
        Bad,
    ),
    (
        b"GET /a HTTP/1.1\r\nHost: x\r\nTransfer-Encoding: chunked\r\n\r\n0\r\nA: b\r\n\r\n",
        Bad,
    ),
    (
        b"GET /a HTTP/1.1\r\nHost: x\r\nTransfer-Encoding: chunked\r\n\r\n00000000000000001\r\nx\r\n",
        Bad,
    ),
    (b"CONNECT x:1 HTTP/1.1\r\nHost: x\r\n\r\n", Unsupported),
    (
        b"GET /a HTTP/1.1\r\nHost: x\r\nTransfer-Encoding: gzip\r\n\r\n",
        Unsupported,
    ),
    (
        b"GET /a HTTP/1.1\r\nHost: x\r\nTransfer-Encoding:\r\n\r\n",
        Unsupported,
    ),
    (
        b"GET /a HTTP/1.1\r\nHost: x\r\nTransfer-Encoding: gzip, chunked\r\n\r\n",
        Unsupported,
    ),
    (
        b"GET /a HTTP/1.1\r\nHost: x\r\nTransfer-Encoding: chunked\r\nTransfer-Encoding: chunked\r\n\r\n",
        Unsupported,
    ),
    (
        b"GET /a HTTP/1.1\r\nHost: x\r\nTransfer-Encoding: \x0bchunked\r\n\r\n",
        Bad,
    ),
    (
        b"CONNECT x:1 HTTP/1.1\r\nHost: x\r\nContent-Length: 67108865\r\n\r\n",
        Unsupported,
    ),
    (b"CONNECT x:1 HTTP/1.1\r\n\r\n", Bad),
    (
        b"GET /a HTTP/1.1\r\nHost: x\r\nContent-Length: 67108865\r\n\r\n",
        TooLarge,
    ),
    (
        b"GET /a HTTP/1.1\r\nHost: x\r\nContent-Length: 99999999999999999999999999\r\n\r\n",
        TooLarge,
    ),
    (
        b"GET /a HTTP/1.1\r\nHost: x\r\nTransfer-Encoding: chunked\r\n\r\n1\r\na\r\n4000000\r\n",
        TooLarge,
    ),
];

//! What a parameter of a call is, and what it must not be.

/// What a parameter of a call is.
#[derive(Clone, Copy)]
pub enum Kind {
    /// A handle: of a request, a response, a body; of a store of any kind; of a secret, an endpoint, a lookup; a busy one.
    Request,
    Response,
    Body,
    Store,
    Secret,
    Endpoint,
    Lookup,
    Busy,
    /// A file of WASI.
    File,
    /// The place of bytes, whose length stands next, or of a vector of WASI.
    Range,
    WasiRange,
    WasiVector,
    /// The place of bytes of which there are none.
    WasiNothing,
    /// The place of a lookup's options, and of a record of them.
    Options,
    Record,
    /// A number that is no place.
    Number,
    /// The place of a number of so many bytes.
    Place(u32),
    WasiPlace(u32),
}

/// What a good parameter of this kind is: the handle 1, the byte at 16, the place 64.
fn good(kind: Kind) -> u32 {
    match kind {
        Kind::Range | Kind::WasiRange | Kind::WasiVector | Kind::WasiNothing => 16,
        Kind::Options | Kind::Record | Kind::Place(_) | Kind::WasiPlace(_) => 64,
        _ => 1,
    }
}

/// Handles and files that aren't there, with the number that is answered.
fn bad_handles(kind: Kind) -> &'static [(u32, u32)] {
    match kind {
        Kind::Request => &[(0, 3), (2, 3), (5, 3), (6, 3), (4294967295, 3)],
        Kind::Response | Kind::Body => &[(0, 3), (2, 3), (3, 3), (6, 3), (4294967295, 3)],
        Kind::Store => &[(0, 3), (2, 3), (7, 3), (4294967295, 3)],
        Kind::Secret => &[(0, 3), (6, 3), (7, 3), (4294967295, 3)],
        Kind::Endpoint => &[(0, 3), (7, 3), (4294967295, 3)],
        Kind::Lookup => &[(0, 3), (2, 3), (5, 3), (4294967295, 3)],
        Kind::Busy => &[(0, 3), (3, 3), (4, 3), (5, 3), (4294967295, 3)],
        Kind::File => &[(0, 8), (3, 8), (4294967295, 8)],
        _ => &[],
    }
}

/// Places at the memory's end, past it and at the last number, and badly aligned ones: inval and badalign; of WASI 28.
fn bad_places(kind: Kind) -> &'static [(u32, u32)] {
    match kind {
        Kind::Range => &[(131072, 2), (131073, 2), (4294967295, 2)],
        Kind::Options => &[(131069, 2), (131072, 2), (4294967295, 2)],
        Kind::Record => &[(68, 6), (131016, 2), (131072, 2), (4294967295, 2)],
        Kind::Place(2) => &[(65, 6), (131071, 2), (131072, 2), (4294967295, 2)],
        Kind::Place(4) => &[(65, 6), (66, 6), (131069, 2), (131072, 2), (4294967295, 2)],
        Kind::Place(_) => &[(68, 6), (131065, 2), (131072, 2), (4294967295, 2)],
        Kind::WasiRange => &[(131072, 28), (131073, 28), (4294967295, 28)],
        Kind::WasiVector => &[(131065, 28), (131072, 28), (4294967295, 28)],
        Kind::WasiNothing => &[(131073, 28), (4294967295, 28)],
        Kind::WasiPlace(4) => &[(66, 28), (131069, 28), (131072, 28), (4294967295, 28)],
        Kind::WasiPlace(_) => &[(68, 28), (131065, 28), (131072, 28), (4294967295, 28)],
        _ => &[],
    }
}

/// Values that a parameter of this kind must not have, with the number that is answered.
pub fn bad(kind: Kind) -> &'static [(u32, u32)] {
    match kind {
        Kind::Request
        | Kind::Response
        | Kind::Body
        | Kind::Store
        | Kind::Secret
        | Kind::Endpoint
        | Kind::Lookup
        | Kind::Busy
        | Kind::File => bad_handles(kind),
        _ => bad_places(kind),
    }
}

/// Good parameters of these kinds, but for one.
pub fn with_one_bad(kinds: &[Kind], place: usize, value: u32) -> [u32; 8] {
    let mut parameters = [1; 8];
    for (parameter, kind) in parameters.iter_mut().zip(kinds) {
        *parameter = good(*kind);
    }
    if let Some(parameter) = parameters.get_mut(place) {
        *parameter = value;
    }
    parameters
}

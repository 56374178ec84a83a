//! The calls that have a handle or a place, and what their parameters are.

use crate::kinds::Kind;
use edge_imports::Hostcall;

// Parameters that stand together.
const REQUEST_NAMES: &[Kind] = &[
    Kind::Request,
    Kind::Range,
    Kind::Number,
    Kind::Number,
    Kind::Place(8),
    Kind::Place(4),
];

const REQUEST_VALUE: &[Kind] = &[
    Kind::Request,
    Kind::Range,
    Kind::Number,
    Kind::Range,
    Kind::Number,
    Kind::Place(4),
];

const REQUEST_VALUES: &[Kind] = &[
    Kind::Request,
    Kind::Range,
    Kind::Number,
    Kind::Range,
    Kind::Number,
    Kind::Number,
    Kind::Place(8),
    Kind::Place(4),
];

const REQUEST_TEXTS: &[Kind] = &[
    Kind::Request,
    Kind::Range,
    Kind::Number,
    Kind::Range,
    Kind::Number,
];

const RESPONSE_NAMES: &[Kind] = &[
    Kind::Response,
    Kind::Range,
    Kind::Number,
    Kind::Number,
    Kind::Place(8),
    Kind::Place(4),
];

const RESPONSE_VALUE: &[Kind] = &[
    Kind::Response,
    Kind::Range,
    Kind::Number,
    Kind::Range,
    Kind::Number,
    Kind::Place(4),
];

const RESPONSE_VALUES: &[Kind] = &[
    Kind::Response,
    Kind::Range,
    Kind::Number,
    Kind::Range,
    Kind::Number,
    Kind::Number,
    Kind::Place(8),
    Kind::Place(4),
];

const RESPONSE_TEXTS: &[Kind] = &[
    Kind::Response,
    Kind::Range,
    Kind::Number,
    Kind::Range,
    Kind::Number,
];

const STORE_TEXT: &[Kind] = &[
    Kind::Store,
    Kind::Range,
    Kind::Number,
    Kind::Range,
    Kind::Number,
    Kind::Place(4),
];

const LOOKUP: &[Kind] = &[
    Kind::Range,
    Kind::Number,
    Kind::Number,
    Kind::Options,
    Kind::Place(4),
];

const INSERT: &[Kind] = &[
    Kind::Range,
    Kind::Number,
    Kind::Number,
    Kind::Record,
    Kind::Place(4),
];

const TX_INSERT: &[Kind] = &[Kind::Lookup, Kind::Number, Kind::Record, Kind::Place(4)];

const TX_INSERT_AND_READ: &[Kind] = &[
    Kind::Lookup,
    Kind::Number,
    Kind::Record,
    Kind::Place(4),
    Kind::Place(4),
];

fn requests() -> &'static [(Hostcall, &'static [Kind])] {
    &[
        (Hostcall::RequestNew, &[Kind::Place(4)]),
        (Hostcall::RequestClose, &[Kind::Request]),
        (
            Hostcall::RequestVersionGet,
            &[Kind::Request, Kind::Place(4)],
        ),
        (Hostcall::RequestVersionSet, &[Kind::Request, Kind::Number]),
        (
            Hostcall::RequestMethodGet,
            &[Kind::Request, Kind::Range, Kind::Number, Kind::Place(4)],
        ),
        (
            Hostcall::RequestMethodSet,
            &[Kind::Request, Kind::Range, Kind::Number],
        ),
        (
            Hostcall::RequestUriGet,
            &[Kind::Request, Kind::Range, Kind::Number, Kind::Place(4)],
        ),
        (
            Hostcall::RequestUriSet,
            &[Kind::Request, Kind::Range, Kind::Number],
        ),
        (
            Hostcall::RequestBodyDownstreamGet,
            &[Kind::Place(4), Kind::Place(4)],
        ),
        (Hostcall::RequestHeaderNamesGet, REQUEST_NAMES),
        (Hostcall::RequestHeaderValueGet, REQUEST_VALUE),
        (Hostcall::RequestHeaderValuesGet, REQUEST_VALUES),
        (Hostcall::RequestHeaderValuesSet, REQUEST_TEXTS),
        (Hostcall::RequestHeaderInsert, REQUEST_TEXTS),
        (Hostcall::RequestHeaderAppend, REQUEST_TEXTS),
        (
            Hostcall::RequestHeaderRemove,
            &[Kind::Request, Kind::Range, Kind::Number],
        ),
    ]
}

fn responses() -> &'static [(Hostcall, &'static [Kind])] {
    &[
        (Hostcall::ResponseNew, &[Kind::Place(4)]),
        (Hostcall::ResponseClose, &[Kind::Response]),
        (
            Hostcall::ResponseVersionGet,
            &[Kind::Response, Kind::Place(4)],
        ),
        (
            Hostcall::ResponseVersionSet,
            &[Kind::Response, Kind::Number],
        ),
        (
            Hostcall::ResponseStatusGet,
            &[Kind::Response, Kind::Place(2)],
        ),
        (Hostcall::ResponseStatusSet, &[Kind::Response, Kind::Number]),
        (Hostcall::ResponseHeaderNamesGet, RESPONSE_NAMES),
        (Hostcall::ResponseHeaderValueGet, RESPONSE_VALUE),
        (Hostcall::ResponseHeaderValuesGet, RESPONSE_VALUES),
        (Hostcall::ResponseHeaderValuesSet, RESPONSE_TEXTS),
        (Hostcall::ResponseHeaderInsert, RESPONSE_TEXTS),
        (Hostcall::ResponseHeaderAppend, RESPONSE_TEXTS),
        (
            Hostcall::ResponseHeaderRemove,
            &[Kind::Response, Kind::Range, Kind::Number],
        ),
        (
            Hostcall::ResponseSendDownstream,
            &[Kind::Response, Kind::Body, Kind::Number],
        ),
    ]
}

fn bodies() -> &'static [(Hostcall, &'static [Kind])] {
    &[
        (Hostcall::BodyNew, &[Kind::Place(4)]),
        (Hostcall::BodyAppend, &[Kind::Body, Kind::Body]),
        (
            Hostcall::BodyRead,
            &[Kind::Body, Kind::Range, Kind::Number, Kind::Place(4)],
        ),
        (
            Hostcall::BodyWrite,
            &[
                Kind::Body,
                Kind::Range,
                Kind::Number,
                Kind::Number,
                Kind::Place(4),
            ],
        ),
        (Hostcall::BodyClose, &[Kind::Body]),
        (Hostcall::BodyAbandon, &[Kind::Body]),
        (Hostcall::BodyKnownLength, &[Kind::Body, Kind::Place(8)]),
    ]
}

fn stores() -> &'static [(Hostcall, &'static [Kind])] {
    &[
        (
            Hostcall::DictionaryOpen,
            &[Kind::Range, Kind::Number, Kind::Place(4)],
        ),
        (Hostcall::DictionaryGet, STORE_TEXT),
        (
            Hostcall::ConfigStoreOpen,
            &[Kind::Range, Kind::Number, Kind::Place(4)],
        ),
        (Hostcall::ConfigStoreGet, STORE_TEXT),
        (
            Hostcall::SecretStoreOpen,
            &[Kind::Range, Kind::Number, Kind::Place(4)],
        ),
        (
            Hostcall::SecretStoreGet,
            &[Kind::Store, Kind::Range, Kind::Number, Kind::Place(4)],
        ),
        (
            Hostcall::SecretStorePlaintext,
            &[Kind::Secret, Kind::Range, Kind::Number, Kind::Place(4)],
        ),
        (
            Hostcall::LogEndpointGet,
            &[Kind::Range, Kind::Number, Kind::Place(4)],
        ),
        (
            Hostcall::LogWrite,
            &[Kind::Endpoint, Kind::Range, Kind::Number, Kind::Place(4)],
        ),
    ]
}

fn wasi() -> &'static [(Hostcall, &'static [Kind])] {
    &[
        (
            Hostcall::WasiFdWrite,
            &[
                Kind::File,
                Kind::WasiVector,
                Kind::Number,
                Kind::WasiPlace(4),
            ],
        ),
        (Hostcall::WasiRandomGet, &[Kind::WasiRange, Kind::Number]),
        (
            Hostcall::WasiClockTimeGet,
            &[Kind::Number, Kind::Number, Kind::WasiPlace(8)],
        ),
        (
            Hostcall::WasiEnvironSizesGet,
            &[Kind::WasiPlace(4), Kind::WasiPlace(4)],
        ),
        (
            Hostcall::WasiArgsSizesGet,
            &[Kind::WasiPlace(4), Kind::WasiPlace(4)],
        ),
        (
            Hostcall::WasiEnvironGet,
            &[Kind::WasiNothing, Kind::WasiNothing],
        ),
        (
            Hostcall::WasiArgsGet,
            &[Kind::WasiNothing, Kind::WasiNothing],
        ),
    ]
}

fn cache() -> &'static [(Hostcall, &'static [Kind])] {
    &[
        (Hostcall::CacheLookup, LOOKUP),
        (Hostcall::CacheTransactionLookup, LOOKUP),
        (Hostcall::CacheTransactionLookupAsync, LOOKUP),
        (Hostcall::CacheInsert, INSERT),
        (Hostcall::CacheBusyHandleWait, &[Kind::Busy, Kind::Place(4)]),
        (Hostcall::CacheCloseBusy, &[Kind::Busy]),
        (Hostcall::CacheTransactionInsert, TX_INSERT),
        (
            Hostcall::CacheTransactionInsertAndStreamBack,
            TX_INSERT_AND_READ,
        ),
        (
            Hostcall::CacheTransactionUpdate,
            &[Kind::Lookup, Kind::Number, Kind::Record],
        ),
        (Hostcall::CacheTransactionCancel, &[Kind::Lookup]),
        (Hostcall::CacheClose, &[Kind::Lookup]),
    ]
}

fn lookups() -> &'static [(Hostcall, &'static [Kind])] {
    &[
        (Hostcall::CacheGetState, &[Kind::Lookup, Kind::Place(4)]),
        (
            Hostcall::CacheGetUserMetadata,
            &[Kind::Lookup, Kind::Range, Kind::Number, Kind::Place(4)],
        ),
        (Hostcall::CacheGetLength, &[Kind::Lookup, Kind::Place(8)]),
        (Hostcall::CacheGetMaxAgeNs, &[Kind::Lookup, Kind::Place(8)]),
        (
            Hostcall::CacheGetStaleWhileRevalidateNs,
            &[Kind::Lookup, Kind::Place(8)],
        ),
        (Hostcall::CacheGetAgeNs, &[Kind::Lookup, Kind::Place(8)]),
        (
            Hostcall::CacheGetBody,
            &[Kind::Lookup, Kind::Number, Kind::Number, Kind::Place(4)],
        ),
        (
            Hostcall::PurgeSurrogateKey,
            &[Kind::Range, Kind::Number, Kind::Number, Kind::Number],
        ),
    ]
}

/// Each call that has a handle or a place, in seven groups, and what its parameters are.
pub fn calls(group: u32) -> &'static [(Hostcall, &'static [Kind])] {
    match group {
        0 => requests(),
        1 => responses(),
        2 => bodies(),
        3 => stores(),
        4 => wasi(),
        5 => cache(),
        _ => lookups(),
    }
}

//! Stores, logs, clocks, random bytes and the rest of WASI.

use crate::said::Said;
use crate::steps::{Do, first_off_anew};
use edge_imports::Hostcall;
use std::test::Fail;

/// This interface is version 1. Each kind of store is opened, and its text is read, once into a buffer that is too small; what
/// isn't there is none, an unknown name or handle badf.
const TEXTS: &[Do] = &[
    Do::Put(16, b"namekey"),
    Do::Call(Hostcall::AbiInit, &[0], 5),
    Do::Call(Hostcall::AbiInit, &[1], 0),
    Do::Call(Hostcall::AbiInit, &[2], 5),
    Do::Call(Hostcall::DictionaryOpen, &[16, 4, 64], 0),
    Do::Call(Hostcall::DictionaryOpen, &[16, 3, 64], 3),
    Do::Call(Hostcall::DictionaryGet, &[1, 20, 2, 128, 8, 68], 10),
    Do::Call(Hostcall::DictionaryGet, &[2, 20, 3, 128, 8, 68], 3),
    Do::Call(Hostcall::DictionaryGet, &[1, 20, 3, 128, 8, 68], 0),
    Do::Has(64, b"\x01\0\0\0\x03\0\0\0"),
    Do::Has(128, b"one\0"),
    Do::Call(Hostcall::ConfigStoreOpen, &[16, 4, 72], 0),
    Do::Call(Hostcall::ConfigStoreGet, &[1, 20, 3, 136, 2, 76], 4),
    Do::Has(72, b"\x01\0\0\0\x03\0\0\0"),
    Do::Zeros(136, 3),
    Do::Call(Hostcall::ConfigStoreGet, &[1, 20, 3, 136, 3, 76], 0),
    Do::Has(136, b"two\0"),
    Do::Call(Hostcall::SecretStoreOpen, &[16, 4, 80], 0),
    Do::Call(Hostcall::SecretStoreGet, &[1, 20, 0, 84], 10),
    Do::Call(Hostcall::SecretStoreGet, &[1, 20, 3, 84], 0),
    Do::Call(Hostcall::SecretStorePlaintext, &[1, 144, 5, 88], 0),
    Do::Has(80, b"\x01\0\0\0\x01\0\0\0\x05\0\0\0"),
    Do::Has(144, b"three\0"),
];

#[test]
fn texts_of_stores(rt: HostRuntime) -> Result<(), Fail> {
    assert_eq!(rt; first_off_anew(rt.alloc(), &[TEXTS])?, None);
    Ok(())
}

/// Names of endpoints, and lines that are cut at their most bytes.
const LINES: &[Do] = &[
    Do::Put(16, b"logs"),
    Do::Call(Hostcall::LogEndpointGet, &[16, 0, 64], 2),
    Do::Call(Hostcall::LogEndpointGet, &[16, 257, 64], 2),
    Do::Call(Hostcall::LogEndpointGet, &[16, 256, 64], 0),
    Do::Call(Hostcall::LogEndpointGet, &[16, 4, 64], 0),
    Do::Has4(64, 2),
    Do::Goes(
        Hostcall::LogWrite,
        &[2, 16, 0, 68],
        &[Said::Sent],
        0,
        b"logs\0\0\0\0\0\0\0\0",
    ),
    Do::Has4(68, 0),
    Do::Goes(
        Hostcall::LogWrite,
        &[2, 16, 65535, 68],
        &[Said::Sent],
        0,
        b"logs\xff\xff\0\0\0\0\0\0",
    ),
    Do::Has4(68, 65535),
    Do::Goes(
        Hostcall::LogWrite,
        &[2, 16, 65536, 68],
        &[Said::Sent],
        0,
        b"logs\0\0\x01\0\0\0\0\0",
    ),
    Do::Has4(68, 65536),
    Do::Goes(
        Hostcall::LogWrite,
        &[2, 16, 65537, 72],
        &[Said::Sent],
        0,
        b"logs\0\0\x01\0\0\0\0\0",
    ),
    Do::Has4(72, 65536),
    Do::Goes(
        Hostcall::LogWrite,
        &[2, 16, 4, 68],
        &[Said::NotReady],
        1,
        b"logs\x04\0\0\0\0\0\0\0",
    ),
];

#[test]
fn lines_of_endpoints(rt: HostRuntime) -> Result<(), Fail> {
    assert_eq!(rt; first_off_anew(rt.alloc(), &[LINES])?, None);
    Ok(())
}

/// Four vectors: of 2 bytes, of 1, of 65,536, and one whose second byte is past the memory's end. Then lines of the two files:
/// where the vectors lie, and what they hold.
const FILES: &[Do] = &[
    Do::Put(16, b"abcd"),
    Do::Put4(256, 16),
    Do::Put4(260, 2),
    Do::Put4(264, 19),
    Do::Put4(268, 1),
    Do::Put4(272, 1024),
    Do::Put4(276, 65536),
    Do::Put4(280, 131071),
    Do::Put4(284, 2),
    Do::Goes(
        Hostcall::WasiFdWrite,
        &[1, 256, 2, 72],
        &[Said::Sent],
        0,
        b"stdout\x03\0\0\0\0\0\0\0",
    ),
    Do::Has4(72, 3),
    Do::Goes(
        Hostcall::WasiFdWrite,
        &[2, 256, 0, 72],
        &[Said::Sent],
        0,
        b"stderr\0\0\0\0\0\0\0\0",
    ),
    Do::Call(Hostcall::WasiFdWrite, &[0, 256, 2, 72], 8),
    Do::Call(Hostcall::WasiFdWrite, &[3, 131072, 2, 73], 8),
    Do::Call(Hostcall::WasiFdWrite, &[1, 256, 2, 73], 28),
    Do::Call(Hostcall::WasiFdWrite, &[1, 131072, 1, 72], 28),
    Do::Goes(
        Hostcall::WasiFdWrite,
        &[1, 272, 1, 72],
        &[Said::Sent],
        0,
        b"stdout\0\0\x01\0\0\0\0\0",
    ),
    Do::Call(Hostcall::WasiFdWrite, &[1, 256, 3, 72], 28),
    Do::Call(Hostcall::WasiFdWrite, &[1, 280, 1, 72], 28),
];

#[test]
fn lines_of_files(rt: HostRuntime) -> Result<(), Fail> {
    assert_eq!(rt; first_off_anew(rt.alloc(), &[FILES])?, None);
    Ok(())
}

/// What a clock says; another clock is inval.
const CLOCKS: &[Do] = &[
    Do::Goes(
        Hostcall::WasiClockTimeGet,
        &[1, 5, 80],
        &[Said::Now(77)],
        0,
        b"",
    ),
    Do::Call(Hostcall::WasiClockTimeGet, &[2, 5, 80], 28),
    Do::Goes(
        Hostcall::WasiClockTimeGet,
        &[0, 5, 88],
        &[Said::Sent],
        28,
        b"",
    ),
    Do::Has8(80, 77),
    Do::Zeros(88, 8),
];

#[test]
fn clocks(rt: HostRuntime) -> Result<(), Fail> {
    assert_eq!(rt; first_off_anew(rt.alloc(), &[CLOCKS])?, None);
    Ok(())
}

/// The first words of ChaCha with 20 rounds under a key of zeros, stream 0. They are known from outside: 76 b8 e0 ad a0 f1 3d
/// 90 40 5d 6a e5 53 86 bd 28 (RFC 8439, appendix A.1, test vector 1). Each call takes whole words of four bytes. Then the
/// arguments and the environment, of which there are none.
const WORDS: &[Do] = &[
    Do::Call(Hostcall::WasiRandomGet, &[65535, 65537], 28),
    Do::Call(Hostcall::WasiRandomGet, &[131072, 1], 28),
    Do::Call(Hostcall::WasiRandomGet, &[16, 3], 0),
    Do::Call(Hostcall::WasiRandomGet, &[24, 0], 0),
    Do::Call(Hostcall::WasiRandomGet, &[24, 8], 0),
    Do::Has(16, b"\x76\xb8\xe0\0\0\0\0\0"),
    Do::Has(24, b"\xa0\xf1\x3d\x90\x40\x5d\x6a\xe5"),
    Do::Call(Hostcall::WasiEnvironSizesGet, &[16, 20], 0),
    Do::Call(Hostcall::WasiArgsSizesGet, &[16, 22], 28),
    Do::Call(Hostcall::WasiEnvironGet, &[131072, 0], 0),
    Do::Call(Hostcall::WasiArgsGet, &[0, 131073], 28),
    Do::Zeros(16, 8),
];

#[test]
fn random_words(rt: HostRuntime) -> Result<(), Fail> {
    assert_eq!(rt; first_off_anew(rt.alloc(), &[WORDS])?, None);
    Ok(())
}

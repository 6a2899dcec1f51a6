use super::tables;
use session_hash::{SessionHash, TableTiger};
use std::alloc::Global;
use std::process::Abort;

/// Makes Tiger with its makers' tables. Where memory is refused, all is tried once more.
fn tiger(rt: &impl Abort, alloc: Global) -> TableTiger {
    let bytes = match tables::bytes(alloc) {
        Ok(bytes) => bytes,
        Err(_) => tables::bytes(alloc).expect(rt, "refused twice"),
    };
    match TableTiger::from_bytes(alloc, &bytes) {
        Ok(tiger) => tiger,
        Err(_) => match TableTiger::from_bytes(alloc, &bytes) {
            Ok(tiger) => tiger,
            Err(_) => panic!(rt; "refused twice"),
        },
    }
}

fn hex_of(digest: [u8; 24], text: &mut [u8; 48]) {
    for (place, byte) in digest.iter().enumerate() {
        text[2 * place] = b"0123456789abcdef"[usize::from(*byte / 16)];
        text[2 * place + 1] = b"0123456789abcdef"[usize::from(*byte % 16)];
    }
}

#[test]
fn digests_are_the_published_ones(rt: HostRuntime) {
    let tiger = tiger(&rt, rt.alloc());
    // The digests are those that the program rhash prints; byte i of the longer messages is
    // 7 * i + 1 modulo 251.
    let mut message = [0u8; 4096];
    for (place, byte) in message.iter_mut().enumerate() {
        *byte = ((7 * place + 1) % 251) as u8;
    }
    let mut text = [0; 48];
    for (bytes, digest) in [
        (
            b"".as_slice(),
            b"3293ac630c13f0245f92bbb1766e16167a4e58492dde73f3",
        ),
        (b"abc", b"2aab1484e8c158f2bfb8c5ff41b57a525129131c957b5f93"),
        (
            &message[..24],
            b"92ac7d9c3535c8f7d93a73ac5e983ebbd94db0c9bda2a8aa",
        ),
        (
            &message[..39],
            b"0060cfea1d7a207075d22d0305b819194d0dc04fa20a8984",
        ),
        (
            &message[..55],
            b"bbb1565c21695cf4d4e1901b92b089f72d48e0d8f6ef4467",
        ),
        (
            &message[..56],
            b"059bcb428dd8c96df9577dbfd406df165638cf122020b6e7",
        ),
        (
            &message[..63],
            b"9324d7ef4913bfebf7c053260b4e1ea37202854da7cd801c",
        ),
        (
            &message[..64],
            b"83f97566a3691be10fd57d1ece07d922c2c9501dc7b613d5",
        ),
        (
            &message[..65],
            b"7d08721b2bf619277812758ac57d2020145902ba9eae84d0",
        ),
        (
            &message[..119],
            b"8ee7a2f3edce3b057eb1ceeacd189a970e294b102c31cb79",
        ),
        (
            &message[..120],
            b"252d2129f77a5452de7b391308ccbe6e473d41ae94dc7efd",
        ),
        (
            &message[..128],
            b"81aff43d058460db353abbb4fa64c8277051b6a9467d6b92",
        ),
        (
            &message,
            b"fc2730ebf7fdec7d0577a9b2cb1f3c71e987db439c0bc234",
        ),
    ] {
        hex_of(tiger.digest(bytes), &mut text);
        assert!(rt; text == *digest, "{} bytes: {text:?}", bytes.len());
    }
}

#[test]
fn the_first_word_is_the_published_one(rt: HostRuntime) {
    let alloc = rt.alloc();
    let bytes = match tables::bytes(alloc) {
        Ok(bytes) => bytes,
        Err(_) => tables::bytes(alloc).expect(&rt, "refused twice"),
    };
    let first = [0x5e, 0x0c, 0xe9, 0xf7, 0x7c, 0xb1, 0xaa, 0x02];
    assert!(rt; &bytes[..8] == first.as_slice());
}

//! Messages as bytes.
use px_wire::{decode, encode};
use std::alloc::{AllocError, Global};
use std::test::Fail;

// Each is a message, in hexadecimal digits.
const MESSAGES: [(&str, &str); 5] = [
    (
        "two frames, a slot with a reference, and a cell with a text",
        "01 00000002 00000000 00 02  0000 00000000 0001 00000000 \
         00000001 0001 0000 05 00000000  00000000  00000001 00000000 00000000 04 0001 62",
    ),
    (
        "a frame that stays, and a slot with a truth",
        "01 00000000 00000000 01 00  00000001 0000 0000 03 01  00000000 00000000",
    ),
    ("a commit of nothing", "04 00000000 00000000"),
    (
        "headers of each kind, and values with each tag",
        "04 00000003 00 0102 0304 05060708 01 0001 0002 00000003 02 fffe fffd fffffffc \
         00000007 00000000 00000000 00  00000000 00000001 01 fffffffe \
         00000000 00000002 02 8000000000000001  00000001 00000000 03 00 \
         00000001 00000001 03 01  00000002 00000000 04 0002 007f  01000000 00000000 05 01020304",
    ),
    (
        "slots in order, of two frames",
        "01 00000000 00000000 02 00  00000003 0000 0001 00 0001 0000 00 0001 0002 00  00000000 00000000",
    ),
];

// None is a message.
const OTHERS: [(&str, &str); 16] = [
    ("nothing", ""),
    ("an unknown message alone", "07"),
    (
        "an unknown message",
        "07 00000000 00000000 01 00  00000001 0000 0000 03 01  00000000 00000000",
    ),
    (
        "a truth 2",
        "01 00000000 00000000 01 00  00000001 0000 0000 03 02  00000000 00000000",
    ),
    (
        "one byte too few",
        "01 00000000 00000000 01 00  00000001 0000 0000 03 01  00000000 000000",
    ),
    (
        "one byte left over behind a transfer",
        "01 00000000 00000000 01 00  00000001 0000 0000 03 01  00000000 00000000 00",
    ),
    (
        "one byte left over behind a commit",
        "04 00000000 00000000 00",
    ),
    (
        "many bytes left over",
        "04 00000000 00000000 04 00000000 00000000",
    ),
    (
        "a cell twice",
        "04 00000000 00000002 00000001 00000001 00 00000001 00000001 00",
    ),
    (
        "cells out of order",
        "04 00000000 00000002 00000001 00000001 00 00000001 00000000 00",
    ),
    (
        "slots out of order",
        "01 00000000 00000000 01 00  00000002 0001 0000 00 0000 0005 00  00000000 00000000",
    ),
    (
        "a byte 80 in a text",
        "04 00000000 00000001 00000000 00000000 04 0001 80",
    ),
    ("a kind 3", "04 00000001 03 0000 0000 00000000 00000000"),
    ("a tag 6", "04 00000000 00000001 00000000 00000000 06"),
    ("a count with nothing behind it", "04 ffffffff"),
    ("a message 0", "00 00000000 00000000"),
];

// The value of a digit.
fn digit(byte: u8) -> Option<u8> {
    match byte {
        b'0'..=b'9' => Some(byte - b'0'),
        b'a'..=b'f' => Some(byte - b'a' + 10),
        _ => None,
    }
}

/// Bytes from pairs of hexadecimal digits; what is no digit stands between them.
pub fn hex(alloc: Global, digits: &str) -> Result<Vec<u8>, AllocError> {
    let mut bytes = Vec::new(alloc);
    let mut high = None;
    for byte in digits.as_bytes() {
        let Some(low) = digit(*byte) else {
            continue;
        };
        match high {
            None => high = Some(low),
            Some(first) => {
                bytes.push((first & 15) << 4 | low)?;
                high = None;
            }
        }
    }
    Ok(bytes)
}

// The bytes of the message that the bytes spell, if they spell one.
fn told_again(alloc: Global, bytes: &[u8]) -> Result<Option<Vec<u8>>, AllocError> {
    match decode(alloc, bytes)? {
        Some(message) => Ok(Some(encode(alloc, &message)?)),
        None => Ok(None),
    }
}

#[test]
fn a_message_has_one_spelling(rt: HostRuntime) -> Result<(), Fail> {
    let alloc = rt.alloc();
    for (name, digits) in MESSAGES {
        let bytes = hex(alloc, digits)?;
        match told_again(alloc, bytes.as_slice())? {
            Some(again) => assert_eq!(rt; again.as_slice(), bytes.as_slice(), "{name}"),
            None => assert!(rt; false, "{name}"),
        }
    }
    Ok(())
}

#[test]
fn other_bytes_are_no_message(rt: HostRuntime) -> Result<(), Fail> {
    let alloc = rt.alloc();
    for (name, digits) in OTHERS {
        let bytes = hex(alloc, digits)?;
        let again = told_again(alloc, bytes.as_slice())?;
        assert!(rt; again.is_none(), "{name}");
    }
    Ok(())
}

#[test]
fn a_text_has_at_most_500_bytes(rt: HostRuntime) -> Result<(), Fail> {
    let alloc = rt.alloc();
    for (length, is_message) in [(500_u16, true), (501, false)] {
        let mut bytes = hex(alloc, "04 00000000 00000001 00000000 00000000 04")?;
        bytes.extend_from_slice(&length.to_be_bytes())?;
        for _ in 0..length {
            bytes.push(b'a')?;
        }
        let again = told_again(alloc, bytes.as_slice())?;
        assert_eq!(rt; again.is_some(), is_message, "{length}");
    }
    Ok(())
}

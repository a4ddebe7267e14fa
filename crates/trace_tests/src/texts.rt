//! Stamps, serials and names of sessions: their texts both ways, and bytes that are none.

use crate::fixtures::serial;
use std::process::Abort;
use tod_stamp::{NameError, Serial, Session, Stamp, StampError};

#[test]
fn stamps_have_their_texts(rt: HostRuntime) {
    let texts = [
        (0x64, *b"0000000000000064", *b"0000000000000064"),
        (0xAB, *b"00000000000000AB", *b"00000000000000aB"),
        (
            0x0123_4567_89AB_CDEF,
            *b"0123456789ABCDEF",
            *b"0123456789abcdef",
        ),
        (u64::MAX, *b"FFFFFFFFFFFFFFFF", *b"ffffffffffffffff"),
    ];
    for (number, text, other) in texts {
        assert_eq!(rt;
            (Stamp(number).text(), Stamp::read(&text)),
            (text, Ok(Stamp(number)))
        );
        assert_eq!(rt; Stamp::read(&other), Ok(Stamp(number)));
    }
    let refused = [
        (b"64".as_slice(), StampError::Length),
        (b"00000000000000064", StampError::Length),
        (b"000000000000006G", StampError::NotHex(15)),
        (b"@0000000:0000064", StampError::NotHex(0)),
    ];
    for (bytes, error) in refused {
        assert_eq!(rt; Stamp::read(bytes), Err(error));
    }
}

/// The name of a session.
fn session(rt: &impl Abort, name: &[u8]) -> Session {
    Session::read(name).expect(rt, "a name")
}

#[test]
fn names_have_their_fields(rt: HostRuntime) {
    assert_eq!(rt; serial(&rt, b"PRIM01").field(), *b"PRIM01");
    assert_eq!(rt; serial(&rt, b"A@#$9").field(), *b"A@#$9 ");
    assert_eq!(rt; Serial::from_field(b"A@#$9 "), Serial::read(b"A@#$9").ok());
    assert!(rt; serial(&rt, b"PRIM0") < serial(&rt, b"PRIM01"));
    assert!(rt; serial(&rt, b"PRIM01") < serial(&rt, b"PRIM1"));
    assert_eq!(rt; session(&rt, b"ABC").field(), *b"ABC     ");
    assert_eq!(rt; session(&rt, b"GENERATE").field(), *b"GENERATE");
    assert_eq!(rt; session(&rt, b"ABC").as_bytes(), b"ABC".as_slice());
    assert_eq!(rt;
        Session::from_field(b"ABC     "),
        Session::read(b"ABC").ok()
    );
}

#[test]
fn other_bytes_are_no_name(rt: HostRuntime) {
    let refused = [
        (b"".as_slice(), NameError::Length),
        (b"PRIMARY", NameError::Length),
        (b"PRi-", NameError::Char(2)),
        (b"AB ", NameError::Char(2)),
    ];
    for (bytes, error) in refused {
        assert_eq!(rt; Serial::read(bytes), Err(error));
    }
    for field in [b"      ".as_slice(), b"A B   ", b"PRIM0", b"PRIM01 "] {
        assert_eq!(rt; Serial::from_field(field), None);
    }
}

//! Lists of bytes, and sources of a reader's bytes and of bytes in memory: pieces, the end, and pulls that fail.

use crate::fixtures::{append, source};
use std::io::{Error, ErrorKind, Read, Result as ReadResult};
use xrc_edge::{Bytes, Failed, FileSource, Source};

// A reader whose first reads are interrupted, and whose next ones fail.
#[derive(Drop)]
struct Unsteady {
    interrupted: u32,
    failing: u32,
}

impl Read for Unsteady {
    fn read(&mut self, into: &mut [u8]) -> ReadResult<usize> {
        if self.interrupted > 0 {
            self.interrupted -= 1;
            return Err(Error::from(ErrorKind::Interrupted));
        }
        if self.failing > 0 {
            self.failing -= 1;
            return Err(Error::from(ErrorKind::Other));
        }
        into.fill(7);
        Ok(into.len())
    }
}

#[test]
fn the_bytes_of_a_reader_are_pulled(rt: HostRuntime) {
    let mut source = FileSource::new(b"0123456789".as_slice());
    let mut piece = [0; 7];
    assert_eq!(rt; source.pull(&mut piece), Ok(7));
    assert_eq!(rt; piece, *b"0123456");
    for count in [3, 0, 0] {
        assert_eq!(rt; source.pull(&mut piece), Ok(count));
    }
}

#[test]
fn an_interrupted_read_is_tried_again(rt: HostRuntime) {
    let mut source = FileSource::new(Unsteady {
        interrupted: 3,
        failing: 1,
    });
    let mut piece = [0; 4];
    assert_eq!(rt; source.pull(&mut piece), Err(Failed));
    assert_eq!(rt; source.pull(&mut piece), Ok(4));
    assert_eq!(rt; piece, [7; 4]);
}

#[test]
fn bytes_in_memory_come_in_pieces_and_marked_pulls_fail(rt: HostRuntime) {
    let mut source = source(&rt, rt.alloc(), b"0123456789", 7, &[0, 1, 1]);
    let mut piece = [0; 8];
    assert_eq!(rt; source.pull(&mut piece), Ok(7));
    for _ in 0..2 {
        assert_eq!(rt; source.pull(&mut piece), Err(Failed));
    }
    assert_eq!(rt; piece, *b"0123456\0");
    assert_eq!(rt; source.pull(&mut piece[..1]), Ok(1));
    for count in [2, 0, 0] {
        assert_eq!(rt; source.pull(&mut piece), Ok(count));
    }
    assert_eq!(rt; piece, *b"8923456\0");
}

#[test]
fn a_list_grows_at_its_end(rt: HostRuntime) {
    let alloc = rt.alloc();
    let mut bytes = Bytes::make(alloc);
    assert!(rt; bytes.is_empty());
    bytes.push(alloc, b'a').expect(&rt, "memory");
    append(&rt, alloc, &mut bytes, b"bcd");
    assert_eq!(rt; (bytes.as_slice(), bytes.len()), (b"abcd".as_slice(), 4));
    assert_eq!(rt; [bytes.get(3), bytes.get(4)], [Some(&b'd'), None]);
    bytes.truncate(2);
    assert_eq!(rt; bytes.as_slice(), b"ab".as_slice());
}

//! The first four bytes of a record.

ghost use Rattle.std.specs.Prelude.{◌≡◌, ◌≤◌, length};
ghost use Rattle.ckd_track.specs.Heads.{head_at, head_size, head_length};

use byteorder::{BigEndian, ByteOrder};

/// A record's number, and the lengths of its key and content.
#[derive(Clone, Copy, Debug)]
pub struct Head {
    pub number: u8,
    pub key_length: u8,
    pub content_length: u16,
}

impl Head {
    /// The head that stands at the front.
    pub fn first(bytes: &[u8]) -> Head
        requires { 4 ≤ length bytes.now }
        ensures { result ≡ head_at bytes.now }
    {
        Head {
            number: bytes[0],
            key_length: bytes[1],
            content_length: BigEndian::read_u16(&bytes[2..4]),
        }
    }

    /// The record's size on a track.
    pub fn size(self) -> usize
        ensures { result ≡ head_size self }
    {
        8 + self.key_length as usize + self.content_length as usize
    }

    /// The length of the record's spelling.
    pub fn spelled_length(self) -> usize
        ensures { result ≡ head_length self }
    {
        4 + self.key_length as usize + self.content_length as usize
    }
}

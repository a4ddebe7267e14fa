//! Bytes that are read field by field.

ghost use Rattle.std.specs.Prelude.{◌≡◌, ◌+◌, ◌-◌, ◌≤◌, length, nat_lt, nat_le, ◌&&◌, ◌<◌, IfOk};
ghost use Rattle.xrc_edge.specs.declared.limits.TheConstants.{LONGEST_TRACE};
ghost use Rattle.std.specs.Int.{w8, w16, w32, w64};
ghost use Rattle.tod_stamp.specs.Fields.{Left, bytes_at, number_at, within, any};

use crate::stop::NoRead;
use byteorder::{BigEndian, ByteOrder};
use std::marker::Model;

/// The bytes that are left to read, and the place of the first.
#[derive(Drop)]
pub struct Cursor<'a> {
    place: u64,
    bytes: &'a [u8],
}

impl<'a> Model for Cursor<'a> {
    ghost Value = { Left };

    ghost view = { λ c. record { place = c.place; bytes = c.bytes.now } };

    ghost invariant = { λ c. c.place + length c.bytes.now ≤ LONGEST_TRACE };
}

impl<'a> Cursor<'a> {
    ghost use Rattle.write_trace.specs.FieldReads.{GivesField};

    #[inline]
    pub fn new(place: u64, bytes: &'a [u8]) -> Cursor<'a>
        requires { place + length bytes.now ≤ LONGEST_TRACE }
        ensures { result ≡ record { place = place; bytes = bytes.now } }
    {
        Cursor { place, bytes }
    }

    #[inline]
    pub fn place(&self) -> u64
        ensures { result ≡ self.now.place }
    {
        self.place
    }

    #[inline]
    pub fn bytes(&self) -> &'a [u8]
        ensures value { result.now ≡ self.now.bytes }
        ensures within { self.now.place + length result.now ≤ LONGEST_TRACE }
    {
        self.bytes
    }

    /// The cursor at these bytes, which are what is left.
    #[inline]
    pub fn at_rest(&self, rest: &'a [u8]) -> Cursor<'a>
        requires { length rest.now ≤ length self.now.bytes }
        ensures { result ≡ record { place = self.now.place + (length self.now.bytes - length rest.now); bytes = rest.now } }
    {
        let place = self.place + (self.bytes.len() - rest.len()) as u64;
        Cursor { place, bytes: rest }
    }

    /// The next bytes, so many.
    #[inline]
    #[tactic(auto, unfolding(tod_stamp::specs::Fields::bytes_at))]
    pub fn front(self, count: usize) -> Result<(&'a [u8], Cursor<'a>), NoRead>
        ensures reads { GivesField (λ x. (x.0.now, x.1)) result (bytes_at count any self.entry) }
        ensures long { IfOk result (λ x. length x.0.now ≡ count) }
    {
        if self.bytes.len() < count {
            return Err(NoRead::Cut(self.place));
        }
        let (front, rest) = self.bytes.split_at(count);
        let place = self.place + count as u64;
        Ok((front, Cursor { place, bytes: rest }))
    }

    /// The next byte.
    #[inline]
    #[tactic(auto, unfolding(tod_stamp::specs::Fields::number_at, tod_stamp::specs::Fields::bytes_at))]
    pub fn any_byte(self) -> Result<(u8, Cursor<'a>), NoRead>
        ensures { GivesField (λ x. (x.0, x.1)) result (number_at w8 any self.entry) }
    {
        let (field, rest) = self.front(1)?;
        Ok((field[0], rest))
    }

    /// The next byte, from `low` to `high`.
    #[inline]
    #[tactic(auto, unfolding(tod_stamp::specs::Fields::number_at, tod_stamp::specs::Fields::bytes_at))]
    pub fn byte(self, low: u8, high: u8) -> Result<(u8, Cursor<'a>), NoRead>
        ensures { GivesField (λ x. (x.0, x.1)) result (number_at w8 (within low high) self.entry) }
    {
        let place = self.place;
        let (field, rest) = self.front(1)?;
        let number = field[0];
        if number < low || high < number {
            return Err(NoRead::Broken(place));
        }
        Ok((number, rest))
    }

    /// The next number of two bytes, below `limit`.
    #[inline]
    #[tactic(auto, unfolding(tod_stamp::specs::Fields::number_at, tod_stamp::specs::Fields::bytes_at))]
    pub fn number_below(self, limit: usize) -> Result<(u16, Cursor<'a>), NoRead>
        ensures reads { GivesField (λ x. (x.0, x.1)) result (number_at w16 (λ n. nat_lt n limit) self.entry) }
        ensures below { IfOk result (λ x. x.0 < limit) }
    {
        let place = self.place;
        let (field, rest) = self.front(2)?;
        let number = BigEndian::read_u16(field);
        if number as usize >= limit {
            return Err(NoRead::Broken(place));
        }
        Ok((number, rest))
    }

    /// The next number of two bytes, up to `most`.
    #[inline]
    #[tactic(auto, unfolding(tod_stamp::specs::Fields::number_at, tod_stamp::specs::Fields::bytes_at))]
    pub fn number_up_to(self, most: u16) -> Result<(u16, Cursor<'a>), NoRead>
        ensures { GivesField (λ x. (x.0, x.1)) result (number_at w16 (λ n. nat_le n most) self.entry) }
    {
        let place = self.place;
        let (field, rest) = self.front(2)?;
        let number = BigEndian::read_u16(field);
        if number > most {
            return Err(NoRead::Broken(place));
        }
        Ok((number, rest))
    }

    /// The next number of two bytes, from `low` to `high`.
    #[inline]
    #[tactic(auto, unfolding(tod_stamp::specs::Fields::number_at, tod_stamp::specs::Fields::bytes_at))]
    pub fn number_within(self, low: u16, high: u16) -> Result<(u16, Cursor<'a>), NoRead>
        ensures reads { GivesField (λ x. (x.0, x.1)) result (number_at w16 (within low high) self.entry) }
        ensures inside { IfOk result (λ x. (low ≤ x.0) × (x.0 ≤ high)) }
    {
        let place = self.place;
        let (field, rest) = self.front(2)?;
        let number = BigEndian::read_u16(field);
        if number < low || high < number {
            return Err(NoRead::Broken(place));
        }
        Ok((number, rest))
    }

    /// The next number of four bytes, up to `most`.
    #[inline]
    #[tactic(auto, unfolding(tod_stamp::specs::Fields::number_at, tod_stamp::specs::Fields::bytes_at))]
    pub fn long_up_to(self, most: u32) -> Result<(u32, Cursor<'a>), NoRead>
        ensures { GivesField (λ x. (x.0, x.1)) result (number_at w32 (λ n. nat_le n most) self.entry) }
    {
        let place = self.place;
        let (field, rest) = self.front(4)?;
        let number = BigEndian::read_u32(field);
        if number > most {
            return Err(NoRead::Broken(place));
        }
        Ok((number, rest))
    }

    /// The next number of four bytes, below `limit`.
    #[inline]
    #[tactic(auto, unfolding(tod_stamp::specs::Fields::number_at, tod_stamp::specs::Fields::bytes_at))]
    pub fn long_below(self, limit: u32) -> Result<(u32, Cursor<'a>), NoRead>
        ensures reads { GivesField (λ x. (x.0, x.1)) result (number_at w32 (λ n. nat_lt n limit) self.entry) }
        ensures below { IfOk result (λ x. x.0 < limit) }
    {
        let place = self.place;
        let (field, rest) = self.front(4)?;
        let number = BigEndian::read_u32(field);
        if number >= limit {
            return Err(NoRead::Broken(place));
        }
        Ok((number, rest))
    }

    /// The next number of four bytes, from `low` to `high`.
    #[inline]
    #[tactic(auto, unfolding(tod_stamp::specs::Fields::number_at, tod_stamp::specs::Fields::bytes_at))]
    pub fn long_within(self, low: u32, high: u32) -> Result<(u32, Cursor<'a>), NoRead>
        ensures { GivesField (λ x. (x.0, x.1)) result (number_at w32 (within low high) self.entry) }
    {
        let place = self.place;
        let (field, rest) = self.front(4)?;
        let number = BigEndian::read_u32(field);
        if number < low || high < number {
            return Err(NoRead::Broken(place));
        }
        Ok((number, rest))
    }

    /// The next stamp, of at least 1 and not below the last.
    #[inline]
    #[tactic(auto, unfolding(tod_stamp::specs::Fields::number_at, tod_stamp::specs::Fields::bytes_at))]
    pub fn stamp(self, last: u64) -> Result<(u64, Cursor<'a>), NoRead>
        ensures { GivesField (λ x. (x.0, x.1)) result (number_at w64 (λ n. nat_le 1 n && nat_le last n) self.entry) }
    {
        let place = self.place;
        let (field, rest) = self.front(8)?;
        let number = BigEndian::read_u64(field);
        if number < 1 || number < last {
            return Err(NoRead::Broken(place));
        }
        Ok((number, rest))
    }
}

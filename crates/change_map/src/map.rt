//! Maps of changed tracks.

ghost use Rattle.std.specs.Prelude.{◌≡◌, ◌<◌, ◌≤◌, ◌^◌, ◌↔◌, length, IfOk, IfSome, None};
ghost use Rattle.change_map.specs.Sets.{no_track, every_track, has_track, with_track, without_track, union, size, least_from, IsLeastFrom, HasNoneFrom};

use crate::words::{clear_words, count_words, next_bit, or_words, set_first};
use std::alloc::Global;
use std::marker::Model;
use xrc_edge::NoMemory;

/// The tracks of a word.
const TRACKS_OF_WORD: u32 = 64;

/// A set of tracks. Contracts see for each track, from track 0 on, whether it is in the set.
#[derive(Debug, Drop)]
pub struct ChangeMap {
    tracks: u32,
    words: Vec<u64>,
}

impl Model for ChangeMap {
    ghost use Rattle.std.specs.Prelude.{List, Bool};
    ghost use Rattle.change_map.specs.Words.{set_in, AreWordsSound};

    ghost Value = { List Bool };

    ghost view = { λ map. set_in map.tracks map.words.items };

    ghost invariant = { λ map. AreWordsSound map.tracks map.words.items };
}

impl ChangeMap {
    /// The set of none of so many tracks.
    pub fn make(alloc: Global, tracks: u32) -> Result<ChangeMap, NoMemory>
        ensures { IfOk result (λ map. map ≡ no_track tracks) }
    {
        let words = tracks.div_ceil(TRACKS_OF_WORD) as usize;
        Ok(ChangeMap {
            tracks,
            words: vec![in alloc; 0u64; words]?,
        })
    }

    /// How many tracks there are, in the set or not.
    pub fn tracks(&self) -> u32
        ensures { result ≡ length self.now }
    {
        self.tracks
    }

    /// Puts a track into the set.
    pub fn set(&mut self, x: u32)
        requires { x < length self.old }
        ensures { self.new ≡ with_track self.old x }
    {
        self.words[(x / TRACKS_OF_WORD) as usize] |= 1u64 << (x % TRACKS_OF_WORD);
    }

    /// Takes a track out of the set.
    pub fn clear(&mut self, x: u32)
        requires { x < length self.old }
        ensures { self.new ≡ without_track self.old x }
    {
        self.words[(x / TRACKS_OF_WORD) as usize] &= !(1u64 << (x % TRACKS_OF_WORD));
    }

    /// Whether the set has a track.
    pub fn has(&self, x: u32) -> bool
        requires { x < length self.now }
        ensures { result ≡ has_track self.now x }
    {
        (self.words[(x / TRACKS_OF_WORD) as usize] >> (x % TRACKS_OF_WORD)) & 1 == 1
    }

    /// Puts every track into the set.
    pub fn set_all(&mut self)
        ensures { self.new ≡ every_track (length self.old) }
    {
        set_first(self.words.as_mut_slice(), self.tracks);
    }

    /// Takes every track out of the set.
    pub fn clear_all(&mut self)
        ensures { self.new ≡ no_track (length self.old) }
    {
        clear_words(self.words.as_mut_slice());
    }

    /// Puts the tracks of another set of as many tracks into this one.
    pub fn or_with(&mut self, other: &ChangeMap)
        requires { length other.now ≡ length self.old }
        ensures { self.new ≡ union self.old other.now }
    {
        or_words(self.words.as_mut_slice(), other.words.as_slice());
    }

    /// The least track of the set from a track on; None exactly where it has none there.
    pub fn next_from(&self, x: u32) -> Option<u32>
        requires { x ≤ length self.now }
        ensures least { result ≡ least_from self.now x }
        ensures some { IfSome result (IsLeastFrom self.now x) }
        ensures none { (result ≡ None) ↔ HasNoneFrom self.now x }
    {
        next_bit(self.words.as_slice(), x)
    }

    /// How many tracks the set has.
    pub fn count(&self) -> u32
        ensures count { result ≡ size self.now }
        ensures within { result ≤ length self.now }
        ensures few { length self.now < 2 ^ 32 }
    {
        count_words(self.words.as_slice()) as u32
    }
}

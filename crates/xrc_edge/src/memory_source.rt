ghost use Rattle.std.specs.Prelude.{◌≡◌, ◌<◌, ◌≤◌, ◌↔◌, Some, drop, length, min, slice_index, IfOk, IsErr, IsTrue};
ghost use Rattle.xrc_edge.specs.Causes.{HasCause};
ghost use Rattle.xrc_edge.specs.MemorySources.{MemoryState, fresh, next_marked};
ghost use Rattle.xrc_edge.specs.Pulls.{Gives, FitsIn};

use crate::{Bytes, Failed, NoMemory, Source};
use std::alloc::Global;
use std::marker::Model;

/// Bytes in memory as a source that tells them. Its calls are counted from 0, and those that are marked fail.
#[derive(Drop)]
pub struct MemorySource {
    bytes: Bytes,
    position: usize,
    most: u32,
    fails: Bytes,
    calls: usize,
    faults: u64,
}

impl Model for MemorySource {
    ghost Value = { MemoryState };

    ghost view = { λ s. record { left = drop s.position s.bytes; most = s.most; fails = drop s.calls s.fails; faults = s.faults } };

    ghost invariant = { λ s. (s.position ≤ length s.bytes) × (0 < s.most) };
}

impl MemorySource {
    /// A source of these bytes that gives at most `most` of them a pull. Call i fails where `fails[i]` is 1; calls after
    /// the last of `fails` do not.
    pub fn make(
        _alloc: Global,
        bytes: Bytes,
        most: u32,
        fails: Bytes,
    ) -> Result<MemorySource, NoMemory>
        requires { 0 < most }
        ensures { IfOk result (λ source. source ≡ fresh bytes most fails) }
    {
        Ok(MemorySource {
            bytes,
            position: 0,
            most,
            fails,
            calls: 0,
            faults: 0,
        })
    }

    fn next_call_fails(&mut self) -> bool
        ensures marked { IsTrue result ↔ (slice_index self.old.fails 0 ≡ 1) }
        ensures counted { self.new ≡ next_marked self.old }
    {
        if self.calls >= self.fails.len() {
            return false;
        }
        let mark = self.fails.as_slice()[self.calls];
        self.calls += 1;
        mark == 1
    }
}

impl Source for MemorySource {
    ghost left = { λ s. Some s.left };

    ghost faults = { λ s. s.faults };

    /// A marked call fails and gives nothing, and no other call fails.
    fn pull(&mut self, into: &mut [u8]) -> Result<usize, Failed>
        requires { 0 < length into.old }
        ensures room { FitsIn result (length into.old) }
        ensures same_room { length into.new ≡ length into.old }
        ensures bytes { Gives (Some self.old.left) (Some self.new.left) result into.new }
        ensures cause { HasCause self.old.faults self.new.faults result }

        // Each call uses its mark.
        ensures marked { IsErr result ↔ (slice_index self.old.fails 0 ≡ 1) }
        ensures counted { self.new.fails ≡ drop 1 self.old.fails }
        ensures count { IfOk result (λ count. count ≡ min (min (length into.old) self.old.most) (length self.old.left)) }
        ensures same_most { self.new.most ≡ self.old.most }
    {
        if self.next_call_fails() {
            self.faults = self.faults.saturating_add(1);
            return Err(Failed);
        }
        let left = &self.bytes.as_slice()[self.position..];
        let count = into.len().min(self.most as usize).min(left.len());
        into[..count].copy_from_slice(&left[..count]);
        self.position += count;
        Ok(count)
    }
}

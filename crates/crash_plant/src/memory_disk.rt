ghost use Rattle.std.specs.Prelude.{◌≡◌, ◌<◌, ◌≤◌, ◌+◌, ◌++◌, [], ◌∷◌, length, map, slice_range, vec_len, vec_capacity, IfOk, IsOk, OnErr, OnOk};
ghost use Rattle.crash_plant.specs.Bytes.{patched};
ghost use Rattle.crash_plant.specs.DiskRemains.{left_of};
ghost use Rattle.crash_plant.specs.Pasts.{Chains, Chains-prop, Does, InTime, InTime-prop, last_till, moved, moved_entry, note_of};

use crate::PlainDisk;
use crate::entry::{Done, PastCall};
use crate::left::{fill_all, open_from};
use crate::plain_disk::{copy_out, patch};
use std::alloc::Global;
use std::snapshot::Snapshot;
use xrc_edge::NoMemory;

/// A disk in memory with a record of its writes and syncs.
#[derive(Drop)]
pub(crate) struct MemoryDisk {
    disk: PlainDisk,
    base: Snapshot<PlainDisk>,
    log: Vec<PastCall>,
    ghost chained: { Chains base.value.bytes.items (map note_of log.items) disk.bytes.items } by { Chains-prop base.value.bytes.items (map note_of log.items) disk.bytes.items },
    ghost in_time: { InTime 0 0 (map note_of log.items) } by { InTime-prop 0 0 (map note_of log.items) },
}

// Writes the bytes, and puts the call into the record.
fn note(
    disk: &mut PlainDisk,
    log: &mut Vec<PastCall>,
    now: u64,
    done: Done,
    place: u64,
    bytes: &[u8],
) -> Result<(), NoMemory>
    requires { place + length bytes.now ≤ length disk.old.bytes.items }
    ensures written { OnOk result (disk.new.bytes.items ≡ patched place bytes.now disk.old.bytes.items) }
    ensures noted { OnOk result (map note_of log.new.items ≡ map note_of log.old.items ++ record { since = now; till = now; done = done; after = disk.new.bytes.items } ∷ []) }
    ensures same { OnErr result (disk.new.bytes.items ≡ disk.old.bytes.items) }
    ensures same_log { OnErr result (map note_of log.new.items ≡ map note_of log.old.items) }
    ensures room { vec_len log.old < vec_capacity log.old → IsOk result }
{
    log.reserve(1)?;
    patch(&mut disk.bytes, place as usize, bytes);
    log.push_reserved(PastCall {
        since: now,
        till: now,
        done,
        after: Snapshot::of(disk),
    });
    Ok(())
}

fn move_entry(entry: &mut PastCall, lent: u64, till: u64)
    requires { lent + 1 < till }
    ensures { entry.new ≡ moved_entry lent till entry.old }
{
    if entry.till > lent {
        entry.since = entry.since.min(lent + 1);
        entry.till = till;
    }
}

// The calls after a moment were done between that and another.
fn move_entries(log: &mut Vec<PastCall>, lent: u64, till: u64)
    requires { lent + 1 < till }
    ensures { log.new.items ≡ map (moved_entry lent till) log.old.items }
{
    for entry in log.iter_mut() {
        move_entry(entry, lent, till);
    }
}

fn copied(alloc: Global, bytes: &[u8]) -> Result<Vec<u8>, NoMemory>
    ensures { IfOk result (λ copy. copy.items ≡ bytes.now) }
{
    Ok(bytes.to_vec(alloc)?)
}

impl MemoryDisk {
    ghost use Rattle.crash_plant.specs.MemoryDisk.{Alike, HasRoom, Moves, Notes, first_held, held, past_of};

    /// A disk without a past.
    pub(crate) fn new(alloc: Global, disk: PlainDisk) -> MemoryDisk
        ensures held { held result ≡ disk.bytes.items }
        ensures base { first_held result ≡ disk.bytes.items }
        ensures past { past_of result ≡ [] }
    {
        MemoryDisk {
            base: Snapshot::of(&disk),
            disk,
            log: Vec::new(alloc),
        }
    }

    pub(crate) fn length(&self) -> u64
        ensures { result ≡ length (held self.now) }
    {
        self.disk.bytes.len() as u64
    }

    pub(crate) fn read(&self, place: u64, into: &mut [u8])
        requires { place + length into.old ≤ length (held self.now) }
        ensures { into.new ≡ slice_range (held self.now) place (place + length into.old) }
    {
        copy_out(&self.disk.bytes, place as usize, into);
    }

    /// Writes bytes by a call that does this at a moment. Without memory for the record nothing is done.
    pub(crate) fn note(
        &mut self,
        now: u64,
        done: Done,
        place: u64,
        bytes: &[u8],
    ) -> Result<(), NoMemory>
        requires later { last_till 0 (past_of self.old) < now }
        requires range { place + length bytes.now ≤ length (held self.old) }
        requires does { Does done (held self.old) (patched place bytes.now (held self.old)) }
        ensures ok { OnOk result (Notes now done place bytes.now self.old self.new) }
        ensures err { OnErr result (Alike self.old self.new) }
        ensures room { HasRoom self.old → IsOk result }
    {
        note(&mut self.disk, &mut self.log, now, done, place, bytes)
    }

    /// What a crash leaves, where a choice fills the open ranges.
    pub(crate) fn left(&self, alloc: Global, choice: &[u8]) -> Result<PlainDisk, NoMemory>
        ensures { IfOk result (λ disk. disk.bytes.items ≡ left_of choice.now (past_of self.now) (held self.now)) }
    {
        let mut bytes = copied(alloc, &self.disk.bytes)?;
        let from = open_from(&self.log);
        fill_all(alloc, &mut bytes, &self.log[from..], choice)?;
        Ok(PlainDisk { bytes })
    }

    /// The disk once it was lent from a moment on and given back at another.
    pub(crate) fn moved(self, lent: u64, till: u64) -> MemoryDisk
        requires { lent + 1 < till }
        ensures { Moves lent till self result }
    {
        let MemoryDisk {
            disk,
            base,
            mut log,
        } = self;
        move_entries(&mut log, lent, till);
        MemoryDisk { disk, base, log }
    }
}

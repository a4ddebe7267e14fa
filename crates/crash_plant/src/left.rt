// What a crash leaves of a disk: the bytes that it holds, with chosen bytes in each range that is open.
ghost use Rattle.std.specs.Prelude.{◌≡◌, ◌≤◌, ◌+◌, ◌%◌, [], ℕ, drop, get_or, length, map, IfOk, OnOk};
ghost use Rattle.crash_plant.specs.DiskRemains.{all_filled, filled, open_begin, open_writes, repeated};
ghost use Rattle.crash_plant.specs.Pasts.{AllFit, Fits, note_of};

use crate::entry::{Done, PastCall};
use crate::plain_disk::patch;
use std::alloc::Global;
use xrc_edge::NoMemory;

// The byte of a choice at a place. The choice is repeated; it is zeros where it is empty.
fn chosen(choice: &[u8], place: u64) -> u8
    ensures { result ≡ get_or choice.now (place % length choice.now) 0 }
{
    if choice.is_empty() {
        0
    } else {
        choice[place as usize % choice.len()]
    }
}

fn repeat(alloc: Global, choice: &[u8], count: u64) -> Result<Vec<u8>, NoMemory>
    ensures { IfOk result (λ bytes. bytes.items ≡ repeated choice.now count) }
{
    let mut bytes = Vec::new(alloc);
    for i in 0..count {
        bytes.push(chosen(choice, i))?;
    }
    Ok(bytes)
}

fn fill(alloc: Global, bytes: &mut Vec<u8>, done: Done, choice: &[u8]) -> Result<(), NoMemory>
    requires { Fits (length bytes.old.items) done }
    ensures { OnOk result (bytes.new.items ≡ filled choice.now done bytes.old.items) }
{
    match done {
        Done::Write { place, count } => {
            let piece = repeat(alloc, choice, count)?;
            patch(bytes, place as usize, &piece);
            Ok(())
        }
        Done::Sync => Ok(()),
    }
}

// Where the open writes begin after a call, where they began before it.
fn begin_then(done: Done, from: usize, next: usize) -> usize
    ensures { result ≡ open_begin done from next }
{
    match done {
        Done::Write { .. } => from,
        Done::Sync => next,
    }
}

/// Where in the record the writes after the last sync begin.
pub(crate) fn open_from(log: &[PastCall]) -> usize
    ensures within { result ≤ length log.now }
    ensures open_ones { drop result (map note_of log.now) ≡ open_writes (map note_of log.now) }
{
    let mut from = 0;
    for i in 0..log.len() {
        from = begin_then(log[i].done, from, i + 1);
    }
    from
}

/// Fills the ranges of writes in turn.
pub(crate) fn fill_all(
    alloc: Global,
    bytes: &mut Vec<u8>,
    writes: &[PastCall],
    choice: &[u8],
) -> Result<(), NoMemory>
    requires { AllFit (length bytes.old.items) (map note_of writes.now) }
    ensures { OnOk result (bytes.new.items ≡ all_filled choice.now (map note_of writes.now) bytes.old.items) }
{
    for i in 0..writes.len() {
        fill(alloc, bytes, writes[i].done, choice)?;
    }
    Ok(())
}

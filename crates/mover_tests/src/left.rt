//! What is recovered from what a crash leaves.

ghost use Rattle.crash_plant.specs.Calls.{NoneLent};
ghost use Rattle.crash_plant.specs.MemoryPlant.{memory_state};

use crate::courses::session;
use crash_plant::{Device, MemoryPlant, Plant};
use pair_table::PairState;
use std::alloc::Global;
use std::process::Abort;
use std::thread::Threads;
use test_fixtures::content;
use xrecover::recover;

/// What a crash may leave in an open range: zeros, or bytes FF.
pub(crate) const CHOICES: [&[u8]; 2] = [&[], &[0xFF]];

pub(crate) const DUPLEX: Option<PairState> = Some(PairState::Duplex);

/// The first bytes of a slot that holds record 1 alone, of two bytes.
pub(crate) const fn slot(content: [u8; 2]) -> [u8; 8] {
    [0, 1, 1, 0, 0, 2, content[0], content[1]]
}

/// The first bytes of a slot without a record.
pub(crate) const EMPTY: [u8; 8] = [0; 8];

/// What a volume holds.
#[derive(Clone, Copy)]
pub(crate) struct Held {
    /// The first bytes of its label.
    pub(crate) label: [u8; 8],
    /// The first bytes of each track's slot.
    pub(crate) slots: [[u8; 8]; 15],
}

/// What is recovered.
#[derive(Drop)]
pub(crate) struct Left {
    pub(crate) time: u64,
    /// The state of the row of volume 0.
    pub(crate) state: Option<PairState>,
    /// What volume 0 holds.
    pub(crate) held: Held,
}

/// The first bytes of each track's slot on a volume.
fn slots_of<P: Plant>(plant: &mut P, device: u16) -> [[u8; 8]; 15]
    requires { NoneLent (P.state plant.old) }
    ensures { NoneLent (P.state plant.new) }
{
    let mut slots = [[0; 8]; 15];
    for track in 0..15u64 {
        let found = content(plant, Device::Volume(device), 512 + track * 57_344);
        slots[track as usize] = found.unwrap_or([0; 8]);
    }
    slots
}

/// What a volume holds.
fn held_by<P: Plant>(plant: &mut P, device: u16) -> Held
    requires { NoneLent (P.state plant.old) }
    ensures { NoneLent (P.state plant.new) }
{
    let label = content(plant, Device::Volume(device), 0).unwrap_or([0; 8]);
    let slots = slots_of(plant, device);
    Held { label, slots }
}

/// What is recovered from the plant that a crash left.
#[tactic(auto, using(crate::proofs::Homes::works_home))]
fn recovered_of<R: Threads + Sync + Abort, P: Plant>(rt: &R, alloc: Global, left: &mut P) -> Left
    requires { NoneLent (P.state left.old) }
{
    let Ok(outcome) = recover(rt, alloc, left, session(rt)) else {
        panic!(rt; "a recovery");
    };
    let row = outcome.means.table.row_of(0);
    Left {
        time: outcome.means.time.0,
        state: row.map(|row| row.state),
        held: held_by(left, 0),
    }
}

/// What is recovered from what a crash leaves now, with open ranges filled by this choice.
pub(crate) fn recovered<R: Threads + Sync + Abort>(
    rt: &R,
    alloc: Global,
    plant: &MemoryPlant,
    choice: &[u8],
) -> Left
    requires { NoneLent (memory_state plant.now) }
{
    let mut left = plant.crash(alloc, choice).expect(rt, "memory");
    recovered_of(rt, alloc, &mut left)
}

//! Calls on a plant of which no volume is lent.

ghost use Rattle.crash_plant.specs.Calls.{NoneLent};

use crate::fixtures::{assert_there, read_at, sync_at, write_at};
use crash_plant::{Device, Disk, Plant};
use std::process::Abort;
use xrc_edge::Failed;

#[derive(Clone, Copy, Debug)]
pub(crate) enum Call {
    Read(Device),
    Write(Device),
    Sync(Device),
    Hear,
    Say,
    // A sync of a volume that is lent for it.
    Lent(u16),
}

/// The place of a device that is read and written.
pub(crate) const PLACE: u64 = 5;

/// What is written and said.
pub(crate) const WORD: [u8; 4] = *b"WXYZ";

#[tactic(auto, using(crash_plant::proofs::Steps::none_lent_console))]
pub(crate) fn perform<P: Plant>(rt: &impl Abort, plant: &mut P, call: Call) -> Result<(), Failed>
    requires { NoneLent (P.state plant.old) }
    ensures { NoneLent (P.state plant.new) }
{
    match call {
        Call::Read(device) => read_at(rt, plant, device, PLACE, &mut [0; 4]),
        Call::Write(device) => write_at(rt, plant, device, PLACE, &WORD),
        Call::Sync(device) => sync_at(rt, plant, device),
        Call::Hear => plant.hear().map(|_| ()),
        Call::Say => plant.say(&WORD),
        Call::Lent(number) => sync_lent(rt, plant, number),
    }
}

fn sync_lent<P: Plant>(rt: &impl Abort, plant: &mut P, number: u16) -> Result<(), Failed>
    requires { NoneLent (P.state plant.old) }
    ensures { NoneLent (P.state plant.new) }
{
    assert_there(rt, plant, Device::Volume(number));
    let mut volume = plant.lend(number);
    let outcome = volume.sync();
    plant.give_back(number, volume);
    outcome
}

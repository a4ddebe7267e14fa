//! Plants in memory, and calls at places of a device that is asserted to be there.

ghost use Rattle.std.specs.Prelude.{◌≤◌, ◌+◌};
ghost use Rattle.crash_plant.specs.Calls.{IsThere, NoneLent};
ghost use Rattle.crash_plant.specs.MemoryPlant.{memory_state};
ghost use Rattle.crash_plant.specs.PlainPlant.{plain_state};

use crash_plant::{Device, Fail, MemoryPlant, PlainPlant, Plant};
use std::alloc::Global;
use std::fmt::Debug;
use std::process::Abort;
use test_fixtures::{content, failing, is_there, is_within, zeros};
use xrc_edge::Failed;

/// What was found is what was expected. The message names the case.
pub(crate) fn assert_same<T: PartialEq + Debug>(
    rt: &impl Abort,
    found: &T,
    expected: &T,
    case: &impl Debug,
) {
    assert_eq!(rt; found, expected, "{case:?}");
}

/// A plant of one journal of 64 bytes, so many volumes of as many, and a script of two bytes.
pub(crate) fn plain(rt: &impl Abort, alloc: Global, volumes: u16) -> PlainPlant
    ensures { NoneLent (plain_state result) }
{
    zeros(alloc, (1, 64), (volumes, 64), b"hi").expect(rt, "memory")
}

/// Such a plant with its past, and with calls that fail.
pub(crate) fn planned(rt: &impl Abort, alloc: Global, volumes: u16, fails: &[Fail]) -> MemoryPlant
    ensures { NoneLent (memory_state result) }
{
    failing(alloc, plain(rt, alloc, volumes), fails).expect(rt, "memory")
}

pub(crate) fn assert_there<P: Plant>(rt: &impl Abort, plant: &P, device: Device)
    requires { NoneLent (P.state plant.now) }
    ensures { IsThere (P.state plant.now) device }
{
    assert!(rt; is_there(plant, device));
}

/// Asserts that a device is there, and that so many bytes from a place on are within it.
fn assert_within<P: Plant>(rt: &impl Abort, plant: &P, device: Device, place: u64, count: usize)
    requires { NoneLent (P.state plant.now) }
    ensures there { IsThere (P.state plant.now) device }
    ensures within { place + count ≤ (P.state plant.now).lengths device }
{
    assert!(rt; is_within(plant, device, place, count));
}

#[tactic(auto, using(crash_plant::proofs::Steps::none_lent_then))]
pub(crate) fn read_at<P: Plant>(
    rt: &impl Abort,
    plant: &mut P,
    device: Device,
    place: u64,
    into: &mut [u8],
) -> Result<(), Failed>
    requires { NoneLent (P.state plant.old) }
    ensures { NoneLent (P.state plant.new) }
{
    assert_within(rt, plant, device, place, into.len());
    plant.read(device, place, into)
}

#[tactic(auto, using(crash_plant::proofs::Steps::none_lent_then))]
pub(crate) fn write_at<P: Plant>(
    rt: &impl Abort,
    plant: &mut P,
    device: Device,
    place: u64,
    bytes: &[u8],
) -> Result<(), Failed>
    requires { NoneLent (P.state plant.old) }
    ensures { NoneLent (P.state plant.new) }
{
    assert_within(rt, plant, device, place, bytes.len());
    plant.write(device, place, bytes)
}

#[tactic(auto, using(crash_plant::proofs::Steps::none_lent_then))]
pub(crate) fn sync_at<P: Plant>(
    rt: &impl Abort,
    plant: &mut P,
    device: Device,
) -> Result<(), Failed>
    requires { NoneLent (P.state plant.old) }
    ensures { NoneLent (P.state plant.new) }
{
    assert_there(rt, plant, device);
    plant.sync(device)
}

/// A device holds these bytes at a place.
pub(crate) fn assert_holds<P: Plant, const N: usize>(
    rt: &impl Abort,
    plant: &mut P,
    device: Device,
    place: u64,
    expected: &[u8; N],
)
    requires { NoneLent (P.state plant.old) }
    ensures { NoneLent (P.state plant.new) }
{
    let found = content(plant, device, place);
    assert_same(rt, &found, &Some(*expected), &(device, place));
}

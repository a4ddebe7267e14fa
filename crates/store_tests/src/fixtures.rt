//! What the tests share: plants, sites with pairs, groups, and what a crash leaves.

ghost use Rattle.std.specs.Prelude.{◌≡◌, IfOk, OnOk};
ghost use Rattle.crash_plant.specs.Calls.{NoneLent};
ghost use Rattle.crash_plant.specs.MemoryPlant.{memory_state};
ghost use Rattle.crash_plant.specs.PlainPlant.{plain_state};
ghost use Rattle.site_store.specs.IdleSites.{IsSiteIdle};

use crate::calls::{JOURNAL_LENGTH, put_row, session, start_at};
use crate::entries::add;
use ckd_track::Kind;
use crash_plant::{Device, Fail, MemoryPlant, PlainPlant, Plant};
use pair_table::{Level, PairRow, PairState, PairTable, SuspendCause};
use pending_queue::Formed;
use site_means::SiteError;
use site_store::{Site, StoreError};
use std::alloc::Global;
use std::fmt::Debug;
use std::process::Abort;
use std::thread::Threads;
use test_fixtures::{content, failing, is_there, put, zeros};
use tod_stamp::{Serial, Stamp};
use xrecover::{RecoverError, recover};

/// What was found is what was expected. The message names the case.
pub(crate) fn assert_same<T: PartialEq + Debug>(
    rt: &impl Abort,
    found: &T,
    expected: &T,
    case: &impl Debug,
) {
    assert_eq!(rt; found, expected, "{case:?}");
}

pub(crate) const DUPLEX: Option<PairState> = Some(PairState::Duplex);

/// What a crash may leave in an open range: zeros, bytes 01, or bytes FF.
pub(crate) const CHOICES: [&[u8]; 3] = [&[], &[0x01], &[0xFF]];

/// How many bytes are filled at once.
const CHUNK: usize = 1_024;

/// PRIM01 and SECN01 stand for device 0, and so on.
pub(crate) fn serial(rt: &impl Abort, front: &[u8; 4], device: u16) -> Serial {
    assert!(rt; device < 9);
    let mut name = [b'0'; 6];
    name[..4].copy_from_slice(front);
    name[5] = b'1' + device as u8;
    Serial::read(&name).expect(rt, "a name")
}

/// The row of a device: of the volume of controller 0 with the device's number.
pub(crate) fn row(rt: &impl Abort, device: u16, cylinders: u32, state: PairState) -> PairRow {
    PairRow {
        primary: serial(rt, b"PRIM", device),
        secondary: serial(rt, b"SECN", device),
        control: 0,
        volume: device,
        device,
        cylinders,
        state,
        group: None,
    }
}

pub(crate) const fn suspended(cause: SuspendCause, since: u64) -> PairState {
    PairState::Suspended {
        cause,
        since: Stamp(since),
    }
}

/// Fills a device with a byte. Its length is a multiple of the chunk's.
fn fill(rt: &impl Abort, plant: &mut PlainPlant, device: Device, byte: u8)
    requires { NoneLent (plain_state plant.old) }
    ensures { NoneLent (plain_state plant.new) }
{
    assert!(rt; is_there(plant, device));
    let pieces = plant.length(device) / CHUNK as u64;
    for piece in 0..pieces {
        let place = piece.saturating_mul(CHUNK as u64);
        assert!(rt; put(plant, device, place, &[byte; CHUNK]));
    }
}

/// A plant of volumes of this many cylinders, whose journals and control have the byte 1 throughout.
pub(crate) fn plant(
    rt: &impl Abort,
    alloc: Global,
    volumes: u16,
    cylinders: u32,
    fails: &[Fail],
) -> MemoryPlant
    ensures { NoneLent (memory_state result) }
{
    let volume = 512 + u64::from(cylinders) * 860_160;
    let made = zeros(alloc, (2, JOURNAL_LENGTH), (volumes, volume), b"");
    let mut plain = made.expect(rt, "memory");
    fill(rt, &mut plain, Device::Control, 1);
    fill(rt, &mut plain, Device::Journal(0), 1);
    fill(rt, &mut plain, Device::Journal(1), 1);
    failing(alloc, plain, fails).expect(rt, "memory")
}

/// A site that has started at [50].
pub(crate) fn start<P: Plant>(
    rt: &impl Abort,
    alloc: Global,
    plant: &mut P,
    level: Level,
) -> Result<Site<P::Volume>, StoreError>
    requires { NoneLent (P.state plant.old) }
    ensures home { NoneLent (P.state plant.new) }
    ensures idle { IfOk result (λ site. IsSiteIdle P.tells site (P.state plant.new)) }
{
    start_at(rt, alloc, plant, level, Stamp(0x50))
}

/// Duplex pairs are put for the first devices, and logged at [60].
#[tactic(auto, using(crate::proofs::Between::idle_home))]
pub(crate) fn pair<P: Plant>(
    rt: &impl Abort,
    alloc: Global,
    plant: &mut P,
    site: &mut Site<P::Volume>,
    devices: u16,
    cylinders: u32,
) -> Result<(), StoreError>
    requires { IsSiteIdle P.tells site.old (P.state plant.old) }
    ensures home { NoneLent (P.state plant.new) }
    ensures idle { OnOk result (IsSiteIdle P.tells site.new (P.state plant.new)) }
{
    for device in 0..devices {
        let row = row(rt, device, cylinders, PairState::Duplex);
        put_row(rt, alloc, plant, site, row, Stamp(0x60))?;
    }
    Ok(())
}

/// A site that has started at [50], with so many duplex pairs that were logged at [60].
pub(crate) fn paired<P: Plant>(
    rt: &impl Abort,
    alloc: Global,
    plant: &mut P,
    level: Level,
    devices: u16,
    cylinders: u32,
) -> Site<P::Volume>
    requires { NoneLent (P.state plant.old) }
    ensures { IsSiteIdle P.tells result (P.state plant.new) }
{
    let mut site = start(rt, alloc, plant, level).expect(rt, "a start");
    pair(rt, alloc, plant, &mut site, devices, cylinders).expect(rt, "pairs");
    site
}

/// A group with this cut and no entries.
pub(crate) fn group(rt: &impl Abort, alloc: Global, cut: u64) -> Formed
    ensures { result.controls ≡ 1 }
{
    let mut formed = Formed::make(alloc, 1).expect(rt, "memory");
    formed.begin(Stamp(cut));
    formed
}

/// A group with this cut, with an entry on track 0 of each of these volumes.
pub(crate) fn group_of<F: Fn(u16) -> Kind>(
    rt: &impl Abort,
    alloc: Global,
    cut: u64,
    volumes: u16,
    kind: F,
) -> Formed
    requires { F.IsAlwaysCallable kind }
    ensures { result.controls ≡ 1 }
{
    let mut formed = group(rt, alloc, cut);
    for volume in 0..volumes {
        add(rt, alloc, &mut formed, (volume, 0), cut, kind(volume));
    }
    formed
}

/// What is recovered from what a crash leaves.
#[derive(Drop)]
pub(crate) struct Left {
    pub(crate) time: u64,
    pub(crate) states: [Option<PairState>; 3],
    /// The first bytes of the slot of one track of each volume.
    pub(crate) slots: [[u8; 8]; 3],
}

/// The state of a device's row.
pub(crate) fn state_of(table: &PairTable, device: u16) -> Option<PairState> {
    Some(table.row_of(device)?.state)
}

/// The states of the rows of the first devices.
pub(crate) fn states_of(table: &PairTable) -> [Option<PairState>; 3] {
    [state_of(table, 0), state_of(table, 1), state_of(table, 2)]
}

/// The first bytes of a track's slot of each of the first volumes, and zeros of a volume that isn't there.
fn slots_of<P: Plant>(plant: &mut P, track: u32) -> [[u8; 8]; 3]
    requires { NoneLent (P.state plant.old) }
{
    let place = 512 + u64::from(track) * 57_344;
    let mut slots = [[0; 8]; 3];
    for device in 0..3 {
        let slot = content(plant, Device::Volume(device), place);
        slots[usize::from(device)] = slot.unwrap_or([0; 8]);
    }
    slots
}

/// The same of what a crash leaves now, with open ranges filled by this choice.
pub(crate) fn slots_left(
    rt: &impl Abort,
    alloc: Global,
    plant: &MemoryPlant,
    choice: &[u8],
    track: u32,
) -> [[u8; 8]; 3]
    requires { NoneLent (memory_state plant.now) }
{
    let mut left = plant.crash(alloc, choice).expect(rt, "memory");
    slots_of(&mut left, track)
}

/// What is recovered from the plant that a crash left, with the slots of a track; none where no session is there.
#[tactic(auto, using(crate::proofs::Between::works_home))]
fn recovered_of<R: Threads + Sync + Abort, P: Plant>(
    rt: &R,
    alloc: Global,
    left: &mut P,
    track: u32,
) -> Option<Left>
    requires { NoneLent (P.state left.old) }
{
    match recover(rt, alloc, left, session(rt)) {
        Ok(outcome) => Some(Left {
            time: outcome.means.time.0,
            states: states_of(&outcome.means.table),
            slots: slots_of(left, track),
        }),
        Err(error) => {
            assert!(rt; has_no_session(&error), "{error:?}");
            None
        }
    }
}

/// What is recovered from what a crash leaves now, with open ranges filled by this choice, and the slots of track 0; none where no
/// session is there.
pub(crate) fn recovered<R: Threads + Sync + Abort>(
    rt: &R,
    alloc: Global,
    plant: &MemoryPlant,
    choice: &[u8],
) -> Option<Left>
    requires { NoneLent (memory_state plant.now) }
{
    recovered_with(rt, alloc, plant, choice, 0)
}

/// The same with the slots of another track.
pub(crate) fn recovered_with<R: Threads + Sync + Abort>(
    rt: &R,
    alloc: Global,
    plant: &MemoryPlant,
    choice: &[u8],
    track: u32,
) -> Option<Left>
    requires { NoneLent (memory_state plant.now) }
{
    let mut left = plant.crash(alloc, choice).expect(rt, "memory");
    recovered_of(rt, alloc, &mut left, track)
}

/// No gate of the control is open, or the control is damaged while a session starts.
fn has_no_session(error: &RecoverError) -> bool {
    matches!(
        error,
        RecoverError::Site(SiteError::NoSession | SiteError::Damaged(Device::Control, _))
    )
}

//! A site as the finished session of an input would leave it: its mark and its rows, and on each volume the tracks with the trace's
//! writes.

ghost use Rattle.std.specs.Prelude.{◌≡◌, true, None, Some, slice_get, IsTrue};
ghost use Rattle.std.specs.List.{All};
ghost use Rattle.crash_plant.specs.Calls.{NoneLent};
ghost use Rattle.crash_plant.specs.PlainPlant.{plain_state};
ghost use Rattle.pair_table.specs.declared.row.PairRow.{PairRow as RowValue};
ghost use Rattle.pair_table.specs.Tables.{are_below};
ghost use Rattle.site_means.specs.Answers.{first_short};
ghost use Rattle.workload.specs.Summaries.{HasTracks, MayBeSummedUp};

use ckd_track::{Track, slot_place};
use crash_plant::{Device, PlainPlant, Plant};
use pair_table::{Level, PairRow, PairState, PairTable};
use site_means::{check_lengths, examine};
use std::alloc::Global;
use std::process::Abort;
use test_fixtures::put;
use tod_stamp::{Serial, Session};
use volume_label::need;
use write_trace::{Entry, read_entries, start};
use xrc_edge::{Bytes, MemorySource};

/// A mark of GEN with the number 1: state slot 0, journal 0, place 0, record 1, time DAC, ended.
const MARK: [u8; 49] =
    *b"\x01XCTL\0\0\0\0\0\0\0\x01GEN     \0\0\0\0\0\0\0\0\0\0\0\0\0\0\0\0\0\0\x01\0\0\0\0\0\0\x0D\xAC\x01";

fn serial(rt: &impl Abort, letter: u8, number: u16) -> Serial {
    let name = [b'G', letter, b'0' + (number % 10) as u8];
    Serial::read(&name).expect(rt, "a serial")
}

/// The pair of a device, of one cylinder.
fn row(rt: &impl Abort, device: u16, state: PairState) -> PairRow {
    PairRow {
        primary: serial(rt, b'P', device),
        secondary: serial(rt, b'S', device),
        control: device / 2,
        volume: device % 2,
        device,
        cylinders: 1,
        state,
        group: None,
    }
}

/// The rows of the eight pairs: the first in a state, the others duplex.
fn rows(rt: &impl Abort, alloc: Global, first: PairState) -> PairTable {
    let session = Session::read(b"GEN").expect(rt, "a name");
    let mut table = PairTable::make(alloc, session).expect(rt, "memory");
    for device in 0..8 {
        let state = if device == 0 {
            first
        } else {
            PairState::Duplex
        };
        let row = row(rt, device, state);
        assert!(rt; table.may_put(&row));
        table.put_row(alloc, row).expect(rt, "memory");
    }
    table
}

/// Puts the rows and the mark.
#[tactic(auto, using(crash_plant::proofs::Steps::none_lent_then))]
pub(crate) fn put_site(rt: &impl Abort, alloc: Global, plant: &mut PlainPlant, first: PairState)
    requires { NoneLent (plain_state plant.old) }
    ensures { NoneLent (plain_state plant.new) }
{
    let table = rows(rt, alloc, first);
    assert!(rt; plant.length(Device::State) >= 16_384);
    assert!(rt; table.are_devices_below(plant.volumes()));
    state_set::put(plant, 0, Level::Volume, &table).expect(rt, "the state");
    assert!(rt; put(plant, Device::Control, 0, &MARK));
}

/// Does to a track what the entries of its volume and number do.
fn apply_all(
    rt: &impl Abort,
    alloc: Global,
    entries: &[Entry],
    volume: u16,
    number: u32,
    track: &mut Track,
) {
    for entry in entries {
        if let Entry::Written(write) = entry {
            if write.volume == volume && write.track == number {
                assert!(rt; write.kind.keeps_rules());
                track.apply(alloc, write).expect(rt, "memory");
            }
        }
    }
}

/// Writes the tracks of a controller's volumes, with all its writes, into the slots of its devices.
pub(crate) fn put_tracks(
    rt: &impl Abort,
    alloc: Global,
    plant: &mut PlainPlant,
    source: &mut MemorySource,
    control: u16,
)
    requires { NoneLent (plain_state plant.old) }
    ensures { NoneLent (plain_state plant.new) }
{
    let (header, mut reader) = start(alloc, source).expect(rt, "a header");
    let read = read_entries(alloc, &mut reader, source);
    let (entries, _) = read.expect(rt, "memory");
    let mut base = header.base.into_vec();
    for place in 0..base.len() {
        assert!(rt; place < base.len());
        let (volume, number, track) = &mut base[place];
        apply_all(rt, alloc, entries.as_slice(), *volume, *number, track);
        let mut image = Bytes::make(alloc);
        track.encode_image(alloc, &mut image).expect(rt, "memory");
        assert!(rt; control < 100 && *volume < 100 && *number < 100);
        let device = Device::Volume(2 * control + *volume);
        assert!(rt; put(plant, device, slot_place(*number), image.as_slice()));
    }
}

/// Whether the volume of the pair at a place is long enough for the pair's tracks.
fn has_tracks(plant: &PlainPlant, table: &PairTable, place: u16) -> bool
    requires home { NoneLent (plain_state plant.now) }
    requires below { IsTrue (are_below (plain_state plant.now).volumes table.now.rows) }
    ensures { (row : RowValue) → slice_get table.now.rows place ≡ Some row → result ≡ true → HasTracks (plain_state plant.now) row }
{
    match table.row(place) {
        Some(row) => need(row.cylinders) <= plant.length(Device::Volume(row.device)),
        None => false,
    }
}

/// Whether the volumes of all pairs are.
fn have_tracks(plant: &PlainPlant, table: &PairTable) -> bool
    requires home { NoneLent (plain_state plant.now) }
    requires below { IsTrue (are_below (plain_state plant.now).volumes table.now.rows) }
    ensures { result ≡ true → All (HasTracks (plain_state plant.now)) table.now.rows }
{
    for place in 0..table.len() {
        let fits = has_tracks(plant, table, place);
        if !fits {
            return false;
        }
    }
    true
}

/// Whether the control, the state and the journals are long enough.
fn are_long(plant: &PlainPlant) -> bool
    ensures { result ≡ true → first_short (plain_state plant.now) ≡ None }
{
    check_lengths(plant).is_ok()
}

/// Whether a plant may be summed up.
pub(crate) fn may_be_summed_up(alloc: Global, plant: &mut PlainPlant) -> bool
    requires { NoneLent (plain_state plant.old) }
    ensures { result ≡ true → MayBeSummedUp (plain_state plant.new) }
{
    match examine(alloc, plant) {
        Ok(means) => {
            if !are_long(plant) {
                return false;
            }
            have_tracks(plant, &means.table)
        }
        Err(_) => false,
    }
}

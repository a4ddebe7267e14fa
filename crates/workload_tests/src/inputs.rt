//! Generated traces and devices, byte by byte where the formats say so, and read to their ends.

ghost use Rattle.std.specs.Prelude.{◌<◌};
ghost use Rattle.crash_plant.specs.Calls.{NoneLent};
ghost use Rattle.crash_plant.specs.PlainPlant.{plain_state};

use crash_plant::{Device, Heard, PlainPlant, Plant};
use std::alloc::Global;
use std::fmt::Debug;
use std::process::Abort;
use volume_label::read_label;
use workload::generate;
use write_trace::{TraceEnd, read_entries, start};
use xrc_edge::{MemorySource, Source};

/// What was found is what was expected. The message names the case.
pub(crate) fn assert_same<T: PartialEq + Debug>(
    rt: &impl Abort,
    found: &T,
    expected: &T,
    case: &impl Debug,
) {
    assert_eq!(rt; found, expected, "{case:?}");
}

/// The header of controller 1's trace up to the first record of its first base track.
const FRONT: [u8; 46] =
    *b"XTR1\0\x02GP2   \0\x01GP3   \0\x01\0\0\0\x1E\0\0\0\0\0\0\0\x04\x01\0\0\x08\0\0\0\0\0\0\0\0";

/// The first and the last write of controller 1 in the input of 7: at 3E9 on volume 1, track 3, and at BB5 on volume 0, track 13, each to
/// record 1.
const FIRST: [u8; 26] =
    *b"\x02\0\0\0\0\0\0\x03\xE9\0\x01\0\0\0\x03\x01\0\x08\x07\x07\x07\x07\x07\x07\x07\x07";

const LAST: [u8; 26] =
    *b"\x02\0\0\0\0\0\0\x0B\xB5\0\0\0\0\0\x0D\x01\0\x08\xFA\xFA\xFA\xFA\xFA\xFA\xFA\xFA";

/// The bytes of the header after its front, and those of the writes between the first and the last.
const IN_HEADER: usize = 1_706 - 46;

const BETWEEN: usize = 498 * 26;

/// The next bytes of a source.
fn pulled<const N: usize>(rt: &impl Abort, source: &mut MemorySource) -> [u8; N]
    requires { 0 < N }
{
    let mut bytes = [0; N];
    assert_same(rt, &source.pull(&mut bytes), &Ok(N), &"how many bytes");
    bytes
}

fn assert_bytes(rt: &impl Abort, source: &mut MemorySource) {
    assert_same(rt, &pulled(rt, source), &FRONT, &"its front");
    let _ = pulled::<IN_HEADER>(rt, source);
    assert_same(rt, &pulled(rt, source), &FIRST, &"the first write");
    let _ = pulled::<BETWEEN>(rt, source);
    assert_same(rt, &pulled(rt, source), &LAST, &"the last write");
    let mut more = [0];
    assert_same(rt, &source.pull(&mut more), &Ok(0), &"its end");
}

#[test]
fn a_trace_has_its_bytes(rt: HostRuntime) {
    let (mut sources, _) = generate(rt.alloc(), 7).expect(&rt, "memory");
    assert!(rt; sources.len() == 4);
    assert_bytes(&rt, &mut sources[1]);
}

/// The reader accepts the trace to its end.
fn assert_read(rt: &impl Abort, alloc: Global, source: &mut MemorySource, case: &impl Debug) {
    let (header, mut reader) = start(alloc, source).expect(rt, "a header");
    assert_same(rt, &header.volumes.len(), &2, case);
    assert_same(rt, &header.base.len(), &30, case);
    let read = read_entries(alloc, &mut reader, source);
    let (entries, end) = read.expect(rt, "memory");
    assert_same(rt, &(entries.len(), end), &(500, TraceEnd::Ended), case);
}

#[test]
fn traces_are_read_to_their_ends(rt: HostRuntime) {
    let alloc = rt.alloc();
    for number in [0, 7, u32::MAX] {
        let (mut sources, _) = generate(alloc, number).expect(&rt, "memory");
        assert!(rt; sources.len() == 4);
        for control in 0..4 {
            assert!(rt; control < sources.len());
            assert_read(&rt, alloc, &mut sources[control], &(number, control));
        }
    }
}

/// A volume has the label of its number, and one cylinder.
#[tactic(auto, using(crash_plant::proofs::Steps::none_lent_then))]
fn assert_label(rt: &impl Abort, plant: &mut PlainPlant, device: u16)
    requires { NoneLent (plain_state plant.old) }
    ensures { NoneLent (plain_state plant.new) }
{
    assert!(rt; device < plant.volumes());
    let length = plant.length(Device::Volume(device));
    assert_same(rt, &length, &860_672, &device);
    let read = read_label(plant, device).expect(rt, "a read");
    let label = read.expect(rt, "a label");
    let name = [b'G', b'S', b'0' + (device % 10) as u8];
    assert_same(rt, &label.serial.as_bytes(), &name.as_slice(), &device);
    assert_same(rt, &label.cylinders, &1, &device);
}

/// The lengths of the control, the state and the journals, and nothing was said.
fn assert_site(rt: &impl Abort, plant: &PlainPlant) {
    assert!(rt; plant.journals() == 2);
    let lengths = (
        plant.length(Device::Control),
        plant.length(Device::State),
        plant.length(Device::Journal(0)),
        plant.length(Device::Journal(1)),
    );
    let expected = (1_024, 16_384, 7_282_688, 7_282_688);
    assert_same(rt, &lengths, &expected, &"lengths");
    assert_same(rt, &plant.said().len(), &0, &"what was said");
}

#[test]
fn devices_are_labelled(rt: HostRuntime) {
    let (_, mut plant) = generate(rt.alloc(), 7).expect(&rt, "memory");
    assert_site(&rt, &plant);
    assert_same(&rt, &plant.volumes(), &8, &"volumes");
    for device in 0..8 {
        assert_label(&rt, &mut plant, device);
    }
}

/// How long the next line of the script is, without its line feed. None at the script's end.
fn heard_line(rt: &impl Abort, plant: &mut PlainPlant) -> Option<usize> {
    for length in 0..257 {
        match plant.hear().expect(rt, "a byte") {
            Heard::Byte(b'\n') => return Some(length),
            Heard::Byte(_) => {}
            Heard::End => return None,
        }
    }
    None
}

#[test]
fn the_script_has_twelve_lines(rt: HostRuntime) {
    let (_, mut plant) = generate(rt.alloc(), 7).expect(&rt, "memory");
    for (line, length) in [27, 45, 45, 45, 45, 45, 45, 45, 45, 45, 45, 25]
        .iter()
        .enumerate()
    {
        assert_same(&rt, &heard_line(&rt, &mut plant), &Some(*length), &line);
    }
    assert_same(&rt, &heard_line(&rt, &mut plant), &None, &"its end");
}

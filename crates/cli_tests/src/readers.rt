//! Readers that wait for each other, each within a pull of its source.

ghost use Rattle.std.specs.Prelude.{◌<◌};
ghost use Rattle.crash_plant.specs.Calls.{NoneLent};
ghost use Rattle.crash_plant.specs.PlainPlant.{plain_state};

use crash_plant::{Device, PlainPlant};
use mover::Lane;
use std::alloc::Global;
use std::process::Abort;
use std::sync::Wait;
use std::sync::atomic::{AtomicBool, Ordering};
use std::thread::{Threads, yield_now};
use test_fixtures::{bytes_of, put, zeros};
use xrc_cli::xrc;
use xrc_edge::{Bytes, Failed, MemorySource, Source};

/// A volume PRIM01 of one cylinder, and no base track. Then an idle entry of 52, record 1 of track 0 with the bytes A and B at 64, and an
/// idle entry of 66.
const TRACE: &[u8; 59] = b"XTR1\0\x01PRIM01\0\x01\0\0\0\0\
    \x01\0\0\0\0\0\0\0\x52\
    \x04\0\0\0\0\0\0\0\x64\0\0\0\0\0\0\0\x01\x01\0\0\x02AB\
    \x01\0\0\0\0\0\0\0\x66";

/// The place of the last digit of the volume's serial.
const DIGIT: usize = 11;

/// The places at which the header and the three entries end.
const ENDS: [usize; 4] = [18, 27, 50, 59];

/// The place at which the third entry begins.
const THIRD: usize = 50;

/// How often a source looks whether the other one has come.
const TURNS: u32 = 100_000_000;

/// After so many turns another thread may run.
const PAUSE: u32 = 1_000;

const SCRIPT: &[u8] = b"0000000000000050 XSTART ABC\n\
    0000000000000060 XADDPAIR ABC VOLUME(PRIM01,SEC001)\n\
    0000000000000060 XADDPAIR ABC VOLUME(PRIM02,SEC002)\n\
    0000000000000090 XEND ABC\n";

const REPLIES: &[u8] = b"0000000000000050 XSTART OK T=0000000000000050\n\
    0000000000000060 XADDPAIR OK TRACKS 15 T=0000000000000060\n\
    0000000000000060 XADDPAIR OK TRACKS 15 T=0000000000000060\n\
    0000000000000090 XEND OK T=0000000000000090\n";

/// A trace of which no pull goes beyond the end of the header or of an entry. The pull that begins the third entry waits for that of
/// another source.
#[derive(Drop)]
struct MeetingSource<'a> {
    bytes: MemorySource,
    /// How many bytes were given.
    place: usize,
    has_come: &'a AtomicBool,
    other: &'a AtomicBool,
    /// Whether a wait took too long.
    missed: &'a AtomicBool,
}

/// Says that the own source has come, and waits until the other one has. False where that takes too long.
fn meet(own: &AtomicBool, other: &AtomicBool) -> bool {
    own.store(true, Ordering::SeqCst);
    for turn in 0..TURNS {
        if other.load(Ordering::SeqCst) {
            return true;
        }
        if turn % PAUSE == 0 {
            yield_now();
        }
    }
    false
}

/// How many bytes stand between a place and the next end. After the last end there is no bound.
fn room_at(place: usize) -> usize
    ensures { 0 < result }
{
    for end in ENDS {
        if place < end {
            return end - place;
        }
    }
    usize::MAX
}

impl<'a> Source for MeetingSource<'a> {
    ghost use Rattle.std.specs.Prelude.{Some};

    ghost left = { λ source. Some source.bytes.left };

    ghost faults = { λ source. source.bytes.faults };

    fn pull(&mut self, into: &mut [u8]) -> Result<usize, Failed> {
        if self.place == THIRD && !meet(self.has_come, self.other) {
            self.missed.store(true, Ordering::SeqCst);
        }
        let room = into.len().min(room_at(self.place));
        match self.bytes.pull(&mut into[..room]) {
            Ok(count) => {
                self.place = self.place.saturating_add(count);
                Ok(count)
            }
            Err(Failed) => Err(Failed),
        }
    }
}

/// The source of the trace of a volume with this digit. It waits for another source.
fn source<'a>(
    rt: &impl Abort,
    alloc: Global,
    digit: u8,
    has_come: &'a AtomicBool,
    other: &'a AtomicBool,
    missed: &'a AtomicBool,
) -> MeetingSource<'a> {
    let mut trace = *TRACE;
    trace[DIGIT] = digit;
    let bytes = bytes_of(alloc, &trace).expect(rt, "memory");
    let no_marks = Bytes::make(alloc);
    MeetingSource {
        bytes: MemorySource::make(alloc, bytes, u32::MAX, no_marks).expect(rt, "memory"),
        place: 0,
        has_come,
        other,
        missed,
    }
}

/// Writes the label of a volume of one cylinder.
fn put_label(rt: &impl Abort, plant: &mut PlainPlant, device: u16, label: &[u8; 14])
    requires { NoneLent (plain_state plant.old) }
    ensures { NoneLent (plain_state plant.new) }
{
    assert!(rt; put(plant, Device::Volume(device), 0, label));
}

/// A plant with journals for two controllers, and two labelled volumes of one cylinder.
fn plant(rt: &impl Abort, alloc: Global) -> PlainPlant
    ensures { NoneLent (plain_state result) }
{
    let mut plant = zeros(alloc, (2, 3_645_440), (2, 860_672), SCRIPT).expect(rt, "memory");
    put_label(rt, &mut plant, 0, b"XVOLSEC001\0\0\0\x01");
    put_label(rt, &mut plant, 1, b"XVOLSEC002\0\0\0\x01");
    plant
}

fn words(rt: &impl Abort, alloc: Global) -> Vec<String> {
    let mut words = Vec::new(alloc);
    for word in ["run", "ABC", "2"] {
        let word = String::from_str(alloc, word).expect(rt, "memory");
        words.push(word).expect(rt, "memory");
    }
    words
}

/// Runs the script over two traces, and gives the status.
fn run<R: Threads + Wait + Sync + Abort, S: Source + Send + Drop>(
    rt: &R,
    alloc: Global,
    first: S,
    second: S,
    plant: &mut PlainPlant,
) -> u8
    requires { NoneLent (plain_state plant.old) }
{
    let words = words(rt, alloc);
    let mut lanes = Vec::new(alloc);
    lanes.push(Lane::new(first)).expect(rt, "memory");
    lanes.push(Lane::new(second)).expect(rt, "memory");
    xrc(rt, alloc, &words, &mut lanes, plant)
}

/// Each source waits in a pull for the pull of the other one. No wait takes too long, so the readers pull side by side.
#[test]
fn readers_pull_side_by_side(rt: HostRuntime) {
    let alloc = rt.alloc();
    let has_first = AtomicBool::new(false);
    let has_second = AtomicBool::new(false);
    let missed = AtomicBool::new(false);
    let first = source(&rt, alloc, b'1', &has_first, &has_second, &missed);
    let second = source(&rt, alloc, b'2', &has_second, &has_first, &missed);
    let mut plant = plant(&rt, alloc);
    let status = run(&rt, alloc, first, second, &mut plant);
    assert!(&rt; status == 0);
    assert!(&rt; has_first.load(Ordering::SeqCst) && has_second.load(Ordering::SeqCst));
    assert!(&rt; !missed.load(Ordering::SeqCst));
    assert!(&rt; plant.said() == REPLIES);
}

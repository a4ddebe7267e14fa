//! Readers that wait for each other in the gate.

use crate::courses::{begun, brought_on, plant};
use crate::lanes::{add_lane, no_lanes, trace};
use crate::traces::Event::{Idle, Whole};
use mover::{FreePass, Gate};
use pair_table::Level;
use std::sync::atomic::{AtomicBool, Ordering};
use std::thread::yield_now;
use tod_stamp::Stamp;

/// How often a reader looks whether the other one has passed.
const TURNS: u32 = 100_000_000;

/// After so many turns another thread may run.
const PAUSE: u32 = 1_000;

/// A gate at which each of two readers waits until the other one is there too.
#[derive(Drop)]
struct MeetingGate {
    first: AtomicBool,
    second: AtomicBool,
    /// Whether a wait took too long.
    missed: AtomicBool,
}

impl Gate for MeetingGate {
    fn pass(&self, control: u16) {
        let (own, other) = if control == 0 {
            (&self.first, &self.second)
        } else {
            (&self.second, &self.first)
        };
        own.store(true, Ordering::SeqCst);
        for turn in 0..TURNS {
            if other.load(Ordering::SeqCst) {
                return;
            }
            if turn % PAUSE == 0 {
                yield_now();
            }
        }
        self.missed.store(true, Ordering::SeqCst);
    }
}

#[test]
fn readers_wait_for_each_other_in_the_gate(rt: HostRuntime) {
    let alloc = rt.alloc();
    let events = [Idle(0x52), Whole(0x64, 0, 0, *b"AB"), Idle(0x66)];
    let mut lanes = no_lanes(alloc);
    add_lane(&rt, alloc, &mut lanes, trace(&rt, alloc, (1, 1), &events));
    add_lane(&rt, alloc, &mut lanes, trace(&rt, alloc, (2, 1), &events));
    let mut plant = plant(&rt, alloc, 2, 1);
    let course = begun(&rt, alloc, lanes, &mut plant, Level::Volume, Stamp(0x50));
    let limits = (Stamp(0x50), Stamp(0x50));
    let course = brought_on(&rt, alloc, &FreePass, course, &mut plant, limits);
    let gate = MeetingGate {
        first: AtomicBool::new(false),
        second: AtomicBool::new(false),
        missed: AtomicBool::new(false),
    };
    let limits = (Stamp(0x50), Stamp(0x90));
    let course = brought_on(&rt, alloc, &gate, course, &mut plant, limits);
    assert!(&rt; gate.first.load(Ordering::SeqCst) && gate.second.load(Ordering::SeqCst));
    assert!(&rt; !gate.missed.load(Ordering::SeqCst));
    assert!(&rt; course.site.time() == Stamp(0x90));
    assert!(&rt; course.lanes[0].broken().is_none());
    assert!(&rt; course.lanes[1].broken().is_none());
}

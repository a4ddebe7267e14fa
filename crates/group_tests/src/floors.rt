//! Floors after worked histories: the cut that a form takes at a limit, and the last cut.

ghost use Rattle.std.specs.Prelude.{◌≡◌, ◌≤◌, ◌∷◌, [], map, IsTrue};
ghost use Rattle.cut_core.specs.Events.Event.{Raise, Break, Form};
ghost use Rattle.cut_core.specs.LegalHistories.{are_legal};
ghost use Rattle.cut_core.specs.HistoryEvents.{history_event};
ghost use Rattle.cut_core.specs.Floors.{StandsAfter};
ghost use Rattle.group_tests.specs.CutVectors.{join, whole_on};

use crate::fixtures::{assert_same, one_write};
use cut_core::{Event, Floors};
use std::alloc::Global;
use std::process::Abort;
use tod_stamp::Stamp;

/// The floors after these events.
fn after(controls: u16, events: &[Event]) -> Floors
    requires some { 1 ≤ controls }
    requires few { controls ≤ 16 }
    requires legal { IsTrue (are_legal controls [] (map history_event events.now)) }
    ensures controls { result.controls ≡ controls }
    ensures stands { StandsAfter result (map history_event events.now) }
{
    let mut floors = Floors::make(controls);
    for event in events {
        floors.step(event);
    }
    floors
}

fn raise(control: u16, upto: u64) -> Event
    ensures { history_event result ≡ Raise control upto }
{
    Event::Raise {
        control,
        upto: Stamp(upto),
    }
}

fn broken(control: u16, upto: u64) -> Event
    ensures { history_event result ≡ Break control upto }
{
    Event::Break {
        control,
        upto: Stamp(upto),
    }
}

fn form(cut: u64) -> Event
    ensures { history_event result ≡ Form cut }
{
    Event::Form { cut: Stamp(cut) }
}

/// The last of sixteen controllers counts as the first does.
#[test]
fn sixteen_controls_count(rt: HostRuntime) {
    let events = [
        raise(0, 9),
        raise(1, 9),
        raise(2, 9),
        raise(3, 9),
        raise(4, 9),
        raise(5, 9),
        raise(6, 9),
        raise(7, 9),
        raise(8, 9),
        raise(9, 9),
        raise(10, 9),
        raise(11, 9),
        raise(12, 9),
        raise(13, 9),
        raise(14, 9),
        broken(15, 7),
    ];
    let all = after(16, &events);
    let others = after(16, &events[..15]);
    let cuts = [all.least(Stamp(50)), others.least(Stamp(50))];
    assert_same(&rt, &cuts, &[Stamp(7), Stamp(0)], &"cuts");
}

/// A batch of one write on volume 0 joins.
fn joined(rt: &impl Abort, alloc: Global, control: u16, stamp: u64, upto: u64) -> Event
    ensures { history_event result ≡ join control (whole_on 3 stamp ∷ []) upto }
{
    let batch = one_write(rt, alloc, control, 3, stamp, upto);
    Event::Join { batch }
}

/// Batches raise the floor, and a drop and a form leave it.
#[test]
fn batches_raise_the_floor(rt: HostRuntime) {
    let alloc = rt.alloc();
    let drop = Event::Drop {
        control: 0,
        volume: 0,
    };
    let events = [
        joined(&rt, alloc, 0, 0x10, 0x1F),
        joined(&rt, alloc, 0, 0x20, 0x20),
        drop,
        form(0x15),
    ];
    let floors = after(1, &events);
    let cuts = [floors.least(Stamp(0x50)), floors.last()];
    assert_same(&rt, &cuts, &[Stamp(0x20), Stamp(0x15)], &"cuts");
}

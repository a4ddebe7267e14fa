//! Commands between two epochs: done, logged, and taken over into what readers and mover share.

ghost use Rattle.std.specs.Prelude.{◌≡◌, false};
ghost use Rattle.crash_plant.specs.Calls.{NoneLent};
ghost use Rattle.site_store.specs.Commands.{MayDo};
ghost use Rattle.mover_tests.specs.Courses.{AreAtLimit, AreUnbroken, MayGoTo};
ghost use Rattle.mover_tests.specs.Commands.{IsCommandAnswered};

use crate::courses::{Course, session};
use crate::traces::{primary, secondary};
use crash_plant::Plant;
use mover::Lane;
use pair_table::{Change, Command, Names, PairRow, PairTable};
use site_store::Site;
use std::alloc::Global;
use std::process::Abort;
use tod_stamp::Stamp;
use xrc_session::take_change;

/// No lane's reader has broken.
pub(crate) fn assert_whole<S>(rt: &impl Abort, lanes: &[Lane<S>])
    ensures { AreUnbroken lanes.now }
{
    for place in 0..lanes.len() {
        assert!(rt; lanes[place].broken().is_none());
    }
}

/// The rows of a table, in order.
fn rows_of(rt: &impl Abort, alloc: Global, table: &PairTable) -> Vec<PairRow>
    ensures { result.items ≡ table.now.rows }
{
    let mut rows = Vec::new(alloc);
    for place in 0..table.len() {
        let row = table.row(place).expect(rt, "a row");
        rows.push(*row).expect(rt, "memory");
    }
    rows
}

/// A command is answered with its change, which may be logged next.
fn answered<V>(
    rt: &impl Abort,
    alloc: Global,
    names: &Names,
    site: &mut Site<V>,
    command: &Command,
    at: Stamp,
) -> Change
    requires may { MayDo names.now site.old }
    requires level { site.old.is_ahead ≡ false }
    ensures { IsCommandAnswered names.now command.now at.0 result site.old site.new }
{
    let answer = site.command(alloc, names, session(rt), command, at);
    let change = answer.expect(rt, "a change");
    assert!(rt; site.table().len() <= 64);
    change
}

/// Does a command at the time at which a session rests, logs its change, and takes it over. The session rests at this time again.
pub(crate) fn commanded<S: Drop, P: Plant>(
    rt: &impl Abort,
    alloc: Global,
    course: Course<S, P::Volume>,
    plant: &mut P,
    command: &Command,
    at: Stamp,
) -> Course<S, P::Volume>
    requires there { AreAtLimit at.0 course.lanes.items course.group course.site }
    requires may { MayGoTo P.tells at.0 course.names course.lanes.items course.group course.site (P.state plant.old) }
    ensures home { NoneLent (P.state plant.new) }
    ensures there { AreAtLimit at.0 result.lanes.items result.group result.site }
    ensures may { MayGoTo P.tells at.0 result.names result.lanes.items result.group result.site (P.state plant.new) }
    ensures same { result.lanes ≡ course.lanes }
{
    let Course {
        names,
        lanes,
        mut group,
        mut site,
    } = course;
    assert_whole(rt, lanes.as_slice());
    let before = rows_of(rt, alloc, site.table());
    let change = answered(rt, alloc, &names, &mut site, command, at);
    site.log_change(plant, at, &change).expect(rt, "a record");
    let rows = before.as_slice();
    let taken = take_change(alloc, &mut group, rows, site.table(), &change);
    taken.expect(rt, "memory");
    Course {
        names,
        lanes,
        group,
        site,
    }
}

/// Adds the pair of a number, PRIM01 and SEC001 for 1, at the time at which a session rests.
pub(crate) fn add_pair<S: Drop, P: Plant>(
    rt: &impl Abort,
    alloc: Global,
    course: Course<S, P::Volume>,
    plant: &mut P,
    number: u16,
    at: Stamp,
) -> Course<S, P::Volume>
    requires there { AreAtLimit at.0 course.lanes.items course.group course.site }
    requires may { MayGoTo P.tells at.0 course.names course.lanes.items course.group course.site (P.state plant.old) }
    ensures home { NoneLent (P.state plant.new) }
    ensures there { AreAtLimit at.0 result.lanes.items result.group result.site }
    ensures may { MayGoTo P.tells at.0 result.names result.lanes.items result.group result.site (P.state plant.new) }
    ensures same { result.lanes ≡ course.lanes }
{
    let command = Command::AddPair {
        primary: primary(rt, number),
        secondary: secondary(rt, number),
        group: None,
    };
    commanded(rt, alloc, course, plant, &command, at)
}

/// Says a byte where a session rests, from which on the calls that are planned to fail are counted.
pub(crate) fn say<S, P: Plant>(
    rt: &impl Abort,
    course: &Course<S, P::Volume>,
    plant: &mut P,
    at: Stamp,
)
    requires may { MayGoTo P.tells at.0 course.now.names course.now.lanes.items course.now.group course.now.site (P.state plant.old) }
    ensures may { MayGoTo P.tells at.0 course.now.names course.now.lanes.items course.now.group course.now.site (P.state plant.new) }
{
    assert!(rt; course.site.time() == at);
    plant.say(b".").expect(rt, "said");
}

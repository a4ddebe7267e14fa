//! What the tests share: sessions over lanes, and the epochs that bring them on.

ghost use Rattle.std.specs.Prelude.{◌≡◌, ◌≤◌, ◌<◌, [], false, length, IfSome};
ghost use Rattle.crash_plant.specs.Calls.{NoneLent};
ghost use Rattle.crash_plant.specs.MemoryPlant.{memory_state};
ghost use Rattle.crash_plant.specs.PlainPlant.{plain_state};
ghost use Rattle.site_store.specs.Commands.{LabelsFit};
ghost use Rattle.site_store.specs.Standing.{HasLengths};
ghost use Rattle.mover_tests.specs.Courses.{AreAtLimit, AreOpened, MayGoTo};

use crate::lanes::{OpenLanes, names_of};
use crate::traces::secondary;
use crash_plant::{Device, Fail, MemoryPlant, PlainPlant, Plant};
use group_state::GroupState;
use mover::{EpochEnd, Gate, Lane, epoch};
use pair_table::{Level, Names};
use site_store::Site;
use std::alloc::Global;
use std::process::Abort;
use std::sync::Wait;
use std::thread::Threads;
use test_fixtures::{failing, zeros};
use tod_stamp::{Session, Stamp};
use xrc_edge::Source;

/// The bytes that a journal needs, and those of each controller.
const JOURNAL_FRONT: u64 = 8_192;

const JOURNAL_OF_CONTROL: u64 = 1_818_624;

/// The length of a volume of one cylinder.
const VOLUME_LENGTH: u64 = 860_672;

pub(crate) fn session(rt: &impl Abort) -> Session {
    Session::read(b"ABC").expect(rt, "a name")
}

/// A plant of zeros with the devices of so many controllers, and with so many volumes of one cylinder.
pub(crate) fn plant(rt: &impl Abort, alloc: Global, controls: u16, volumes: u16) -> PlainPlant
    ensures home { NoneLent (plain_state result) }
{
    let journal = JOURNAL_FRONT + u64::from(controls) * JOURNAL_OF_CONTROL;
    zeros(alloc, (2, journal), (volumes, VOLUME_LENGTH), b"").expect(rt, "memory")
}

/// Such a plant that keeps its past, of which these calls fail.
pub(crate) fn failing_plant(
    rt: &impl Abort,
    alloc: Global,
    controls: u16,
    volumes: u16,
    fails: &[Fail],
) -> MemoryPlant
    ensures home { NoneLent (memory_state result) }
{
    let plain = plant(rt, alloc, controls, volumes);
    failing(alloc, plain, fails).expect(rt, "memory")
}

/// The devices have the lengths and numbers that a site of so many controllers needs.
fn assert_lengths<P: Plant>(rt: &impl Abort, plant: &P, controls: u16)
    requires { NoneLent (P.state plant.now) }
    ensures { HasLengths controls (P.state plant.now) }
{
    let journal = JOURNAL_FRONT + u64::from(controls) * JOURNAL_OF_CONTROL;
    assert!(rt; plant.journals() == 2 && plant.volumes() <= 64);
    assert!(rt; plant.length(Device::Control) >= 1_024);
    assert!(rt; plant.length(Device::State) >= 16_384);
    assert!(rt; plant.length(Device::Journal(0)) >= journal);
    assert!(rt; plant.length(Device::Journal(1)) >= journal);
}

/// Labels the volumes of a plant, each of one cylinder: SEC001 for the first, and so on.
fn label_volumes<P: Plant>(rt: &impl Abort, alloc: Global, names: &mut Names, plant: &P)
    requires home { NoneLent (P.state plant.now) }
    requires none { names.old.labels ≡ [] }
    ensures primaries { names.new.primaries ≡ names.old.primaries }
    ensures labels { LabelsFit (P.state plant.now) names.new }
{
    let volumes = plant.volumes();
    assert!(rt; volumes <= 64);
    for device in 0..volumes {
        assert!(rt; plant.length(Device::Volume(device)) >= VOLUME_LENGTH);
        let label = secondary(rt, device + 1);
        names.label(alloc, device, label, 1).expect(rt, "memory");
    }
}

/// Where a session stands: the names that its commands speak of, its lanes, what its readers and its mover share, and its site.
#[derive(Drop)]
pub(crate) struct Course<S, V> {
    pub(crate) names: Names,
    pub(crate) lanes: Vec<Lane<S>>,
    pub(crate) group: GroupState,
    pub(crate) site: Site<V>,
}

/// A session over new lanes that starts at a time. It may go on to that time.
pub(crate) fn begun<S: Source + Drop, P: Plant>(
    rt: &impl Abort,
    alloc: Global,
    lanes: OpenLanes<S>,
    plant: &mut P,
    level: Level,
    at: Stamp,
) -> Course<S, P::Volume>
    requires some { (1 ≤ length lanes.all.items) × (length lanes.all.items ≤ 16) }
    requires opened { AreOpened lanes.all.items lanes.named.items }
    requires time { 1 ≤ at.0 }
    requires home { NoneLent (P.state plant.old) }
    ensures may { MayGoTo P.tells at.0 result.names result.lanes.items result.group result.site (P.state plant.new) }
    ensures same { length result.lanes.items ≡ length lanes.all.items }
{
    let OpenLanes { all: lanes, named } = lanes;
    let controls = lanes.len() as u16;
    assert_lengths(rt, plant, controls);
    let mut names = names_of(rt, alloc, named.as_slice());
    label_volumes(rt, alloc, &mut names, plant);
    let group = GroupState::make(alloc, controls, 32, 3_552).expect(rt, "memory");
    let made = Site::format(alloc, plant, session(rt), level, controls, at);
    let site = made.expect(rt, "a start");
    Course {
        names,
        lanes,
        group,
        site,
    }
}

/// The rows that the devices tell are those of the table, if no change waits.
fn look_at_table<V>(site: &Site<V>)
    requires { site.now.is_ahead ≡ false }
    ensures { site.now.told ≡ site.now.table.rows }
{
    let _ = site.table();
}

/// Brings a session that may go to a limit on to a later one, or as far as its devices let it. None where they stop it. It may go on
/// from the limit.
fn brought_as_far<R: Threads + Wait + Sync, S: Source + Send + Drop, P: Plant, G: Gate + Sync>(
    rt: &R,
    alloc: Global,
    gate: &G,
    course: Course<S, P::Volume>,
    plant: &mut P,
    limits: (Stamp, Stamp),
) -> Option<Course<S, P::Volume>>
    requires later { limits.0.0 ≤ limits.1.0 }
    requires may { MayGoTo P.tells limits.0.0 course.names course.lanes.items course.group course.site (P.state plant.old) }
    ensures home { NoneLent (P.state plant.new) }
    ensures there { IfSome result (λ next. AreAtLimit limits.1.0 next.lanes.items next.group next.site) }
    ensures may { IfSome result (λ next. MayGoTo P.tells limits.1.0 next.names next.lanes.items next.group next.site (P.state plant.new)) }
    ensures same { IfSome result (λ next. length next.lanes.items ≡ length course.lanes.items) }
{
    let Course {
        names,
        mut lanes,
        group,
        mut site,
    } = course;
    let all = lanes.as_mut_slice();
    match epoch(rt, alloc, gate, limits.1, all, group, &mut site, plant) {
        EpochEnd::Reached(group) => {
            look_at_table(&site);
            Some(Course {
                names,
                lanes,
                group,
                site,
            })
        }
        EpochEnd::Store(_) | EpochEnd::NoMemory => None,
    }
}

/// Brings a session that may go to a limit on to a later one. It may go on from there.
pub(crate) fn brought_on<
    R: Threads + Wait + Sync + Abort,
    S: Source + Send + Drop,
    P: Plant,
    G: Gate + Sync,
>(
    rt: &R,
    alloc: Global,
    gate: &G,
    course: Course<S, P::Volume>,
    plant: &mut P,
    limits: (Stamp, Stamp),
) -> Course<S, P::Volume>
    requires later { limits.0.0 ≤ limits.1.0 }
    requires may { MayGoTo P.tells limits.0.0 course.names course.lanes.items course.group course.site (P.state plant.old) }
    ensures there { AreAtLimit limits.1.0 result.lanes.items result.group result.site }
    ensures may { MayGoTo P.tells limits.1.0 result.names result.lanes.items result.group result.site (P.state plant.new) }
    ensures same { length result.lanes.items ≡ length course.lanes.items }
{
    let next = brought_as_far(rt, alloc, gate, course, plant, limits);
    next.expect(rt, "the limit is reached")
}

//! Rows that changed before a switch and after it, as the devices tell them and as they are recovered.

ghost use Rattle.crash_plant.specs.Calls.{NoneLent};
ghost use Rattle.crash_plant.specs.MemoryPlant.{memory_state};
ghost use Rattle.site_store.specs.IdleSites.{IsSiteIdle};

use crate::calls::{log_applied, mark, put_row};
use crate::fixtures::{DUPLEX, assert_same, paired, plant, recovered, row, states_of, suspended};
use crate::ring::images;
use crash_plant::{MemoryPlant, Plant};
use pair_table::{Level, PairState, SuspendCause};
use site_means::{SiteError, examine};
use site_store::Site;
use std::alloc::Global;
use std::process::Abort;
use std::thread::Threads;
use tod_stamp::Stamp;

/// A time, and the states of the first rows.
type Told = (u64, [Option<PairState>; 3]);

/// Puts a device's row with this state, and logs it.
fn change<P: Plant>(
    rt: &impl Abort,
    alloc: Global,
    plant: &mut P,
    site: &mut Site<P::Volume>,
    state: (u16, PairState),
    cut: u64,
)
    requires { IsSiteIdle P.tells site.old (P.state plant.old) }
    ensures { IsSiteIdle P.tells site.new (P.state plant.new) }
{
    let row = row(rt, state.0, 3, state.1);
    put_row(rt, alloc, plant, site, row, Stamp(cut)).expect(rt, "a record");
}

/// Logs and applies a group that has a data set for itself.
fn fill_set<R: Threads + Sync + Abort, P: Plant>(
    rt: &R,
    alloc: Global,
    plant: &mut P,
    site: &mut Site<P::Volume>,
    cut: u8,
)
    requires { IsSiteIdle P.tells site.old (P.state plant.old) }
    ensures { IsSiteIdle P.tells site.new (P.state plant.new) }
{
    let formed = images(rt, alloc, cut, 31, false);
    log_applied(rt, plant, site, &formed).expect(rt, "a record");
}

/// What the devices tell.
fn examined<P: Plant>(alloc: Global, plant: &mut P) -> Result<Told, SiteError>
    requires { NoneLent (P.state plant.old) }
{
    let means = examine(alloc, plant)?;
    Ok((means.time.0, states_of(&means.table)))
}

/// The devices tell this time and these states, and so does what is recovered.
fn assert_told<R: Threads + Sync + Abort>(rt: &R, alloc: Global, plant: &MemoryPlant, told: Told)
    requires { NoneLent (memory_state plant.now) }
{
    let mut crashed = plant.crash(alloc, &[]).expect(rt, "memory");
    assert_same(rt, &examined(alloc, &mut crashed), &Ok(told), &"examined");
    let left = recovered(rt, alloc, plant, &[]).expect(rt, "a session");
    let states = left.states;
    assert_same(rt, &(left.time, states), &told, &"recovered");
}

/// Row 1 is suspended, and a group after it fills the rest of the data set.
fn change_first<R: Threads + Sync + Abort, P: Plant>(
    rt: &R,
    alloc: Global,
    plant: &mut P,
    site: &mut Site<P::Volume>,
) -> Told
    requires { IsSiteIdle P.tells site.old (P.state plant.old) }
    ensures { IsSiteIdle P.tells site.new (P.state plant.new) }
{
    let first = suspended(SuspendCause::Command, 0x62);
    change(rt, alloc, plant, site, (1, first), 0x62);
    fill_set(rt, alloc, plant, site, 0x64);
    (0x64, [DUPLEX, Some(first), DUPLEX])
}

/// The next group stands in the other data set, with the rows that change there.
fn change_after<R: Threads + Sync + Abort, P: Plant>(
    rt: &R,
    alloc: Global,
    plant: &mut P,
    site: &mut Site<P::Volume>,
) -> Told
    requires { IsSiteIdle P.tells site.old (P.state plant.old) }
    ensures { IsSiteIdle P.tells site.new (P.state plant.new) }
{
    let second = suspended(SuspendCause::Command, 0x66);
    fill_set(rt, alloc, plant, site, 0x65);
    change(rt, alloc, plant, site, (2, second), 0x66);
    change(rt, alloc, plant, site, (1, PairState::Copy), 0x67);
    (0x67, [DUPLEX, Some(PairState::Copy), Some(second)])
}

/// A mark frees the first data set, and a group switches back into it.
fn change_back<R: Threads + Sync + Abort, P: Plant>(
    rt: &R,
    alloc: Global,
    plant: &mut P,
    site: &mut Site<P::Volume>,
) -> Told
    requires { IsSiteIdle P.tells site.old (P.state plant.old) }
    ensures { IsSiteIdle P.tells site.new (P.state plant.new) }
{
    mark(rt, plant, site).expect(rt, "a mark");
    fill_set(rt, alloc, plant, site, 0x68);
    change(rt, alloc, plant, site, (2, PairState::Duplex), 0x69);
    (0x69, [DUPLEX, Some(PairState::Copy), DUPLEX])
}

#[tactic(auto, using(crate::proofs::Between::idle_home))]
#[test]
fn rows_change_before_a_switch_and_after_it(rt: HostRuntime) {
    let alloc = rt.alloc();
    let mut plant = plant(&rt, alloc, 3, 3, &[]);
    let mut site = paired(&rt, alloc, &mut plant, Level::Volume, 3, 3);
    let told = change_first(&rt, alloc, &mut plant, &mut site);
    assert_told(&rt, alloc, &plant, told);
    let told = change_after(&rt, alloc, &mut plant, &mut site);
    assert_told(&rt, alloc, &plant, told);
    let told = change_back(&rt, alloc, &mut plant, &mut site);
    assert_told(&rt, alloc, &plant, told);
}

//! The command that runs a generated input in memory.

ghost use Rattle.std.specs.Prelude.{◌≡◌, ◌↔◌, IfOk, IsTrue, Some, map, slice_get, true};
ghost use Rattle.std.specs.List.{All};
ghost use Rattle.crash_plant.specs.Calls.{NoneLent};
ghost use Rattle.crash_plant.specs.PlainPlant.{plain_state};
ghost use Rattle.pair_table.specs.declared.row.PairRow.{PairRow as RowValue};
ghost use Rattle.pair_table.specs.Tables.{are_below};
ghost use Rattle.workload.specs.Scripts.{generated_session};
ghost use Rattle.workload.specs.Summaries.{HasTracks};
ghost use Rattle.xrc_cli.specs.Generating.{EndsGenerating, HasNoMarks, SumsUp, SumsUpRun, unread_lane};

use crate::run::run_session;
use crate::saying::{DONE, say_done};
use crate::unfailing_source::UnfailingSource;
use crash_plant::{Device, PlainPlant, Plant};
use mover::Lane;
use pair_table::PairTable;
use site_means::examine;
use std::alloc::Global;
use std::sync::Wait;
use std::thread::Threads;
use tod_stamp::Session;
use volume_label::need;
use workload::{CONTROLS, generate, summary};
use xrc_edge::{Bytes, MemorySource, NoMemory};
use xrc_status::{Stop, say_stop};

/// The session of a generated script.
fn session() -> Session
    ensures { result ≡ generated_session }
{
    match Session::read(b"GEN") {
        Ok(session) => session,
        Err(_) => unreachable!(),
    }
}

/// A lane for each source, in order.
fn lanes_of(
    alloc: Global,
    sources: Vec<MemorySource>,
) -> Result<Vec<Lane<UnfailingSource>>, NoMemory>
    requires { All HasNoMarks sources.items }
    ensures { IfOk result (λ lanes. lanes.items ≡ map unread_lane sources.items) }
{
    let mut lanes = Vec::new(alloc);
    for source in sources {
        lanes.push(Lane::new(UnfailingSource::new(source)))?;
    }
    Ok(lanes)
}

/// Whether the volume of the pair at a place has room for the pair's tracks.
fn has_tracks_at(plant: &PlainPlant, table: &PairTable, place: u16) -> bool
    requires home { NoneLent (plain_state plant.now) }
    requires below { IsTrue (are_below (plain_state plant.now).volumes table.now.rows) }
    ensures { (row : RowValue) → slice_get table.now.rows place ≡ Some row → (result ≡ true) ↔ HasTracks (plain_state plant.now) row }
{
    match table.row(place) {
        Some(row) => need(row.cylinders) <= plant.length(Device::Volume(row.device)),
        None => false,
    }
}

/// Whether each pair's volume has room for the pair's tracks.
fn have_tracks(plant: &PlainPlant, table: &PairTable) -> bool
    requires home { NoneLent (plain_state plant.now) }
    requires below { IsTrue (are_below (plain_state plant.now).volumes table.now.rows) }
    ensures { (result ≡ true) ↔ All (HasTracks (plain_state plant.now)) table.now.rows }
{
    for place in 0..table.len() {
        if !has_tracks_at(plant, table, place) {
            return false;
        }
    }
    true
}

/// The line that sums up what a run left.
fn sum_up(alloc: Global, number: u32, ran: &mut PlainPlant) -> Result<Bytes, NoMemory>
    requires { NoneLent (plain_state ran.old) }
    ensures { IfOk result (λ line. SumsUp number (plain_state ran.old) line) }
{
    match examine(alloc, ran) {
        Ok(means) if have_tracks(ran, &means.table) => summary(alloc, number, ran),
        _ => Err(NoMemory),
    }
}

/// Runs the input of a number in memory to the end of its script, and gives the line that sums up what the run left. A run that ends
/// otherwise wants memory: nothing fails there.
fn run_input<R: Threads + Wait + Sync>(
    rt: &R,
    alloc: Global,
    number: u32,
) -> Result<Bytes, NoMemory>
    ensures { IfOk result (λ line. SumsUpRun number line) }
{
    let (sources, mut site) = generate(alloc, number)?;
    let mut lanes = lanes_of(alloc, sources)?;
    if run_session(rt, alloc, session(), CONTROLS, &mut lanes, &mut site) != DONE {
        return Err(NoMemory);
    }
    sum_up(alloc, number, &mut site)
}

/// Runs the input of a number in memory, says the line that sums up what the run left, and gives the status that the command ends with.
/// Of the plant only the console is called, for that line.
pub(crate) fn run_generated<R: Threads + Wait + Sync, P: Plant>(
    rt: &R,
    alloc: Global,
    number: u32,
    plant: &mut P,
) -> u8
    ensures { EndsGenerating P.tells number (P.state plant.old) (P.state plant.new) result }
{
    match run_input(rt, alloc, number) {
        Ok(line) => say_done(plant, line.as_slice()),
        Err(NoMemory) => say_stop(plant, Stop::NoMemory),
    }
}

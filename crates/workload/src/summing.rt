//! The line that sums up what a run of a generated input left.

ghost use Rattle.std.specs.Prelude.{◌≡◌, ◌++◌, IfOk, IsTrue, OnOk};
ghost use Rattle.crash_plant.specs.PlainPlant.{plain_state};
ghost use Rattle.site_means.specs.declared.means.Means.{Means as MeansValue};
ghost use Rattle.site_means.specs.Answers.{Mean};
ghost use Rattle.site_means.specs.Meaning.{meaning};
ghost use Rattle.pair_table.specs.Tables.{are_below};
ghost use Rattle.workload.specs.Summaries.{LeavesAsItWas, MayBeSummedUp, count_text, counts_line, summary_line};

use crate::layout::{CONTROLS, WRITES};
use crate::script::LINES;
use crate::tally::Tally;
use crate::tracks::{count_duplex, tally_duplex};
use crash_plant::PlainPlant;
use itoa::Buffer;
use site_means::{Means, SiteError, examine};
use std::alloc::Global;
use tod_stamp::Stamp;
use xrc_edge::{Bytes, NoMemory};

/// The writes of all controllers.
const ALL_WRITES: u64 = CONTROLS as u64 * WRITES as u64;

/// Puts a word, a space and a number in decimal digits.
fn add_count(alloc: Global, line: &mut Bytes, word: &[u8], number: u64) -> Result<(), NoMemory>
    ensures { OnOk result (line.new ≡ line.old ++ count_text word.now number) }
{
    let mut digits = Buffer::new();
    line.extend_from_slice(alloc, word)?;
    line.extend_from_slice(alloc, b" ")?;
    line.extend_from_slice(alloc, digits.format(number).as_bytes())
}

/// What a line tells of a run.
#[derive(Clone, Copy)]
struct Counts {
    pairs: u64,
    duplex: u64,
    tally: Tally,
    time: Stamp,
}

fn line(alloc: Global, number: u32, counts: &Counts) -> Result<Bytes, NoMemory>
    ensures { IfOk result (λ line. line ≡ counts_line number counts.now.pairs counts.now.duplex counts.now.tally.records counts.now.tally.sum counts.now.time.0) }
{
    let mut line = Bytes::make(alloc);
    add_count(alloc, &mut line, b"GENERATE", u64::from(number))?;
    add_count(alloc, &mut line, b" LINES", LINES)?;
    add_count(alloc, &mut line, b" PAIRS", counts.pairs)?;
    add_count(alloc, &mut line, b" WRITES", ALL_WRITES)?;
    add_count(alloc, &mut line, b" DUPLEX", counts.duplex)?;
    add_count(alloc, &mut line, b" RECORDS", counts.tally.records)?;
    add_count(alloc, &mut line, b" SUM", counts.tally.sum)?;
    line.extend_from_slice(alloc, b" T=")?;
    line.extend_from_slice(alloc, &counts.time.text())?;
    line.extend_from_slice(alloc, b"\n")?;
    Ok(line)
}

/// What the devices mean.
fn means_of(alloc: Global, plant: &mut PlainPlant) -> Result<Means, NoMemory>
    requires { MayBeSummedUp (plain_state plant.old) }
    ensures means { IfOk result (λ means. Mean (meaning (plain_state plant.old) (plain_state plant.old).bytes) means) }
    ensures below { IfOk result (λ means. IsTrue (are_below (plain_state plant.old).volumes means.table.rows)) }
    ensures leaves { LeavesAsItWas (plain_state plant.old) (plain_state plant.new) }
{
    match examine(alloc, plant) {
        Ok(means) => Ok(means),
        Err(SiteError::NoMemory) => Err(NoMemory),
        // They mean something.
        Err(SiteError::NoSession) => unreachable!(),
        Err(SiteError::Damaged(_, _)) => unreachable!(),
        // A plant in memory counts no faults of its devices.
        Err(SiteError::Fault(_)) => unreachable!(),
        // They are long enough.
        Err(SiteError::TooSmall(_, _)) => unreachable!(),
    }
}

/// The line of the input of this number over a plant on which its session has run: how many pairs there are and how many of them
/// are duplex; the records on the tracks of the duplex pairs' volumes and the sum of the bytes of their contents, by what their
/// slots hold; and the time that the devices mean. It ends with a line feed. The plant stays as it is, and nothing is said.
pub fn summary(alloc: Global, number: u32, plant: &mut PlainPlant) -> Result<Bytes, NoMemory>
    requires { MayBeSummedUp (plain_state plant.old) }
    ensures line { (means : MeansValue) → Mean (meaning (plain_state plant.old) (plain_state plant.old).bytes) means → IfOk result (λ line. line ≡ summary_line number (plain_state plant.old).bytes means) }
    ensures leaves { LeavesAsItWas (plain_state plant.old) (plain_state plant.new) }
{
    let means = means_of(alloc, plant)?;
    let tally = tally_duplex(alloc, plant, &means.table)?;
    let counts = Counts {
        pairs: u64::from(means.table.len()),
        duplex: count_duplex(&means.table),
        tally,
        time: means.time,
    };
    line(alloc, number, &counts)
}

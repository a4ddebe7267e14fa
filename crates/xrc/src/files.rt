ghost use Rattle.std.specs.Prelude.{◌<◌, ◌^◌, vec_len, IfOk};
ghost use Rattle.crash_plant.specs.Calls.{NoneLent};
ghost use Rattle.xrc_session.specs.Lanes.{HaveNoReader};

use crate::failure::Failure;
use anyhow::Context;
use crash_plant::{FileDisk, FilePlant, Plant};
use mover::Lane;
use status_words::Overheard;
use std::alloc::Global;
use std::fs;
use std::fs::{File, OpenOptions};
use std::io::{Stdin, Stdout};
use std::rt::Files;
use xrc_edge::FileSource;

/// What the program says on standard output, where the last of it is kept.
pub type Output<'a> = Overheard<'a, Stdout>;

/// The devices and the console of the program.
pub type Site<'a> = FilePlant<Stdin, Output<'a>>;

fn open_disk<R: Files<File = File>>(rt: &R, name: &str) -> Result<FileDisk, Failure> {
    let file = OpenOptions::new()
        .read(true)
        .write(true)
        .open(rt, name)
        .context(format_args!("cannot open {name}"))?;
    let length = file.metadata()?.len();
    Ok(FileDisk::new(file, length))
}

/// The files `STEM.0`, `STEM.1` and on, up to the first that is not there.
fn open_row<R: Files<File = File>>(
    rt: &R,
    alloc: Global,
    stem: &str,
) -> Result<Vec<FileDisk>, Failure>
    ensures { IfOk result (λ row. vec_len row < 2 ^ 16) }
{
    let mut row = Vec::new(alloc);
    for number in 0..u16::MAX {
        let name = format!(in alloc; "{stem}.{number}")?;
        if !fs::exists(rt, name.as_str())? {
            break;
        }
        row.push(open_disk(rt, name.as_str())?)?;
    }
    Ok(row)
}

/// The site of the current folder: `control`, `state`, the journals and the volumes.
pub fn open_site<'a, R: Files<File = File>>(
    rt: &R,
    alloc: Global,
    input: Stdin,
    output: Output<'a>,
) -> Result<Site<'a>, Failure>
    ensures { IfOk result (λ site. NoneLent (⟦<FilePlant<Stdin, Overheard<'a, Stdout>> as Plant>⟧.state site)) }
{
    let control = open_disk(rt, "control")?;
    let state = open_disk(rt, "state")?;
    let journals = open_row(rt, alloc, "journal")?;
    let volumes = open_row(rt, alloc, "volume")?;
    let site = FilePlant::new(alloc, control, state, journals, volumes, input, output)?;
    Ok(site)
}

/// A console alone: no journals, no volumes, and a control and a state of length 0.
pub fn no_site<'a>(alloc: Global, input: Stdin, output: Output<'a>) -> Result<Site<'a>, Failure>
    ensures { IfOk result (λ site. NoneLent (⟦<FilePlant<Stdin, Overheard<'a, Stdout>> as Plant>⟧.state site)) }
{
    let control = FileDisk::absent();
    let state = FileDisk::absent();
    let (journals, volumes) = (Vec::new(alloc), Vec::new(alloc));
    let site = FilePlant::new(alloc, control, state, journals, volumes, input, output)?;
    Ok(site)
}

/// The lanes of the traces `trace.0` and on, as many as wanted. None has its reader yet.
pub fn open_traces<R: Files<File = File>>(
    rt: &R,
    alloc: Global,
    count: u16,
) -> Result<Vec<Lane<FileSource<File>>>, Failure>
    ensures unread { IfOk result (λ traces. HaveNoReader traces.items) }
{
    let mut traces = Vec::new(alloc);
    for number in 0..count {
        let name = format!(in alloc; "trace.{number}")?;
        let file = File::open(rt, name.as_str()).context(format_args!("cannot open {name}"))?;
        traces.push(Lane::new(FileSource::new(file)))?;
    }
    Ok(traces)
}

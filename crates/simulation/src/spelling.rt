//! The bytes of traces and of the script.

use crate::input::{
    Command, Controller, End, Entry, HEADS, Input, Level, Line, Pair, Primary, Target,
};
use crate::track::{Effect, put_effect, put_image};
use std::alloc::Global;
use std::fmt::Write;
use xrc_edge::NoMemory;

/// The name of the session, and one that another session has.
pub const SESSION: &str = "SIM";

const OTHER: &str = "OTHER";

/// The first byte of each kind of entry, and one that begins none.
const IDLE: u8 = 1;

const UPDATE: u8 = 2;

const FORMAT: u8 = 3;

const WHOLE: u8 = 4;

const NONE: u8 = 7;

/// A share is told in thousandths.
const SHARES: u64 = 1_000;

/// The bytes of a trace.
#[derive(Drop)]
pub struct Spelled {
    pub bytes: Vec<u8>,
    /// Where the header ends, and each entry.
    pub ends: Vec<usize>,
    /// How many of the bytes are given before a pull fails; all where none fails.
    pub given: usize,
    /// The number of the pull that fails.
    pub fault: Option<usize>,
}

pub fn spell_trace(alloc: Global, controller: &Controller) -> Result<Spelled, NoMemory> {
    let mut spelled = Spelled {
        bytes: Vec::new(alloc),
        ends: Vec::new(alloc),
        given: 0,
        fault: None,
    };
    put_header(controller, &mut spelled.bytes)?;
    spelled.ends.push(spelled.bytes.len())?;
    for entry in controller.entries.iter() {
        put_entry(controller, entry, &mut spelled.bytes)?;
        spelled.ends.push(spelled.bytes.len())?;
    }
    put_end(controller, &mut spelled.bytes)?;
    spelled.given = spelled.bytes.len();
    plan_fault(controller, &mut spelled);
    Ok(spelled)
}

/// The six bytes of a serial: a letter, two digits and spaces.
pub fn serial_bytes(letter: u8, number: u16) -> [u8; 6] {
    let [tens, ones] = digits(number);
    [letter, tens, ones, b' ', b' ', b' ']
}

fn digits(number: u16) -> [u8; 2] {
    let tens = u8::try_from(number / 10 % 10).unwrap_or(0);
    let ones = u8::try_from(number % 10).unwrap_or(0);
    [b'0'.saturating_add(tens), b'0'.saturating_add(ones)]
}

fn put_header(controller: &Controller, into: &mut Vec<u8>) -> Result<(), NoMemory> {
    let count = u16::try_from(controller.primaries.len()).unwrap_or(0);
    into.extend_from_slice(b"XTR1")?;
    into.extend_from_slice(&count.to_be_bytes())?;
    let mut bases = 0u32;
    let mut number = controller.first;
    for primary in controller.primaries.iter() {
        into.extend_from_slice(&serial_bytes(b'P', number))?;
        into.extend_from_slice(&primary.cylinders.to_be_bytes())?;
        bases = bases.saturating_add(u32::try_from(primary.bases.len()).unwrap_or(0));
        number = number.saturating_add(1);
    }
    into.extend_from_slice(&bases.to_be_bytes())?;
    let mut volume = 0u16;
    for primary in controller.primaries.iter() {
        put_bases(primary, volume, into)?;
        volume = volume.saturating_add(1);
    }
    Ok(())
}

fn put_bases(primary: &Primary, volume: u16, into: &mut Vec<u8>) -> Result<(), NoMemory> {
    for base in primary.bases.iter() {
        put_track(volume, base.track, into)?;
        put_image(base.records.as_slice(), into)?;
    }
    Ok(())
}

fn put_track(volume: u16, track: u16, into: &mut Vec<u8>) -> Result<(), NoMemory> {
    for field in [volume, track / HEADS, track % HEADS] {
        into.extend_from_slice(&field.to_be_bytes())?;
    }
    Ok(())
}

fn put_entry(controller: &Controller, entry: &Entry, into: &mut Vec<u8>) -> Result<(), NoMemory> {
    let Some(write) = &entry.write else {
        return put_idle(entry.stamp, into);
    };
    into.push(match write.effect {
        Effect::Update { .. } => UPDATE,
        Effect::Format { .. } => FORMAT,
        Effect::Whole { .. } => WHOLE,
    })?;
    into.extend_from_slice(&entry.stamp.to_be_bytes())?;
    let volume = write.primary.saturating_sub(controller.first);
    put_track(volume, write.track, into)?;
    put_effect(&write.effect, into)
}

fn put_idle(stamp: u64, into: &mut Vec<u8>) -> Result<(), NoMemory> {
    into.push(IDLE)?;
    into.extend_from_slice(&stamp.to_be_bytes())?;
    Ok(())
}

/// Puts what stands after the entries, or takes the last bytes off.
fn put_end(controller: &Controller, into: &mut Vec<u8>) -> Result<(), NoMemory> {
    match controller.end {
        End::Clean | End::Fault { .. } => Ok(()),
        End::BadTag => {
            into.extend_from_slice(&[NONE, 0, 0])?;
            Ok(())
        }
        End::Falling => {
            let last = controller.entries.last().map_or(1, |entry| entry.stamp);
            put_idle(last.saturating_sub(1), into)
        }
        End::Cut { missing } => {
            let kept = into.len().saturating_sub(usize::from(missing));
            into.truncate(kept);
            Ok(())
        }
    }
}

/// Which pull fails, and what is given before it.
fn plan_fault(controller: &Controller, spelled: &mut Spelled) {
    let End::Fault { share } = controller.end else {
        return;
    };
    let header = spelled.ends.first().copied().unwrap_or(0);
    let entries = spelled.bytes.len().saturating_sub(header) as u64;
    let wanted = entries.saturating_mul(u64::from(share)) / SHARES;
    let wanted = wanted.saturating_add(header as u64);
    let pieces = u64::from(controller.pieces.max(1));
    let pulls = wanted.div_ceil(pieces);
    let given = usize::try_from(pulls.saturating_mul(pieces)).unwrap_or(usize::MAX);
    spelled.given = given.min(spelled.bytes.len());
    spelled.fault = usize::try_from(pulls).ok();
}

/// The bytes of the script, and where each line ends.
#[derive(Drop)]
pub struct SpelledScript {
    pub text: String,
    pub ends: Vec<usize>,
}

pub fn spell_script(alloc: Global, input: &Input) -> Result<SpelledScript, NoMemory> {
    let mut script = SpelledScript {
        text: String::new(alloc),
        ends: Vec::new(alloc),
    };
    for (number, line) in input.lines.iter().enumerate() {
        spell_line(line, &mut script.text)?;
        let is_last = number.saturating_add(1) == input.lines.len();
        if !is_last || input.has_last_feed {
            script.text.push_str("\n")?;
        }
        script.ends.push(script.text.len())?;
    }
    Ok(script)
}

fn spell_line(line: &Line, text: &mut String) -> Result<(), NoMemory> {
    let time = line.time;
    let word = command_word(line.command);
    let session = if line.is_other { OTHER } else { SESSION };
    let session = if line.is_cut { "" } else { session };
    write!(text, "{time:016X} {word} {session}")?;
    match line.command {
        Command::Start(None) | Command::Query | Command::End => {}
        Command::Start(Some(Level::Volume)) => text.push_str(" ERRORLEVEL(VOLUME)")?,
        Command::Start(Some(Level::Session)) => text.push_str(" ERRORLEVEL(SESSION)")?,
        Command::Add(pair) => spell_pair(pair, text)?,
        Command::Delete(target) | Command::Suspend(target) => match target {
            Target::All => text.push_str(" VOLUME(ALL)")?,
            Target::One(pair) => spell_pair(pair, text)?,
        },
    }
    Ok(())
}

fn spell_pair(pair: Pair, text: &mut String) -> Result<(), NoMemory> {
    let (primary, secondary) = (pair.primary, pair.secondary);
    write!(text, " VOLUME(P{primary:02},S{secondary:02})")?;
    Ok(())
}

pub fn command_word(command: Command) -> &'static str {
    match command {
        Command::Start(_) => "XSTART",
        Command::Add(_) => "XADDPAIR",
        Command::Delete(_) => "XDELPAIR",
        Command::Suspend(_) => "XSUSPEND",
        Command::Query => "XQUERY",
        Command::End => "XEND",
    }
}

//! The line of each part of a trace.

use ckd_track::{Kind, Rec, Write};
use std::alloc::Global;
use tod_stamp::Stamp;
use write_trace::{BaseTrack, VolumeHead};
use xrc_edge::{Bytes, NoMemory};

fn put(alloc: Global, out: &mut Bytes, text: &[u8]) -> Result<(), NoMemory> {
    out.extend_from_slice(alloc, text)
}

fn put_number(alloc: Global, out: &mut Bytes, number: u64) -> Result<(), NoMemory> {
    let digits = format!(in alloc; " {number}")?;
    put(alloc, out, digits.as_bytes())
}

fn put_stamp(alloc: Global, out: &mut Bytes, stamp: Stamp) -> Result<(), NoMemory> {
    put(alloc, out, b" ")?;
    put(alloc, out, &stamp.text())
}

/// Whether bytes may stand between quotation marks: they are characters, without a space, a colon or a quotation mark.
fn are_plain(bytes: &[u8]) -> bool {
    bytes.iter().all(|byte| byte.is_ascii_graphic() && *byte != b':' && *byte != b'"')
}

fn put_bytes(alloc: Global, out: &mut Bytes, bytes: &[u8]) -> Result<(), NoMemory> {
    if are_plain(bytes) {
        put(alloc, out, b"\"")?;
        put(alloc, out, bytes)?;
        put(alloc, out, b"\"")
    } else {
        let digits = hex::encode_upper(alloc, bytes)?;
        put(alloc, out, digits.as_bytes())
    }
}

fn put_record(alloc: Global, out: &mut Bytes, rec: &Rec) -> Result<(), NoMemory> {
    put_number(alloc, out, u64::from(rec.number))?;
    put(alloc, out, b":")?;
    if !rec.key.is_empty() {
        put_bytes(alloc, out, rec.key.as_slice())?;
    }
    put(alloc, out, b":")?;
    put_bytes(alloc, out, rec.content.as_slice())
}

fn put_records(alloc: Global, out: &mut Bytes, recs: &[Rec]) -> Result<(), NoMemory> {
    for rec in recs {
        put_record(alloc, out, rec)?;
    }
    put(alloc, out, b"\n")
}

pub(crate) fn put_version(alloc: Global, out: &mut Bytes, version: u8) -> Result<(), NoMemory> {
    put(alloc, out, b"version")?;
    put_number(alloc, out, u64::from(version))?;
    put(alloc, out, b"\n")
}

pub(crate) fn put_volume(
    alloc: Global,
    out: &mut Bytes,
    volume: &VolumeHead,
) -> Result<(), NoMemory> {
    put(alloc, out, b"volume ")?;
    put(alloc, out, volume.serial.as_bytes())?;
    put_number(alloc, out, u64::from(volume.cylinders))?;
    put(alloc, out, b"\n")
}

pub(crate) fn put_base(alloc: Global, out: &mut Bytes, base: &BaseTrack) -> Result<(), NoMemory> {
    let (volume, track, content) = base;
    put(alloc, out, b"base")?;
    put_number(alloc, out, u64::from(*volume))?;
    put_number(alloc, out, u64::from(*track))?;
    put_records(alloc, out, content.recs())
}

pub(crate) fn put_idle(alloc: Global, out: &mut Bytes, stamp: Stamp) -> Result<(), NoMemory> {
    put(alloc, out, b"idle")?;
    put_stamp(alloc, out, stamp)?;
    put(alloc, out, b"\n")
}

fn put_place(alloc: Global, out: &mut Bytes, write: &Write) -> Result<(), NoMemory> {
    put_stamp(alloc, out, write.stamp)?;
    put_number(alloc, out, u64::from(write.volume))?;
    put_number(alloc, out, u64::from(write.track))
}

fn word_of(kind: &Kind) -> &'static [u8] {
    match kind {
        Kind::Update { .. } => b"update",
        Kind::Format { .. } => b"format",
        Kind::Whole { .. } => b"write",
    }
}

pub(crate) fn put_write(alloc: Global, out: &mut Bytes, write: &Write) -> Result<(), NoMemory> {
    put(alloc, out, word_of(&write.kind))?;
    put_place(alloc, out, write)?;
    match &write.kind {
        Kind::Update { number, bytes } => {
            put_number(alloc, out, u64::from(*number))?;
            put(alloc, out, b" ")?;
            put_bytes(alloc, out, bytes.as_slice())?;
            put(alloc, out, b"\n")
        }
        Kind::Format { after, recs } => {
            put_number(alloc, out, u64::from(*after))?;
            put_records(alloc, out, recs.as_slice())
        }
        Kind::Whole { track } => put_records(alloc, out, track.recs()),
    }
}

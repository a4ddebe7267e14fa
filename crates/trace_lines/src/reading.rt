//! Reading a line.

ghost use Rattle.std.specs.Prelude.{◌≡◌, IfOk};
ghost use Rattle.trace_lines.specs.Lines.{record_in as record_found, records_in as records_found, track_of_words as track_found, kind_in as kind_found, update_in as update_found, format_in as format_found, whole_in as whole_found, volume_in as volume_found, base_line_in as base_found, idle_in as idle_found, write_in as write_found, version_in as version_found, line_of_words, line_in as line_found, is_remark};

use crate::line::Line;
use crate::pieces::split_first;
use crate::words::{bytes_in, number_in, serial_in, stamp_in};
use ckd_track::{Kind, Rec, RecList, Track, Write};
use std::alloc::Global;
use write_trace::{Entry, VolumeHead};
use xrc_edge::NoMemory;

#[tactic(auto, unfolding(crate::specs::Lines::record_in))]
fn record_in(alloc: Global, word: &[u8]) -> Result<Option<Rec>, NoMemory>
    ensures { IfOk result (λ rec. rec ≡ record_found word.now) }
{
    let (digits, rest) = split_first(b':', word);
    let (key, content) = split_first(b':', rest);
    let Some(number) = number_in(255, digits) else {
        return Ok(None);
    };
    let Some(key) = bytes_in(alloc, key)? else {
        return Ok(None);
    };
    let Some(content) = bytes_in(alloc, content)? else {
        return Ok(None);
    };
    Ok(Some(Rec {
        number: number as u8,
        key,
        content,
    }))
}

/// The records that words spell.
#[tactic(auto, using(crate::proofs::Texts::rest_is_shorter, crate::proofs::Texts::records_step, crate::proofs::Texts::records_stop, crate::proofs::Texts::records_end), unfolding(crate::specs::Lines::records_in))]
fn records_in(alloc: Global, text: &[u8]) -> Result<Option<RecList>, NoMemory>
    ensures { IfOk result (λ recs. recs ≡ records_found text.now) }
{
    let mut recs = RecList::make(alloc);
    let mut rest = text;
    while !rest.is_empty() {
        let (word, after) = split_first(b' ', rest);
        let Some(rec) = record_in(alloc, word)? else {
            return Ok(None);
        };
        recs.push(alloc, rec)?;
        rest = after;
    }
    Ok(Some(recs))
}

/// The track whose records words spell.
#[tactic(auto, using(crate::proofs::Texts::rest_is_shorter, crate::proofs::Texts::track_step, crate::proofs::Texts::track_stop, crate::proofs::Texts::track_full, crate::proofs::Texts::track_end), unfolding(crate::specs::Lines::track_of_words))]
fn track_in(alloc: Global, text: &[u8]) -> Result<Option<Track>, NoMemory>
    ensures { IfOk result (λ track. track ≡ track_found text.now) }
{
    let mut track = Track::make(alloc);
    let mut rest = text;
    while !rest.is_empty() {
        let (word, after) = split_first(b' ', rest);
        let Some(rec) = record_in(alloc, word)? else {
            return Ok(None);
        };
        if !track.fits(&rec) {
            return Ok(None);
        }
        track.push(alloc, rec)?;
        rest = after;
    }
    Ok(Some(track))
}

#[tactic(auto, unfolding(crate::specs::Lines::update_in))]
fn update_in(alloc: Global, text: &[u8]) -> Result<Option<Kind>, NoMemory>
    ensures { IfOk result (λ kind. kind ≡ update_found text.now) }
{
    let (number, bytes) = split_first(b' ', text);
    let Some(number) = number_in(255, number) else {
        return Ok(None);
    };
    let Some(bytes) = bytes_in(alloc, bytes)? else {
        return Ok(None);
    };
    let number = number as u8;
    Ok(Some(Kind::Update { number, bytes }))
}

#[tactic(auto, unfolding(crate::specs::Lines::format_in))]
fn format_in(alloc: Global, text: &[u8]) -> Result<Option<Kind>, NoMemory>
    ensures { IfOk result (λ kind. kind ≡ format_found text.now) }
{
    let (after, recs) = split_first(b' ', text);
    let Some(after) = number_in(255, after) else {
        return Ok(None);
    };
    let Some(recs) = records_in(alloc, recs)? else {
        return Ok(None);
    };
    let after = after as u8;
    Ok(Some(Kind::Format { after, recs }))
}

#[tactic(auto, unfolding(crate::specs::Lines::whole_in))]
fn whole_in(alloc: Global, text: &[u8]) -> Result<Option<Kind>, NoMemory>
    ensures { IfOk result (λ kind. kind ≡ whole_found text.now) }
{
    let Some(track) = track_in(alloc, text)? else {
        return Ok(None);
    };
    Ok(Some(Kind::Whole { track }))
}

#[tactic(auto, unfolding(crate::specs::Lines::kind_in))]
fn kind_in(alloc: Global, word: &[u8], text: &[u8]) -> Result<Option<Kind>, NoMemory>
    ensures { IfOk result (λ kind. kind ≡ kind_found word.now text.now) }
{
    if word == b"write".as_slice() {
        whole_in(alloc, text)
    } else if word == b"format".as_slice() {
        format_in(alloc, text)
    } else if word == b"update".as_slice() {
        update_in(alloc, text)
    } else {
        Ok(None)
    }
}

#[tactic(auto, unfolding(crate::specs::Lines::version_in))]
fn version_in(text: &[u8]) -> Option<Line>
    ensures { result ≡ version_found text.now }
{
    let version = number_in(255, text)?;
    Some(Line::Version(version as u8))
}

#[tactic(auto, unfolding(crate::specs::Lines::volume_in))]
fn volume_in(text: &[u8]) -> Option<Line>
    ensures { result ≡ volume_found text.now }
{
    let (serial, cylinders) = split_first(b' ', text);
    let serial = serial_in(serial)?;
    let cylinders = number_in(u32::MAX, cylinders)?;
    Some(Line::Volume(VolumeHead { serial, cylinders }))
}

#[tactic(auto, unfolding(crate::specs::Lines::base_line_in))]
fn base_in(alloc: Global, text: &[u8]) -> Result<Option<Line>, NoMemory>
    ensures { IfOk result (λ line. line ≡ base_found text.now) }
{
    let (volume, rest) = split_first(b' ', text);
    let (track, content) = split_first(b' ', rest);
    let Some(volume) = number_in(u32::from(u16::MAX), volume) else {
        return Ok(None);
    };
    let Some(track) = number_in(u32::MAX, track) else {
        return Ok(None);
    };
    let Some(content) = track_in(alloc, content)? else {
        return Ok(None);
    };
    Ok(Some(Line::Base(volume as u16, track, content)))
}

#[tactic(auto, unfolding(crate::specs::Lines::idle_in))]
fn idle_in(text: &[u8]) -> Option<Line>
    ensures { result ≡ idle_found text.now }
{
    let stamp = stamp_in(text)?;
    Some(Line::Told(Entry::Idle(stamp)))
}

#[tactic(auto, unfolding(crate::specs::Lines::write_in))]
fn write_in(alloc: Global, word: &[u8], text: &[u8]) -> Result<Option<Line>, NoMemory>
    ensures { IfOk result (λ line. line ≡ write_found word.now text.now) }
{
    let (stamp, rest) = split_first(b' ', text);
    let (volume, rest) = split_first(b' ', rest);
    let (track, rest) = split_first(b' ', rest);
    let Some(stamp) = stamp_in(stamp) else {
        return Ok(None);
    };
    let Some(volume) = number_in(u32::from(u16::MAX), volume) else {
        return Ok(None);
    };
    let Some(track) = number_in(u32::MAX, track) else {
        return Ok(None);
    };
    let Some(kind) = kind_in(alloc, word, rest)? else {
        return Ok(None);
    };
    Ok(Some(Line::Told(Entry::Written(Write {
        volume: volume as u16,
        track,
        stamp,
        kind,
    }))))
}

#[tactic(auto, unfolding(crate::specs::Lines::line_of_words))]
fn line_of_words(alloc: Global, word: &[u8], text: &[u8]) -> Result<Option<Line>, NoMemory>
    ensures { IfOk result (λ line. line ≡ line_of_words word.now text.now) }
{
    if word == b"version".as_slice() {
        Ok(version_in(text))
    } else if word == b"volume".as_slice() {
        Ok(volume_in(text))
    } else if word == b"base".as_slice() {
        base_in(alloc, text)
    } else if word == b"idle".as_slice() {
        Ok(idle_in(text))
    } else {
        write_in(alloc, word, text)
    }
}

fn is_remark(text: &[u8]) -> bool
    ensures { result ≡ is_remark text.now }
{
    match text {
        [] => true,
        [first, ..] => *first == b'#',
    }
}

/// What a line says; None where it is outside the grammar.
#[tactic(auto, unfolding(crate::specs::Lines::line_in))]
pub(crate) fn line_in(alloc: Global, text: &[u8]) -> Result<Option<Line>, NoMemory>
    ensures { IfOk result (λ line. line ≡ line_found text.now) }
{
    if is_remark(text) {
        return Ok(Some(Line::Nothing));
    }
    let (word, rest) = split_first(b' ', text);
    line_of_words(alloc, word, rest)
}

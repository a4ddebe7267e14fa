//! Draws controllers: their volumes, and what their hosts write.

use crate::generator::Generator;
use crate::input::{Base, Controller, End, Entry, Primary, Write};
use crate::track::{Content, Effect, Record, fits};
use std::alloc::Global;
use xrc_edge::NoMemory;

/// What kind of writes is drawn.
#[derive(Clone, Copy)]
pub struct Taste {
    /// Whether records are large, so that the ring of journals turns.
    pub is_large: bool,
    /// Whether many writes have one stamp.
    pub is_crowded: bool,
    pub most_volumes: u32,
    pub most_entries: u32,
}

/// Draws a controller whose first volume has this number.
pub fn draw_controller(
    alloc: Global,
    drawn: &mut Generator,
    first: u16,
    taste: Taste,
) -> Result<Controller, NoMemory> {
    let count = if drawn.is_one_in(3) {
        drawn.between(1, taste.most_volumes)
    } else {
        drawn.between(1, taste.most_volumes.min(2))
    };
    let mut primaries = Vec::new(alloc);
    for _ in 0..count {
        primaries.push(draw_primary(alloc, drawn, taste)?)?;
    }
    let mut controller = Controller {
        first,
        primaries,
        entries: Vec::new(alloc),
        end: End::Clean,
        pieces: draw_pieces(drawn, taste),
    };
    draw_entries(alloc, drawn, taste, &mut controller)?;
    controller.end = draw_end(drawn, controller.entries.is_empty());
    Ok(controller)
}

fn draw_pieces(drawn: &mut Generator, taste: Taste) -> u32 {
    match drawn.below(4) {
        0 if !taste.is_large => drawn.between(1, 64),
        1 => 1_024,
        _ => 4_096,
    }
}

fn draw_end(drawn: &mut Generator, is_empty: bool) -> End {
    match drawn.below(20) {
        0..2 => End::BadTag,
        2..4 => End::Falling,
        4..6 if !is_empty => End::Cut {
            missing: drawn.short(1, 8),
        },
        6..9 => End::Fault {
            share: drawn.between(0, 1_000),
        },
        _ => End::Clean,
    }
}

fn draw_primary(alloc: Global, drawn: &mut Generator, taste: Taste) -> Result<Primary, NoMemory> {
    let cylinders = if taste.is_large || drawn.is_one_in(3) {
        drawn.short(2, 3)
    } else {
        1
    };
    let mut primary = Primary {
        cylinders,
        bases: Vec::new(alloc),
    };
    let tracks = u16::try_from(primary.tracks()).unwrap_or(0);
    for track in 0..tracks {
        if drawn.is_one_in(2) {
            let records = draw_records(alloc, drawn, taste, 0)?;
            primary.bases.push(Base { track, records })?;
        }
    }
    Ok(primary)
}

/// Draws records with numbers above one.
fn draw_records(
    alloc: Global,
    drawn: &mut Generator,
    taste: Taste,
    after: u8,
) -> Result<Vec<Record>, NoMemory> {
    let mut records = Vec::new(alloc);
    let mut number = after;
    for _ in 0..drawn.between(0, 3) {
        number = number.saturating_add(drawn.byte(1, 2));
        let record = draw_record(drawn, taste, number);
        if fits(records.as_slice(), record) {
            records.push(record)?;
        }
    }
    Ok(records)
}

fn draw_record(drawn: &mut Generator, taste: Taste, number: u8) -> Record {
    Record {
        number,
        key: if drawn.is_one_in(4) {
            drawn.byte(1, 5)
        } else {
            0
        },
        content: draw_content(drawn, taste),
    }
}

fn draw_content(drawn: &mut Generator, taste: Taste) -> Content {
    let byte = drawn.byte(1, u8::MAX);
    if taste.is_large && !drawn.is_one_in(3) {
        Content::of(byte, drawn.short(20_000, 56_000))
    } else {
        Content::of(byte, drawn.short(0, 12))
    }
}

fn draw_entries(
    alloc: Global,
    drawn: &mut Generator,
    taste: Taste,
    controller: &mut Controller,
) -> Result<(), NoMemory> {
    let mut stamp = u64::from(drawn.between(1, 40));
    let most = if drawn.is_one_in(10) {
        0
    } else {
        taste.most_entries
    };
    for _ in 0..drawn.between(0, most) {
        let turns = if taste.is_crowded && drawn.is_one_in(12) {
            drawn.between(20, 36)
        } else {
            1
        };
        for _ in 0..turns {
            let write = draw_write(alloc, drawn, taste, controller)?;
            controller.entries.push(Entry { stamp, write })?;
        }
        if !drawn.is_one_in(3) {
            stamp = stamp.saturating_add(u64::from(drawn.between(1, 5)));
        }
    }
    Ok(())
}

/// Draws a write; None is an idle entry.
fn draw_write(
    alloc: Global,
    drawn: &mut Generator,
    taste: Taste,
    controller: &Controller,
) -> Result<Option<Write>, NoMemory> {
    let count = u32::try_from(controller.primaries.len()).unwrap_or(0);
    let place = drawn.below(count);
    let Some(primary) = controller.primaries.get(place as usize) else {
        return Ok(None);
    };
    if drawn.is_one_in(10) {
        return Ok(None);
    }
    // Few tracks are written often, so that changes of one track meet.
    let tracks = if drawn.is_one_in(3) {
        primary.tracks()
    } else {
        5
    };
    let track = u16::try_from(drawn.below(tracks)).unwrap_or(0);
    let effect = draw_effect(alloc, drawn, taste)?;
    Ok(Some(Write {
        primary: controller
            .first
            .saturating_add(u16::try_from(place).unwrap_or(0)),
        track,
        effect,
    }))
}

fn draw_effect(alloc: Global, drawn: &mut Generator, taste: Taste) -> Result<Effect, NoMemory> {
    match drawn.below(10) {
        0..6 => Ok(Effect::Update {
            number: drawn.byte(1, 4),
            bytes: draw_content(drawn, taste),
        }),
        6..8 => {
            let after = drawn.byte(0, 3);
            let records = draw_records(alloc, drawn, taste, after)?;
            Ok(Effect::Format { after, records })
        }
        _ => {
            let records = draw_records(alloc, drawn, taste, 0)?;
            Ok(Effect::Whole { records })
        }
    }
}

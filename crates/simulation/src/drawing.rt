//! Draws an input: how many controllers, volumes and journals there are, and what they are.

use crate::drawn_script::draw_lines;
use crate::drawn_trace::{Taste, draw_controller};
use crate::generator::Generator;
use crate::input::{Controller, Input, Volume};
use std::alloc::Global;
use xrc_edge::NoMemory;

/// Up to so many controllers have several volumes.
const FEW: u32 = 4;

const MOST_CONTROLLERS: u32 = 16;

/// Draws the input of a seed. Most inputs are small, so that many are tried.
pub fn draw_input(alloc: Global, drawn: &mut Generator) -> Result<Input, NoMemory> {
    let count = draw_count(drawn);
    let taste = draw_taste(drawn, count);
    let controllers = draw_controllers(alloc, drawn, count, taste)?;
    let volumes = draw_volumes(alloc, drawn, controllers.as_slice())?;
    let journals = draw_journals(drawn);
    let fill = draw_fill(drawn);
    let lines = draw_lines(alloc, drawn, controllers.as_slice())?;
    Ok(Input {
        controllers,
        volumes,
        journals,
        fill,
        lines,
        has_last_feed: !drawn.is_one_in(4),
    })
}

/// How many controllers there are.
fn draw_count(drawn: &mut Generator) -> u32 {
    match drawn.below(40) {
        0..20 => 1,
        20..33 => 2,
        33..37 => 3,
        37..39 => FEW,
        _ => drawn.between(FEW, MOST_CONTROLLERS),
    }
}

fn draw_taste(drawn: &mut Generator, count: u32) -> Taste {
    Taste {
        is_large: count <= 2 && drawn.is_one_in(10),
        is_crowded: drawn.is_one_in(8),
        most_volumes: if count <= FEW { FEW } else { 1 },
        most_entries: if count <= FEW { 60 } else { 12 },
    }
}

fn draw_controllers(
    alloc: Global,
    drawn: &mut Generator,
    count: u32,
    taste: Taste,
) -> Result<Vec<Controller>, NoMemory> {
    let mut controllers = Vec::new(alloc);
    let mut first = 0u16;
    for _ in 0..count {
        let controller = draw_controller(alloc, drawn, first, taste)?;
        let more = u16::try_from(controller.primaries.len()).unwrap_or(0);
        first = first.saturating_add(more);
        controllers.push(controller)?;
    }
    Ok(controllers)
}

/// Draws a device for each primary, and at times one more.
fn draw_volumes(
    alloc: Global,
    drawn: &mut Generator,
    controllers: &[Controller],
) -> Result<Vec<Volume>, NoMemory> {
    let mut volumes = Vec::new(alloc);
    let mut serial = 0u16;
    for controller in controllers {
        for primary in controller.primaries.iter() {
            volumes.push(draw_volume(drawn, serial, primary.cylinders))?;
            serial = serial.saturating_add(1);
        }
    }
    if drawn.is_one_in(4) && serial < 64 {
        volumes.push(draw_volume(drawn, serial, 1))?;
    }
    Ok(volumes)
}

/// Draws a device for a primary of so many cylinders.
fn draw_volume(drawn: &mut Generator, serial: u16, cylinders: u16) -> Volume {
    let cylinders = match drawn.below(10) {
        0 => drawn.short(1, 3),
        1 => cylinders.saturating_add(1),
        _ => cylinders,
    };
    let label = match drawn.below(30) {
        0 => None,
        1 => Some(cylinders.saturating_add(1)),
        2 => Some(cylinders.saturating_sub(1)),
        _ => Some(cylinders),
    };
    let serial = if drawn.is_one_in(25) {
        drawn.short(0, serial)
    } else {
        serial
    };
    Volume {
        serial,
        label,
        cylinders,
        fill: draw_fill(drawn),
    }
}

fn draw_journals(drawn: &mut Generator) -> u16 {
    if drawn.is_one_in(4) {
        drawn.short(3, 4)
    } else {
        2
    }
}

/// What a device holds before it is written.
fn draw_fill(drawn: &mut Generator) -> u8 {
    match drawn.below(4) {
        0 => 1,
        1 => u8::MAX,
        _ => 0,
    }
}

//! Draws a script.

use crate::generator::Generator;
use crate::input::{Command, Controller, Level, Line, Pair, Target};
use std::alloc::Global;
use xrc_edge::NoMemory;

/// A serial that no volume has.
const NONE: u16 = 99;

/// A script as far as it is drawn.
#[derive(Drop)]
struct Script {
    lines: Vec<Line>,
    time: u64,
    /// How many primaries there are.
    primaries: u16,
}

/// Draws lines at times that rise or stand.
pub fn draw_lines(
    alloc: Global,
    drawn: &mut Generator,
    controllers: &[Controller],
) -> Result<Vec<Line>, NoMemory> {
    let mut primaries = 0u16;
    for controller in controllers {
        let more = u16::try_from(controller.primaries.len()).unwrap_or(0);
        primaries = primaries.saturating_add(more);
    }
    let mut script = Script {
        lines: Vec::new(alloc),
        time: u64::from(drawn.between(1, 60)),
        primaries,
    };
    script.draw(drawn)?;
    script.spoil(drawn);
    Ok(script.lines)
}

impl Script {
    fn draw(&mut self, drawn: &mut Generator) -> Result<(), NoMemory> {
        if drawn.is_one_in(8) {
            for _ in 0..drawn.between(1, 2) {
                self.draw_line(drawn)?;
            }
        }
        if !drawn.is_one_in(40) {
            let start = draw_start(drawn);
            self.push(drawn, start)?;
        }
        self.draw_pairs(drawn)?;
        for _ in 0..drawn.between(1, 9) {
            self.draw_line(drawn)?;
        }
        if drawn.is_one_in(2) {
            self.push(drawn, Command::End)?;
        }
        if drawn.is_one_in(6) {
            self.draw_line(drawn)?;
        }
        Ok(())
    }

    /// Adds the first few pairs, so that most sessions have some.
    fn draw_pairs(&mut self, drawn: &mut Generator) -> Result<(), NoMemory> {
        let most = self.primaries.min(4);
        let least = if drawn.is_one_in(6) { 0 } else { most.min(2) };
        for primary in 0..drawn.short(least, most) {
            let pair = Pair {
                primary,
                secondary: primary,
            };
            self.push(drawn, Command::Add(pair))?;
        }
        Ok(())
    }

    fn push(&mut self, drawn: &mut Generator, command: Command) -> Result<(), NoMemory> {
        if !drawn.is_one_in(4) {
            let more = u64::from(drawn.between(1, 14));
            self.time = self.time.saturating_add(more);
        }
        self.lines.push(Line {
            time: self.time,
            is_other: drawn.is_one_in(30),
            command,
            is_cut: false,
        })?;
        Ok(())
    }

    fn draw_line(&mut self, drawn: &mut Generator) -> Result<(), NoMemory> {
        let command = match drawn.below(20) {
            0..8 => Command::Add(self.draw_pair(drawn)),
            8..12 => Command::Suspend(self.draw_target(drawn)),
            12..14 => Command::Delete(self.draw_target(drawn)),
            14 => draw_start(drawn),
            _ => Command::Query,
        };
        self.push(drawn, command)
    }

    fn draw_target(&self, drawn: &mut Generator) -> Target {
        if drawn.is_one_in(4) {
            Target::All
        } else {
            Target::One(self.draw_pair(drawn))
        }
    }

    fn draw_pair(&self, drawn: &mut Generator) -> Pair {
        let primary = self.draw_serial(drawn);
        let secondary = if drawn.is_one_in(8) {
            self.draw_serial(drawn)
        } else {
            primary
        };
        Pair { primary, secondary }
    }

    fn draw_serial(&self, drawn: &mut Generator) -> u16 {
        if drawn.is_one_in(30) {
            NONE
        } else {
            drawn.short(0, self.primaries.saturating_sub(1))
        }
    }

    /// Makes the last line fall in time, or cuts it, now and then.
    fn spoil(&mut self, drawn: &mut Generator) {
        let spoilt = drawn.below(30);
        let Some(last) = self.lines.last_mut() else {
            return;
        };
        match spoilt {
            0 => last.time = 1,
            1 => last.is_cut = true,
            _ => {}
        }
    }
}

fn draw_start(drawn: &mut Generator) -> Command {
    match drawn.below(4) {
        0 => Command::Start(None),
        1 => Command::Start(Some(Level::Volume)),
        _ => Command::Start(Some(Level::Session)),
    }
}

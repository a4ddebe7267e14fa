//! What is said of a simulation.

use std::alloc::Global;
use std::fmt::Write;
use xrc_edge::NoMemory;

/// The differences so far, and how much was tried.
#[derive(Drop)]
pub struct Report {
    text: String,
    seed: u64,
    /// The number of the moment in its seed; 0 is the end of the run without faults.
    moment: u64,
    seeds: u64,
    moments: u64,
    differences: u64,
}

impl Report {
    pub fn new(alloc: Global) -> Report {
        Report {
            text: String::new(alloc),
            seed: 0,
            moment: 0,
            seeds: 0,
            moments: 0,
            differences: 0,
        }
    }

    pub fn text(&self) -> &str {
        self.text.as_str()
    }

    /// Forgets the text that was printed.
    pub fn clear(&mut self) {
        self.text.clear();
    }

    pub fn is_good(&self) -> bool {
        self.differences == 0
    }

    pub fn begin_seed(&mut self, seed: u64) {
        self.seed = seed;
        self.moment = 0;
        self.seeds = self.seeds.saturating_add(1);
        self.moments = self.moments.saturating_add(1);
    }

    pub fn begin_moment(&mut self) {
        self.moment = self.moment.saturating_add(1);
        self.moments = self.moments.saturating_add(1);
    }

    /// Says what differs, with what was said there.
    pub fn differ(&mut self, what: &str, said: &str) -> Result<(), NoMemory> {
        self.differences = self.differences.saturating_add(1);
        let (seed, moment) = (self.seed, self.moment);
        writeln!(self.text, "seed {seed}: {what} (moment {moment})")?;
        for line in said.lines() {
            writeln!(self.text, "    {line}")?;
        }
        Ok(())
    }

    /// Says the numbers of all seeds.
    pub fn end(&mut self) -> Result<(), NoMemory> {
        let (seeds, moments, differences) = (self.seeds, self.moments, self.differences);
        writeln!(
            self.text,
            "{seeds} seeds, {moments} moments, {differences} differences"
        )?;
        Ok(())
    }
}

//! How far each controller has come, the last cut, and the cut that a form takes.

ghost use Rattle.std.specs.Prelude.{◌≡◌, ◌<◌, ◌≤◌, ◌∷◌, ◌++◌, [], List, ℕ, IsTrue, false, map, slice_set};
ghost use Rattle.cut_core.specs.Events.{last_cut, Event as Happening};
ghost use Rattle.cut_core.specs.Events.Event.{Drop};
ghost use Rattle.cut_core.specs.LegalHistories.{is_legal_next, least_floor};
ghost use Rattle.cut_core.specs.HistoryEvents.{history_event};
ghost use Rattle.cut_core.specs.Floors.{StandsAfter, told_to, reported_after_form};

use crate::event::Event;
use crate::told::{ReportedPhase, Told};
use std::marker::Model;
use tod_stamp::Stamp;
use xrc_edge::MOST_CONTROLS;

/// The floors of the controllers and the last cut. Contracts say of them after which histories they stand.
#[derive(Debug, Drop)]
pub struct Floors {
    controls: u16,
    told: [Told; MOST_CONTROLS],
    last: Stamp,
}

impl Model for Floors {
    ghost use Rattle.std.specs.Prelude.{◌≤◌};
    ghost use Rattle.xrc_edge.specs.declared.limits.TheConstants.{MOST_CONTROLS};
    ghost use Rattle.cut_core.specs.Floors.{FloorsState};

    ghost Value = { FloorsState };

    ghost view = { λ floors. record { controls = floors.controls; told = floors.told; last = floors.last } };

    ghost invariant = { λ floors. floors.controls ≤ MOST_CONTROLS };
}

impl Floors {
    /// Floors of that many controllers, of which none has reported anything.
    pub fn make(controls: u16) -> Floors
        requires some { 1 ≤ controls }
        requires few { controls ≤ MOST_CONTROLS }
        ensures controls { result.controls ≡ controls }
        ensures first { StandsAfter result [] }
    {
        Floors {
            controls,
            told: [Told {
                floor: Stamp(0),
                phase: ReportedPhase::Unbroken,
            }; MOST_CONTROLS],
            last: Stamp(0),
        }
    }

    /// Takes an event that is legal after the history so far.
    pub fn step(&mut self, event: &Event)
        requires legal { (past : List Happening) × StandsAfter self.old past × IsTrue (is_legal_next self.old.controls past (history_event event.now)) }
        ensures controls { self.new.controls ≡ self.old.controls }
        ensures stands { (past : List Happening) → StandsAfter self.old past → IsTrue (is_legal_next self.old.controls past (history_event event.now)) → StandsAfter self.new (past ++ history_event event.now ∷ []) }
        // A drop changes nothing, whatever the history says of its map.
        ensures dropped { (control volume : ℕ) → history_event event.now ≡ Drop control volume false → self.new ≡ self.old }
    {
        match event {
            Event::Join { batch } => self.tell(batch.control, batch.upto, ReportedPhase::Unbroken),
            Event::Raise { control, upto } => self.tell(*control, *upto, ReportedPhase::Unbroken),
            Event::Break { control, upto } => self.tell(*control, *upto, ReportedPhase::Broken),
            Event::Form { cut } => self.form(*cut),
            Event::Copied { .. } => {}
            Event::Drop { .. } => {}
        }
    }

    /// A controller reports up to a time.
    fn tell(&mut self, control: u16, upto: Stamp, phase: ReportedPhase)
        requires { control < self.old.controls }
        ensures controls { self.new.controls ≡ self.old.controls }
        ensures last { self.new.last ≡ self.old.last }
        ensures told { self.new.told ≡ slice_set self.old.told control (told_to upto phase) }
    {
        self.told[control as usize] = Told { floor: upto, phase };
    }

    /// A group is formed at a cut.
    fn form(&mut self, cut: Stamp)
        ensures controls { self.new.controls ≡ self.old.controls }
        ensures last { self.new.last ≡ cut }
        ensures told { self.new.told ≡ map (reported_after_form cut.0) self.old.told }
    {
        for k in 0..MOST_CONTROLS {
            self.told[k] = self.told[k].after_form(cut);
        }
        self.last = cut;
    }

    /// The cut that a form with this limit takes: the least of the limit and the floors of all live controllers.
    pub fn least(&self, limit: Stamp) -> Stamp
        ensures { (past : List Happening) → StandsAfter self.now past → result.0 ≡ least_floor self.now.controls limit.0 past }
    {
        let mut cut = limit.0;
        for k in 0..self.controls as usize {
            cut = self.told[k].lesser(cut);
        }
        Stamp(cut)
    }

    /// The last cut.
    pub fn last(&self) -> Stamp
        ensures { (past : List Happening) → StandsAfter self.now past → result.0 ≡ last_cut past }
    {
        self.last
    }
}

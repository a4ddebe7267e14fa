ghost use Rattle.std.specs.Prelude.{◌≡◌, ◌↔◌, ◌||◌, [], length, map, vec_len, IfOk, IsErr, IsTrue, true};
ghost use Rattle.std.specs.List.{list_any};
ghost use Rattle.xrc_edge.specs.Causes.{HasCause};

use crate::{Device, Fail};
use std::alloc::Global;
use std::mem;
use xrc_edge::{Failed, NoMemory};

/// A failure of one device or of the console.
#[derive(Clone, Copy)]
pub(crate) struct Planned {
    said: u64,
    // How many calls are to come before the one that fails; None once that has come.
    left: Option<u64>,
    stop: bool,
}

/// The failures of one device or of the console, and the count of its calls that failed.
#[derive(Drop)]
pub(crate) struct FailPlan {
    planned: Vec<Planned>,
    faults: u64,
}

impl Planned {
    ghost use Rattle.crash_plant.specs.Failures.{after_call, fails_now};

    /// Counts a call that is made when so many bytes are said. Says whether it fails.
    fn meet(&mut self, said: u64) -> bool
        ensures due { result ≡ fails_now said self.old }
        ensures counted { self.new ≡ after_call said self.old }
    {
        if said < self.said {
            return false;
        }
        match self.left {
            Some(0) => {
                self.left = None;
                true
            }
            Some(left) => {
                self.left = Some(left - 1);
                false
            }
            None => false,
        }
    }
}

impl FailPlan {
    ghost use Rattle.crash_plant.specs.Failures.{after_call, fails_now, is_stopping, planned_at};

    /// The failures of a list that are planned for a device or the console.
    pub(crate) fn of(
        alloc: Global,
        fails: &[Fail],
        at: Option<Device>,
        faults: u64,
    ) -> Result<FailPlan, NoMemory>
        ensures planned { IfOk result (λ plan. plan.planned.items ≡ planned_at at fails.now) }
        ensures faults { IfOk result (λ plan. plan.faults ≡ faults) }
    {
        let mut planned = Vec::new(alloc);
        for fail in fails {
            if fail.is_at(at) {
                planned.push(Planned {
                    said: fail.said,
                    left: Some(fail.call),
                    stop: fail.stop,
                })?;
            }
        }
        Ok(FailPlan { planned, faults })
    }

    pub(crate) fn faults(&self) -> u64
        ensures { result ≡ self.now.faults }
    {
        self.faults
    }

    /// Raises the count of faults.
    pub(crate) fn fail(&mut self) -> Result<(), Failed>
        ensures planned { self.new.planned ≡ self.old.planned }
        ensures fails { IsErr result }
        ensures cause { HasCause self.old.faults self.new.faults result }
    {
        self.faults = self.faults.saturating_add(1);
        Err(Failed)
    }

    /// Counts a call that is made when so many bytes are said. It fails where a failure is due, and where calls fail for good;
    /// a failure that is due may begin that.
    pub(crate) fn meet(&mut self, said: u64, is_stopped: &mut bool) -> Result<(), Failed>
        ensures counted { self.new.planned.items ≡ map (after_call said) self.old.planned.items }
        ensures fails { IsErr result ↔ IsTrue (is_stopped.old || list_any (fails_now said) self.old.planned.items) }
        ensures stops { is_stopped.new ≡ (is_stopped.old || list_any (is_stopping said) self.old.planned.items) }
        ensures cause { HasCause self.old.faults self.new.faults result }
    {
        let mut fails = *is_stopped;
        for planned in self.planned.iter_mut() {
            let is_due = planned.meet(said);
            fails |= is_due;
            *is_stopped |= is_due & planned.stop;
        }
        if fails { self.fail() } else { Ok(()) }
    }

    /// Takes the failures out. The count stays, here too.
    pub(crate) fn take(&mut self, alloc: Global) -> FailPlan
        ensures planned { result.planned ≡ self.old.planned }
        ensures faults { result.faults ≡ self.old.faults }
        ensures same_faults { self.new.faults ≡ self.old.faults }
    {
        FailPlan {
            planned: mem::replace(&mut self.planned, Vec::new(alloc)),
            faults: self.faults,
        }
    }
}

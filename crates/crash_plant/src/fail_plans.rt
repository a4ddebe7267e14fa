ghost use Rattle.std.specs.Prelude.{◌≡◌, ◌≢◌, ◌↔◌, ◌||◌, ◌<◌, ℕ, [], false, length, IfOk, IsErr, IsTrue};
ghost use Rattle.xrc_edge.specs.Causes.{HasCause};
ghost use Rattle.crash_plant.specs.declared.device.Device.{Device};
ghost use Rattle.crash_plant.specs.declared.device.Device.TheVariants.{Journal, Volume};

use crate::fail_plan::FailPlan;
use crate::{Device, Fail};
use std::alloc::Global;
use xrc_edge::{Failed, NoMemory};

/// The failures of all devices and of the console. Those of a volume that is lent are with it.
#[derive(Drop)]
pub(crate) struct FailPlans {
    control: FailPlan,
    state: FailPlan,
    journals: Vec<FailPlan>,
    volumes: Vec<FailPlan>,
    console: FailPlan,
    is_stopped: bool,
}

impl FailPlans {
    ghost use Rattle.crash_plant.specs.Failures.{planned_at};
    ghost use Rattle.crash_plant.specs.FailPlans.{Counts, CountsConsole, IsPlanned, faults_of, is_console_failing, is_failing, planned_of, plan_faults, plan_items};
    ghost use Rattle.crash_plant.specs.Devices.{seen_at};

    /// The failures of a list, for a plant of so many journals and volumes. The devices' counts begin at 0.
    pub(crate) fn make(
        alloc: Global,
        fails: &[Fail],
        journals: u16,
        volumes: u16,
        console_faults: u64,
    ) -> Result<FailPlans, NoMemory>
        ensures journals { IfOk result (λ plans. length plans.journals.items ≡ journals) }
        ensures volumes { IfOk result (λ plans. length plans.volumes.items ≡ volumes) }
        ensures faults { IfOk result (λ plans. (d : Device) → faults_of plans d ≡ 0) }
        ensures planned { IfOk result (λ plans. (d : Device) → IsPlanned plans d → planned_of plans d ≡ planned_at (Some d) fails.now) }
        ensures console { IfOk result (λ plans. plans.console.planned.items ≡ planned_at None fails.now) }
        ensures running { IfOk result (λ plans. plans.is_stopped ≡ false) }
        ensures console_faults { IfOk result (λ plans. plans.console.faults ≡ console_faults) }
    {
        Ok(FailPlans {
            control: FailPlan::of(alloc, fails, Some(Device::Control), 0)?,
            state: FailPlan::of(alloc, fails, Some(Device::State), 0)?,
            journals: FailPlans::of_journals(alloc, fails, journals)?,
            volumes: FailPlans::of_volumes(alloc, fails, volumes)?,
            console: FailPlan::of(alloc, fails, None, console_faults)?,
            is_stopped: false,
        })
    }

    fn of_journals(alloc: Global, fails: &[Fail], number: u16) -> Result<Vec<FailPlan>, NoMemory>
        ensures number { IfOk result (λ plans. length plans.items ≡ number) }
        ensures faults { IfOk result (λ plans. (j : ℕ) → j < number → seen_at plan_faults 0 plans.items j ≡ 0) }
        ensures planned { IfOk result (λ plans. (j : ℕ) → j < number → seen_at plan_items [] plans.items j ≡ planned_at (Some (Journal j)) fails.now) }
    {
        let mut plans = Vec::with_capacity(alloc, usize::from(number))?;
        for i in 0..number {
            plans.push(FailPlan::of(alloc, fails, Some(Device::Journal(i)), 0)?)?;
        }
        Ok(plans)
    }

    fn of_volumes(alloc: Global, fails: &[Fail], number: u16) -> Result<Vec<FailPlan>, NoMemory>
        ensures number { IfOk result (λ plans. length plans.items ≡ number) }
        ensures faults { IfOk result (λ plans. (v : ℕ) → v < number → seen_at plan_faults 0 plans.items v ≡ 0) }
        ensures planned { IfOk result (λ plans. (v : ℕ) → v < number → seen_at plan_items [] plans.items v ≡ planned_at (Some (Volume v)) fails.now) }
    {
        let mut plans = Vec::with_capacity(alloc, usize::from(number))?;
        for i in 0..number {
            plans.push(FailPlan::of(alloc, fails, Some(Device::Volume(i)), 0)?)?;
        }
        Ok(plans)
    }

    /// Counts a call on a device that is made when so many bytes are said, and fails where that is planned.
    pub(crate) fn meet(&mut self, device: Device, said: u64) -> Result<(), Failed>
        requires { IsPlanned self.old device }
        ensures fails { IsErr result ↔ IsTrue (is_failing self.old said device) }
        ensures counted { Counts said device self.old self.new }
        ensures cause { HasCause (faults_of self.old device) (faults_of self.new device) result }
        ensures others { (d : Device) → d ≢ device → faults_of self.new d ≡ faults_of self.old d }
        ensures journals { length self.new.journals.items ≡ length self.old.journals.items }
        ensures volumes { length self.new.volumes.items ≡ length self.old.volumes.items }
        ensures console { self.new.console ≡ self.old.console }
    {
        match device {
            Device::Control => self.control.meet(said, &mut self.is_stopped),
            Device::State => self.state.meet(said, &mut self.is_stopped),
            Device::Journal(number) => self.journals[usize::from(number)].meet(
                said,
                &mut self.is_stopped,
            ),
            Device::Volume(number) => self.volumes[usize::from(number)].meet(
                said,
                &mut self.is_stopped,
            ),
        }
    }

    /// Counts a call on the console, and fails where that is planned.
    pub(crate) fn meet_console(&mut self, said: u64) -> Result<(), Failed>
        ensures fails { IsErr result ↔ IsTrue (is_console_failing self.old said) }
        ensures counted { CountsConsole said self.old self.new }
        ensures cause { HasCause self.old.console.faults self.new.console.faults result }
        ensures counts { (d : Device) → faults_of self.new d ≡ faults_of self.old d }
        ensures journals { length self.new.journals.items ≡ length self.old.journals.items }
        ensures volumes { length self.new.volumes.items ≡ length self.old.volumes.items }
    {
        self.console.meet(said, &mut self.is_stopped)
    }

    /// Raises the count of faults of a device.
    pub(crate) fn fail(&mut self, device: Device) -> Result<(), Failed>
        requires { IsPlanned self.old device }
        ensures fails { IsErr result }
        ensures planned { (d : Device) → planned_of self.new d ≡ planned_of self.old d }
        ensures cause { HasCause (faults_of self.old device) (faults_of self.new device) result }
        ensures others { (d : Device) → d ≢ device → faults_of self.new d ≡ faults_of self.old d }
        ensures stopped { self.new.is_stopped ≡ self.old.is_stopped }
        ensures journals { length self.new.journals.items ≡ length self.old.journals.items }
        ensures volumes { length self.new.volumes.items ≡ length self.old.volumes.items }
        ensures console { self.new.console ≡ self.old.console }
    {
        match device {
            Device::Control => self.control.fail(),
            Device::State => self.state.fail(),
            Device::Journal(number) => self.journals[usize::from(number)].fail(),
            Device::Volume(number) => self.volumes[usize::from(number)].fail(),
        }
    }

    /// Raises the console's count of faults.
    pub(crate) fn fail_console(&mut self) -> Result<(), Failed>
        ensures fails { IsErr result }
        ensures planned { (d : Device) → planned_of self.new d ≡ planned_of self.old d }
        ensures console { self.new.console.planned ≡ self.old.console.planned }
        ensures stopped { self.new.is_stopped ≡ self.old.is_stopped }
        ensures cause { HasCause self.old.console.faults self.new.console.faults result }
        ensures counts { (d : Device) → faults_of self.new d ≡ faults_of self.old d }
        ensures journals { length self.new.journals.items ≡ length self.old.journals.items }
        ensures volumes { length self.new.volumes.items ≡ length self.old.volumes.items }
    {
        self.console.fail()
    }

    /// Whether every call fails from now on.
    pub(crate) fn is_stopped(&self) -> bool
        ensures { result ≡ self.now.is_stopped }
    {
        self.is_stopped
    }

    /// Takes out the failures of a volume. Its count stays, here too.
    pub(crate) fn lend(&mut self, alloc: Global, device: u16) -> FailPlan
        requires { device < length self.old.volumes.items }
        ensures planned { result.planned.items ≡ planned_of self.old (Volume device) }
        ensures faults { result.faults ≡ faults_of self.old (Volume device) }
        ensures others { (d : Device) → d ≢ Volume device → planned_of self.new d ≡ planned_of self.old d }
        ensures counts { (d : Device) → faults_of self.new d ≡ faults_of self.old d }
        ensures stopped { self.new.is_stopped ≡ self.old.is_stopped }
        ensures journals { length self.new.journals.items ≡ length self.old.journals.items }
        ensures volumes { length self.new.volumes.items ≡ length self.old.volumes.items }
        ensures console { self.new.console ≡ self.old.console }
    {
        self.volumes[usize::from(device)].take(alloc)
    }

    /// Puts back the failures of a volume with its count. Every call fails from now on if its calls do so.
    pub(crate) fn give_back(&mut self, device: u16, plan: FailPlan, is_stopped: bool)
        requires { device < length self.old.volumes.items }
        ensures planned { planned_of self.new (Volume device) ≡ plan.planned.items }
        ensures faults { faults_of self.new (Volume device) ≡ plan.faults }
        ensures others { (d : Device) → d ≢ Volume device → faults_of self.new d ≡ faults_of self.old d }
        ensures others_planned { (d : Device) → d ≢ Volume device → planned_of self.new d ≡ planned_of self.old d }
        ensures stopped { self.new.is_stopped ≡ (self.old.is_stopped || is_stopped) }
        ensures journals { length self.new.journals.items ≡ length self.old.journals.items }
        ensures volumes { length self.new.volumes.items ≡ length self.old.volumes.items }
        ensures console { self.new.console ≡ self.old.console }
    {
        self.volumes[usize::from(device)] = plan;
        self.is_stopped |= is_stopped;
    }
}

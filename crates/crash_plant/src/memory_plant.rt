ghost use Rattle.std.specs.Prelude.{false, ◌≡◌, ◌≢◌, ◌↔◌, ◌≤◌, ◌<◌, ◌+◌, ◌++◌, ◌^◌, ◌||◌, [], length, slice_range, IfOk, IsErr, IsTrue, OnErr, OnOk};
ghost use Rattle.xrc_edge.specs.Causes.{HasCause};
ghost use Rattle.crash_plant.specs.Bytes.{patched, Torn};
ghost use Rattle.crash_plant.specs.Choices.{IsChoice};
ghost use Rattle.crash_plant.specs.Clock.{clock_of, is_at_end, last_tick};
ghost use Rattle.crash_plant.specs.MemoryConsole.{HearsNext, SameMemoryConsole as SameRecord, Utters, last_told, left_to_hear};
ghost use Rattle.crash_plant.specs.MemoryDisks.{IsHome, SameSizes, journals_of, view, volumes_of};
ghost use Rattle.crash_plant.specs.Moments.{Follows, IsDurable, Raises, Same, Stands, on};
ghost use Rattle.crash_plant.specs.Calls.{Hears, HearsNothing, IsLentOne, IsPart, IsThere, Lends, Listens, NoneLent, SameSite, Says, TakesBack, WorksOn, WorksOnConsole};
ghost use Rattle.crash_plant.specs.DiskRemains.{left_of};
ghost use Rattle.crash_plant.specs.NewPlants.{IsSilent, SameConsole, SameDevices};
ghost use Rattle.crash_plant.specs.CallSteps.{IsSynced, Opens, OpensOrNot, Passes, ShelfOpens, ShelfStands, step_of};
ghost use Rattle.crash_plant.specs.Pasts.{Does};
ghost use Rattle.crash_plant.specs.PlainPlant.{plain_state};
ghost use Rattle.crash_plant.specs.Shelves.{ShelfRoom, last_done, lent_at, shelf_bytes, shelf_length, shelf_past};
ghost use Rattle.crash_plant.specs.declared.device.Device.{Device};
ghost use Rattle.crash_plant.specs.declared.device.Device.TheVariants.{Volume};

use crate::clock::{back, moment, raise};
use crate::entry::Done;
use crate::fail_plans::FailPlans;
use crate::memory_console::MemoryConsole;
use crate::memory_disk::MemoryDisk;
use crate::memory_disks::MemoryDisks;
use crate::memory_volume::front;
use crate::{Device, FailList, Heard, MemoryVolume, PlainPlant, Plant};
use std::alloc::Global;
use xrc_edge::{Failed, NoMemory};

/// A plant in memory that keeps its past, so that it can tell what a crash leaves at each moment.
///
/// Its clock begins at 1, and each call that succeeds raises it. Between two syncs that succeed, each range written since the
/// first of them may hold any bytes after a crash; all other bytes are as read.
///
/// Its calls fail by plan. A write that fails tears its range: the front of its bytes is written, and the range is open for a
/// crash. A say that fails has said the front of its bytes. A write, a sync, a say, and the hearing of a byte take memory
/// for their record, and fail where it is wanting, though no failure was planned; each call fails at the clock's end. So
/// that a failure was planned is one cause of these failures, and not the only one.
#[derive(Drop)]
pub struct MemoryPlant {
    alloc: Global,
    // Each call that succeeds raises it.
    ticks: u64,
    disks: MemoryDisks,
    console: MemoryConsole,
    plans: FailPlans,
    ghost few_journals: { journals_of disks < 2 ^ 16 },
    ghost few_volumes: { volumes_of disks < 2 ^ 16 },
    ghost each_journal: { length plans.journals.items ≡ journals_of disks },
    ghost each_volume: { length plans.volumes.items ≡ volumes_of disks },
    ghost within: { ticks ≤ last_tick },
    ghost done: { (d : Device) → last_done (view disks d) ≤ clock_of ticks },
    ghost loans: { (d : Device) → lent_at (view disks d) ≤ ticks },
    ghost told: { last_told console ≤ clock_of ticks },
}

impl MemoryPlant {
    ghost use Rattle.crash_plant.specs.MemoryDisk.{past_of};
    ghost use Rattle.crash_plant.specs.MemoryPlant.{IsPlannedAs, memory_state, said_count};
    ghost use Rattle.crash_plant.specs.CallSteps.{Shelves};
    ghost use Rattle.crash_plant.specs.Pasts.{last_till};

    /// The plain plant, with its past from now on, and a list of its calls that fail. The calls counted so far are none, and
    /// so are the devices' faults.
    pub fn make(alloc: Global, plain: PlainPlant, fails: FailList) -> Result<MemoryPlant, NoMemory>
        ensures planned { IfOk result (λ plant. IsPlannedAs fails plant) }
        ensures devices { IfOk result (λ plant. SameDevices (plain_state plain) (memory_state plant)) }
        ensures console { IfOk result (λ plant. SameConsole (plain_state plain) (memory_state plant)) }
        ensures clock { IfOk result (λ plant. (memory_state plant).clock ≡ 1) }
        ensures durable { IfOk result (λ plant. (d : Device) → IsDurable (on (memory_state plant) d)) }
    {
        let plans = FailPlans::make(
            alloc,
            fails.as_slice(),
            plain.journals(),
            plain.volumes(),
            plain.console_faults(),
        )?;
        let PlainPlant {
            control,
            state,
            journals,
            volumes,
            script,
            next,
            said,
            console_faults: _,
        } = plain;
        let disks = MemoryDisks::make(alloc, control, state, journals, volumes)?;
        Ok(MemoryPlant {
            alloc,
            ticks: 0,
            disks,
            console: MemoryConsole::new(alloc, 1, script, next, said),
            plans,
        })
    }

    /// The bytes said so far.
    pub fn said(&self) -> &[u8]
        ensures { result.now ≡ (memory_state self.now).said (memory_state self.now).clock }
    {
        self.console.said()
    }

    /// The images of a crash now: a plant without a past, with an empty script, on which nothing is said. The open ranges are
    /// filled from the choice repeated, each from its beginning, and with zeros where the choice is empty.
    pub fn crash(&self, alloc: Global, choice: &[u8]) -> Result<PlainPlant, NoMemory>
        requires { NoneLent (memory_state self.now) }
        ensures site { IfOk result (λ plant. SameSite (memory_state self.now) (plain_state plant)) }
        ensures images { IfOk result (λ plant. IsChoice (memory_state self.now) (memory_state self.now).clock (plain_state plant).bytes) }
        ensures chosen { IfOk result (λ plant. (d : Device) → IsPart (memory_state self.now) d → (plain_state plant).bytes d ≡ left_of choice.now (shelf_past (view self.now.disks d)) ((memory_state self.now).bytes d)) }
        ensures none_lent { IfOk result (λ plant. NoneLent (plain_state plant)) }
        ensures console { IfOk result (λ plant. IsSilent (plain_state plant)) }
    {
        let plant = self.disks.left(alloc, choice)?;
        Ok(plant)
    }

    fn said_so_far(&self) -> u64
        ensures { result ≡ said_count self.now }
    {
        self.console.said().len() as u64
    }

    // Does a call on a device and raises the clock. Where it can't, nothing is done.
    fn note(&mut self, device: Device, done: Done, place: u64, bytes: &[u8]) -> Result<(), Failed>
        requires there { IsHome self.old.disks device }
        requires range { place + length bytes.now ≤ shelf_length (view self.old.disks device) }
        requires does { Does done (shelf_bytes (view self.old.disks device)) (patched place bytes.now (shelf_bytes (view self.old.disks device))) }
        ensures passes { Passes (step_of done) (clock_of self.old.ticks) (clock_of self.new.ticks) (view self.old.disks device) (view self.new.disks device) }
        ensures written { OnOk result (shelf_bytes (view self.new.disks device) ≡ patched place bytes.now (shelf_bytes (view self.old.disks device))) }
        ensures durable { OnOk result (IsSynced done (clock_of self.new.ticks) (view self.new.disks device)) }
        ensures opens { OnOk result (ShelfOpens done (clock_of self.old.ticks) (clock_of self.new.ticks) (view self.old.disks device) (view self.new.disks device)) }
        ensures same { OnErr result (shelf_bytes (view self.new.disks device) ≡ shelf_bytes (view self.old.disks device)) }
        ensures stands { OnErr result (ShelfStands (clock_of self.old.ticks) (clock_of self.new.ticks) (view self.old.disks device) (view self.new.disks device)) }
        ensures clock { OnOk result (self.new.ticks ≡ self.old.ticks + 1) }
        ensures by_one { self.new.ticks ≤ self.old.ticks + 1 }
        ensures room { ShelfRoom (view self.old.disks device) → IsErr result → IsTrue (is_at_end self.old.ticks) }
        ensures others { (d : Device) → d ≢ device → view self.new.disks d ≡ view self.old.disks d }
        ensures sizes { SameSizes self.old.disks self.new.disks }
        ensures console { self.new.console ≡ self.old.console }
        ensures plans { self.new.plans ≡ self.old.plans }
    {
        if !raise(&mut self.ticks) {
            return Err(Failed);
        }
        match self
            .disks
            .note(device, moment(self.ticks), done, place, bytes)
        {
            Ok(()) => Ok(()),
            Err(_) => Err(Failed),
        }
    }

    // Puts a volume in its place whose own clock stands at a tick. Its own calls lie between the moment after that of the
    // loan and now.
    fn shelve(&mut self, device: u16, disk: MemoryDisk, ticks: u64)
        requires there { device < volumes_of self.old.disks }
        requires own { ticks ≤ last_tick }
        requires done { last_till 0 (past_of disk) ≤ clock_of ticks }
        ensures here { Shelves ticks (lent_at (view self.old.disks (Volume device))) self.old.ticks self.new.ticks disk (view self.new.disks (Volume device)) }
        ensures others { (d : Device) → d ≢ Volume device → view self.new.disks d ≡ view self.old.disks d }
        ensures by_one { self.new.ticks ≤ self.old.ticks + 1 }
        ensures later { self.old.ticks ≤ self.new.ticks }
        ensures sizes { SameSizes self.old.disks self.new.disks }
        ensures console { self.new.console ≡ self.old.console }
        ensures plans { self.new.plans ≡ self.old.plans }
    {
        let lent = self.disks.lent_at(device);
        if ticks <= lent {
            self.disks.put(device, disk);
        } else {
            let now = back(self.ticks, lent);
            self.ticks = now;
            self.disks
                .put(device, disk.moved(moment(lent), moment(now)));
        }
    }

    // Says bytes and raises the clock. Where it can't, nothing is said.
    fn utter(&mut self, bytes: &[u8]) -> Result<(), Failed>
        ensures ok { OnOk result (Utters (clock_of self.new.ticks) bytes.now self.old.console self.new.console) }
        ensures err { OnErr result (SameRecord self.old.console self.new.console) }
        ensures clock { OnOk result (self.new.ticks ≡ self.old.ticks + 1) }
        ensures by_one { self.new.ticks ≤ self.old.ticks + 1 }
        ensures later { self.old.ticks ≤ self.new.ticks }
        ensures disks { self.new.disks ≡ self.old.disks }
        ensures plans { self.new.plans ≡ self.old.plans }
    {
        if !raise(&mut self.ticks) {
            return Err(Failed);
        }
        match self.console.say(moment(self.ticks), bytes) {
            Ok(()) => Ok(()),
            Err(_) => Err(Failed),
        }
    }

    // Hears and raises the clock. Where it can't, nothing is heard.
    fn attend(&mut self) -> Result<Heard, Failed>
        ensures ok { IfOk result (λ heard. HearsNext (clock_of self.new.ticks) self.old.console self.new.console heard) }
        ensures end { left_to_hear self.old.console ≡ [] → IsErr result → IsTrue (is_at_end self.old.ticks) }
        ensures err { OnErr result (SameRecord self.old.console self.new.console) }
        ensures clock { OnOk result (self.new.ticks ≡ self.old.ticks + 1) }
        ensures by_one { self.new.ticks ≤ self.old.ticks + 1 }
        ensures later { self.old.ticks ≤ self.new.ticks }
        ensures disks { self.new.disks ≡ self.old.disks }
        ensures plans { self.new.plans ≡ self.old.plans }
    {
        if !raise(&mut self.ticks) {
            return Err(Failed);
        }
        match self.console.hear(moment(self.ticks)) {
            Ok(heard) => Ok(heard),
            Err(_) => Err(Failed),
        }
    }
}

#[tactic(auto, using(crate::proofs::Memories::home_of))]
impl Plant for MemoryPlant {
    ghost use Rattle.crash_plant.specs.MemoryPlant.{CountsCall, CountsConsoleCall, LendsPlan, TakesPlanBack, console_fails_by_plan, fails_by_plan, memory_state};
    ghost use Rattle.crash_plant.specs.MemoryLaws.{plant_has_image, plant_length_told, plant_read_is_image};
    ghost use Rattle.crash_plant.specs.MemoryVolume.{volume_standing};

    type Volume = MemoryVolume;

    ghost state = { memory_state };

    ghost tells = { Unit {0} };

    ghost read_is_image = { λ plant d told there. plant_read_is_image plant d there };

    ghost has_image = { λ plant d t told part up. plant_has_image plant d t };

    ghost length_told = { λ plant d told there. plant_length_told plant d there };

    fn journals(&self) -> u16 {
        self.disks.journals()
    }

    fn volumes(&self) -> u16 {
        self.disks.volumes()
    }

    fn length(&self, device: Device) -> u64 {
        self.disks.disk(device).length()
    }

    fn read(&mut self, device: Device, place: u64, into: &mut [u8]) -> Result<(), Failed>
        requires there { IsThere (memory_state self.old) device }
        requires range { place + length into.old ≤ (memory_state self.old).lengths device }
        ensures bytes { OnOk result (into.new ≡ slice_range ((memory_state self.old).bytes device) place (place + length into.old)) }
        ensures same { (memory_state self.new).bytes device ≡ (memory_state self.old).bytes device }
        ensures moments { Follows Same (on (memory_state self.old) device) (on (memory_state self.new) device) }
        ensures stands { Stands (on (memory_state self.old) device) (on (memory_state self.new) device) }
        ensures clock { OnOk result (Raises (memory_state self.old).clock (memory_state self.new).clock) }
        ensures only { WorksOn (Unit {0}) (λ d. d ≡ device) (memory_state self.old) (memory_state self.new) }
        ensures cause { HasCause ((memory_state self.old).faults device) ((memory_state self.new).faults device) result }
        ensures planned { IsErr result ↔ IsTrue (fails_by_plan self.old device || is_at_end self.old.ticks) }
        ensures counted { CountsCall device self.old self.new }
        ensures by_one { self.new.ticks ≤ self.old.ticks + 1 }
    {
        let said = self.said_so_far();
        self.plans.meet(device, said)?;
        if !raise(&mut self.ticks) {
            return self.plans.fail(device);
        }
        self.disks.disk(device).read(place, into);
        Ok(())
    }

    fn write(&mut self, device: Device, place: u64, bytes: &[u8]) -> Result<(), Failed>
        requires there { IsThere (memory_state self.old) device }
        requires range { place + length bytes.now ≤ (memory_state self.old).lengths device }
        ensures written { OnOk result ((memory_state self.new).bytes device ≡ patched place bytes.now ((memory_state self.old).bytes device)) }
        ensures torn { Torn place (length bytes.now) ((memory_state self.old).bytes device) ((memory_state self.new).bytes device) }
        ensures open { OnOk result (Opens place (length bytes.now) (on (memory_state self.old) device) (on (memory_state self.new) device)) }
        ensures failed { OnErr result (OpensOrNot place (length bytes.now) (on (memory_state self.old) device) (on (memory_state self.new) device)) }
        ensures moments { Follows (Torn place (length bytes.now)) (on (memory_state self.old) device) (on (memory_state self.new) device) }
        ensures clock { OnOk result (Raises (memory_state self.old).clock (memory_state self.new).clock) }
        ensures only { WorksOn (Unit {0}) (λ d. d ≡ device) (memory_state self.old) (memory_state self.new) }
        ensures cause { HasCause ((memory_state self.old).faults device) ((memory_state self.new).faults device) result }
        ensures planned { IsTrue (fails_by_plan self.old device) → IsErr result }
        ensures counted { CountsCall device self.old self.new }
        ensures room { ShelfRoom (view self.old.disks device) → IsErr result → IsTrue (fails_by_plan self.old device || is_at_end self.old.ticks) }
        ensures room_opens { ShelfRoom (view self.old.disks device) → is_at_end self.old.ticks ≡ false → Opens place (length bytes.now) (on (memory_state self.old) device) (on (memory_state self.new) device) }
        ensures by_one { self.new.ticks ≤ self.old.ticks + 1 }
    {
        let said = self.said_so_far();
        let done = Done::Write {
            place,
            count: bytes.len() as u64,
        };
        match self.plans.meet(device, said) {
            Ok(()) => match self.note(device, done, place, bytes) {
                Ok(()) => Ok(()),
                Err(_) => self.plans.fail(device),
            },
            Err(failed) => {
                // Without memory for the record nothing is torn. It is no call of its own.
                let _ = self.note(device, done, place, front(bytes));
                Err(failed)
            }
        }
    }

    fn sync(&mut self, device: Device) -> Result<(), Failed>
        requires { IsThere (memory_state self.old) device }
        ensures durable { OnOk result (IsDurable (on (memory_state self.new) device)) }
        ensures same { (memory_state self.new).bytes device ≡ (memory_state self.old).bytes device }
        ensures moments { Follows Same (on (memory_state self.old) device) (on (memory_state self.new) device) }
        ensures stands { OnErr result (Stands (on (memory_state self.old) device) (on (memory_state self.new) device)) }
        ensures clock { OnOk result (Raises (memory_state self.old).clock (memory_state self.new).clock) }
        ensures only { WorksOn (Unit {0}) (λ d. d ≡ device) (memory_state self.old) (memory_state self.new) }
        ensures cause { HasCause ((memory_state self.old).faults device) ((memory_state self.new).faults device) result }
        ensures planned { IsTrue (fails_by_plan self.old device) → IsErr result }
        ensures counted { CountsCall device self.old self.new }
        ensures room { ShelfRoom (view self.old.disks device) → IsErr result → IsTrue (fails_by_plan self.old device || is_at_end self.old.ticks) }
        ensures by_one { self.new.ticks ≤ self.old.ticks + 1 }
    {
        let said = self.said_so_far();
        self.plans.meet(device, said)?;
        match self.note(device, Done::Sync, 0, &[]) {
            Ok(()) => Ok(()),
            Err(_) => self.plans.fail(device),
        }
    }

    fn hear(&mut self) -> Result<Heard, Failed>
        ensures heard { IfOk result (λ heard. Hears (memory_state self.old) (memory_state self.new) heard) }
        ensures err { OnErr result (HearsNothing (memory_state self.old) (memory_state self.new)) }
        ensures moments { Listens (memory_state self.old) (memory_state self.new) }
        ensures clock { OnOk result (Raises (memory_state self.old).clock (memory_state self.new).clock) }
        ensures only { WorksOnConsole (Unit {0}) (memory_state self.old) (memory_state self.new) }
        ensures cause { HasCause (memory_state self.old).console_faults (memory_state self.new).console_faults result }
        ensures end { (memory_state self.old).script ≡ [] → IsErr result → IsTrue (console_fails_by_plan self.old || is_at_end self.old.ticks) }
        ensures planned { IsTrue (console_fails_by_plan self.old) → IsErr result }
        ensures counted { CountsConsoleCall self.old self.new }
        ensures by_one { self.new.ticks ≤ self.old.ticks + 1 }
    {
        let said = self.said_so_far();
        self.plans.meet_console(said)?;
        match self.attend() {
            Ok(heard) => Ok(heard),
            Err(failed) => {
                let _ = self.plans.fail_console();
                Err(failed)
            }
        }
    }

    fn say(&mut self, bytes: &[u8]) -> Result<(), Failed>
        ensures said { OnOk result ((memory_state self.new).said (memory_state self.new).clock ≡ (memory_state self.old).said (memory_state self.old).clock ++ bytes.now) }
        ensures moments { Says bytes.now (memory_state self.old) (memory_state self.new) }
        ensures clock { OnOk result (Raises (memory_state self.old).clock (memory_state self.new).clock) }
        ensures only { WorksOnConsole (Unit {0}) (memory_state self.old) (memory_state self.new) }
        ensures cause { HasCause (memory_state self.old).console_faults (memory_state self.new).console_faults result }
        ensures planned { IsTrue (console_fails_by_plan self.old) → IsErr result }
        ensures counted { CountsConsoleCall self.old self.new }
        ensures by_one { self.new.ticks ≤ self.old.ticks + 1 }
    {
        let said = self.said_so_far();
        match self.plans.meet_console(said) {
            Ok(()) => match self.utter(bytes) {
                Ok(()) => Ok(()),
                Err(_) => self.plans.fail_console(),
            },
            Err(failed) => {
                // Where memory is wanting, nothing of the front is said, which is a front too.
                let _ = self.utter(front(bytes));
                Err(failed)
            }
        }
    }

    fn lend(&mut self, device: u16) -> MemoryVolume
        requires { IsThere (memory_state self.old) (Volume device) }
        ensures tells { Unit {0} }
        ensures lent { Lends (Unit {0}) device (memory_state self.old) (memory_state self.new) (volume_standing result) }
        ensures planned { LendsPlan device self.old self.new result }
        ensures by_one { self.new.ticks ≤ self.old.ticks + 1 }
    {
        let said = self.said_so_far();
        MemoryVolume {
            disk: self.disks.lend(device, self.ticks),
            ticks: self.ticks,
            plan: self.plans.lend(self.alloc, device),
            said,
            is_stopped: self.plans.is_stopped(),
        }
    }

    fn give_back(&mut self, device: u16, volume: MemoryVolume)
        requires { IsLentOne (Unit {0}) device (memory_state self.old) (volume_standing volume) }
        ensures back { TakesBack (Unit {0}) device (memory_state self.old) (memory_state self.new) (volume_standing volume) }
        ensures planned { TakesPlanBack device self.old self.new volume }
        ensures by_one { self.new.ticks ≤ self.old.ticks + 1 }
    {
        let MemoryVolume {
            disk,
            ticks,
            plan,
            said: _,
            is_stopped,
        } = volume;
        self.shelve(device, disk, ticks);
        self.plans.give_back(device, plan, is_stopped);
    }
}

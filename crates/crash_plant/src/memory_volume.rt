ghost use Rattle.std.specs.Prelude.{false, ◌≡◌, ◌↔◌, ◌≤◌, ◌+◌, ◌/◌, ◌||◌, length, slice_range, take, IsErr, IsTrue, OnErr, OnOk};
ghost use Rattle.xrc_edge.specs.Causes.{HasCause};
ghost use Rattle.crash_plant.specs.Bytes.{patched, Torn};
ghost use Rattle.crash_plant.specs.Clock.{clock_of, is_at_end, last_tick};
ghost use Rattle.crash_plant.specs.MemoryDisk.{HasRoom, held, past_of};
ghost use Rattle.crash_plant.specs.Moments.{Follows, IsDurable, SamePast, Raises, Same, Stands};
ghost use Rattle.crash_plant.specs.Pasts.{Does, last_till};

use crate::Disk;
use crate::clock::{moment, raise};
use crate::entry::Done;
use crate::fail_plan::FailPlan;
use crate::memory_disk::MemoryDisk;
use xrc_edge::Failed;

/// A volume that a `MemoryPlant` lent. It keeps its past, and carries the failures planned for its device with its count of
/// faults. A write or a sync fails also where memory is wanting for its record, and each call at the clock's end.
#[derive(Drop)]
pub struct MemoryVolume {
    pub(crate) disk: MemoryDisk,
    // Each call that succeeds raises it.
    pub(crate) ticks: u64,
    pub(crate) plan: FailPlan,
    // How many bytes the plant had said when it lent the volume.
    pub(crate) said: u64,
    pub(crate) is_stopped: bool,
    ghost within: { ticks ≤ last_tick },
    ghost done: { last_till 0 (past_of disk) ≤ clock_of ticks },
}

/// The first half of the bytes, which a call that fails leaves.
pub(crate) fn front(bytes: &[u8]) -> &[u8]
    ensures { result.now ≡ take (length bytes.now / 2) bytes.now }
{
    &bytes[..bytes.len() / 2]
}

impl MemoryVolume {
    ghost use Rattle.crash_plant.specs.CallSteps.{DiskOpens, DiskPasses, DiskStands, IsSyncDone, step_of};

    // Does a call and raises the clock. Where it can't, nothing is done.
    fn note(&mut self, done: Done, place: u64, bytes: &[u8]) -> Result<(), Failed>
        requires range { place + length bytes.now ≤ length (held self.old.disk) }
        requires does { Does done (held self.old.disk) (patched place bytes.now (held self.old.disk)) }
        ensures passes { DiskPasses (step_of done) (clock_of self.old.ticks) (clock_of self.new.ticks) self.old.disk self.new.disk }
        ensures written { OnOk result (held self.new.disk ≡ patched place bytes.now (held self.old.disk)) }
        ensures clock { OnOk result (self.new.ticks ≡ self.old.ticks + 1) }
        ensures durable { OnOk result (IsSyncDone done (clock_of self.new.ticks) self.new.disk) }
        ensures opens { OnOk result (DiskOpens done (clock_of self.old.ticks) (clock_of self.new.ticks) self.old.disk self.new.disk) }
        ensures same { OnErr result (held self.new.disk ≡ held self.old.disk) }
        ensures stands { OnErr result (DiskStands (clock_of self.old.ticks) (clock_of self.new.ticks) self.old.disk self.new.disk) }
        ensures by_one { self.new.ticks ≤ self.old.ticks + 1 }
        ensures room { HasRoom self.old.disk → IsErr result → IsTrue (is_at_end self.old.ticks) }
        ensures plan { self.new.plan ≡ self.old.plan }
        ensures said { self.new.said ≡ self.old.said }
        ensures stopped { self.new.is_stopped ≡ self.old.is_stopped }
    {
        if !raise(&mut self.ticks) {
            return Err(Failed);
        }
        match self.disk.note(moment(self.ticks), done, place, bytes) {
            Ok(()) => Ok(()),
            Err(_) => Err(Failed),
        }
    }
}

#[tactic(auto, using(crate::proofs::Passing::kept_of, crate::proofs::Passing::follows_of))]
impl Disk for MemoryVolume {
    ghost use Rattle.crash_plant.specs.MemoryVolume.{CountsOwnCall, volume_fails_by_plan, volume_standing};
    ghost use Rattle.crash_plant.specs.MemoryLaws.{volume_read_is_image};
    ghost use Rattle.crash_plant.specs.CallSteps.{Opens, OpensOrNot};
    ghost use Rattle.std.specs.Prelude.{refl};

    ghost state = { volume_standing };

    ghost tells = { Unit {0} };

    ghost read_is_image = { λ volume told. volume_read_is_image volume };

    ghost length_told = { λ volume told. refl };

    fn length(&self) -> u64 {
        self.disk.length()
    }

    fn read(&mut self, place: u64, into: &mut [u8]) -> Result<(), Failed>
        requires { place + length into.old ≤ (volume_standing self.old).length_is }
        ensures bytes { OnOk result (into.new ≡ slice_range (volume_standing self.old).bytes place (place + length into.old)) }
        ensures same { (volume_standing self.new).bytes ≡ (volume_standing self.old).bytes }
        ensures past { SamePast (volume_standing self.old) (volume_standing self.new) }
        ensures moments { Follows Same (volume_standing self.old) (volume_standing self.new) }
        ensures stands { Stands (volume_standing self.old) (volume_standing self.new) }
        ensures clock { OnOk result (Raises (volume_standing self.old).clock (volume_standing self.new).clock) }
        ensures length { (volume_standing self.new).length_is ≡ (volume_standing self.old).length_is }
        ensures cause { HasCause (volume_standing self.old).faults (volume_standing self.new).faults result }
        ensures planned { IsErr result ↔ IsTrue (volume_fails_by_plan self.old || is_at_end self.old.ticks) }
        ensures counted { CountsOwnCall self.old self.new }
        ensures by_one { self.new.ticks ≤ self.old.ticks + 1 }
    {
        self.plan.meet(self.said, &mut self.is_stopped)?;
        if !raise(&mut self.ticks) {
            return self.plan.fail();
        }
        self.disk.read(place, into);
        Ok(())
    }

    /// A write that fails tears its range: the front of its bytes is written, and the range is open.
    fn write(&mut self, place: u64, bytes: &[u8]) -> Result<(), Failed>
        requires { place + length bytes.now ≤ (volume_standing self.old).length_is }
        ensures written { OnOk result ((volume_standing self.new).bytes ≡ patched place bytes.now (volume_standing self.old).bytes) }
        ensures torn { Torn place (length bytes.now) (volume_standing self.old).bytes (volume_standing self.new).bytes }
        ensures open { OnOk result (Opens place (length bytes.now) (volume_standing self.old) (volume_standing self.new)) }
        ensures failed { OnErr result (OpensOrNot place (length bytes.now) (volume_standing self.old) (volume_standing self.new)) }
        ensures past { SamePast (volume_standing self.old) (volume_standing self.new) }
        ensures moments { Follows (Torn place (length bytes.now)) (volume_standing self.old) (volume_standing self.new) }
        ensures clock { OnOk result (Raises (volume_standing self.old).clock (volume_standing self.new).clock) }
        ensures length { (volume_standing self.new).length_is ≡ (volume_standing self.old).length_is }
        ensures cause { HasCause (volume_standing self.old).faults (volume_standing self.new).faults result }
        ensures planned { IsTrue (volume_fails_by_plan self.old) → IsErr result }
        ensures counted { CountsOwnCall self.old self.new }
        ensures room { HasRoom self.old.disk → IsErr result → IsTrue (volume_fails_by_plan self.old || is_at_end self.old.ticks) }
        ensures room_opens { HasRoom self.old.disk → is_at_end self.old.ticks ≡ false → Opens place (length bytes.now) (volume_standing self.old) (volume_standing self.new) }
        ensures by_one { self.new.ticks ≤ self.old.ticks + 1 }
    {
        let done = Done::Write {
            place,
            count: bytes.len() as u64,
        };
        match self.plan.meet(self.said, &mut self.is_stopped) {
            Ok(()) => match self.note(done, place, bytes) {
                Ok(()) => Ok(()),
                Err(_) => self.plan.fail(),
            },
            Err(failed) => {
                // Without memory for the record nothing is torn, which is no call of its own.
                let _ = self.note(done, place, front(bytes));
                Err(failed)
            }
        }
    }

    fn sync(&mut self) -> Result<(), Failed>
        ensures durable { OnOk result (IsDurable (volume_standing self.new)) }
        ensures same { (volume_standing self.new).bytes ≡ (volume_standing self.old).bytes }
        ensures past { SamePast (volume_standing self.old) (volume_standing self.new) }
        ensures moments { Follows Same (volume_standing self.old) (volume_standing self.new) }
        ensures stands { OnErr result (Stands (volume_standing self.old) (volume_standing self.new)) }
        ensures clock { OnOk result (Raises (volume_standing self.old).clock (volume_standing self.new).clock) }
        ensures length { (volume_standing self.new).length_is ≡ (volume_standing self.old).length_is }
        ensures cause { HasCause (volume_standing self.old).faults (volume_standing self.new).faults result }
        ensures planned { IsTrue (volume_fails_by_plan self.old) → IsErr result }
        ensures counted { CountsOwnCall self.old self.new }
        ensures room { HasRoom self.old.disk → IsErr result → IsTrue (volume_fails_by_plan self.old || is_at_end self.old.ticks) }
        ensures by_one { self.new.ticks ≤ self.old.ticks + 1 }
    {
        self.plan.meet(self.said, &mut self.is_stopped)?;
        match self.note(Done::Sync, 0, &[]) {
            Ok(()) => Ok(()),
            Err(_) => self.plan.fail(),
        }
    }
}

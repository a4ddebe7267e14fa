ghost use Rattle.std.specs.Prelude.{◌≡◌, ◌≤◌, ◌<◌, ◌+◌, false, true, List, ℕ, length, slice_range, ◌++◌, OnOk, OnErr, IfOk, IsErr, IsOk};
ghost use Rattle.crash_plant.specs.Bytes.{patched, Torn};
ghost use Rattle.crash_plant.specs.Moments.{Standing, PlantState, on, SamePast, Follows, Same, IsDurable, Raises};
ghost use Rattle.crash_plant.specs.Calls.{IsPart, IsThere, NoneLent, WorksOn, WorksOnConsole, Hears, HearsNothing, Listens, Says, Lends, TakesBack, IsLentOne};
ghost use Rattle.xrc_edge.specs.Causes.{HasCause};
ghost use Rattle.crash_plant.specs.declared.device.Device.{Device};
ghost use Rattle.crash_plant.specs.declared.device.Device.TheVariants.{Volume};

use crate::{Device, Disk, Heard};
use xrc_edge::Failed;

/// The devices and the console of a site. It counts the faults of each device, and those of the console.
pub trait Plant {
    /// A volume while it is lent.
    type Volume: Disk + Drop + Send;

    /// The devices, the console and their past.
    ghost state: { Self → PlantState };

    /// Whether bytes and moments are told.
    ghost tells: { Type 0 };

    /// How many journals there are.
    fn journals(&self) -> u16
        ensures { result ≡ (state self.now).journals };

    /// How many volumes there are, with those that are lent.
    fn volumes(&self) -> u16
        ensures { result ≡ (state self.now).volumes };

    /// How many bytes a device has.
    fn length(&self, device: Device) -> u64
        requires { IsThere (state self.now) device }
        ensures { result ≡ (state self.now).lengths device };

    /// Puts the bytes from a place on into a slice.
    fn read(&mut self, device: Device, place: u64, into: &mut [u8]) -> Result<(), Failed>
        requires there { IsThere (state self.old) device }
        requires range { place + length into.old ≤ (state self.old).lengths device }
        ensures bytes { tells → OnOk result (into.new ≡ slice_range ((state self.old).bytes device) place (place + length into.old)) }
        ensures same { tells → (state self.new).bytes device ≡ (state self.old).bytes device }
        ensures moments { tells → Follows Same (on (state self.old) device) (on (state self.new) device) }
        ensures clock { tells → OnOk result (Raises (state self.old).clock (state self.new).clock) }
        ensures only { WorksOn tells (λ d. d ≡ device) (state self.old) (state self.new) }
        ensures cause { HasCause ((state self.old).faults device) ((state self.new).faults device) result };

    /// Writes over what is there. Until a sync, a crash may leave any bytes in the range.
    fn write(&mut self, device: Device, place: u64, bytes: &[u8]) -> Result<(), Failed>
        requires there { IsThere (state self.old) device }
        requires range { place + length bytes.now ≤ (state self.old).lengths device }
        ensures written { tells → OnOk result ((state self.new).bytes device ≡ patched place bytes.now ((state self.old).bytes device)) }
        ensures torn { tells → Torn place (length bytes.now) ((state self.old).bytes device) ((state self.new).bytes device) }
        ensures moments { tells → Follows (Torn place (length bytes.now)) (on (state self.old) device) (on (state self.new) device) }
        ensures clock { tells → OnOk result (Raises (state self.old).clock (state self.new).clock) }
        ensures only { WorksOn tells (λ d. d ≡ device) (state self.old) (state self.new) }
        ensures cause { HasCause ((state self.old).faults device) ((state self.new).faults device) result };

    /// After it, a crash leaves what a read gives.
    fn sync(&mut self, device: Device) -> Result<(), Failed>
        requires there { IsThere (state self.old) device }
        ensures durable { tells → OnOk result (IsDurable (on (state self.new) device)) }
        ensures same { tells → (state self.new).bytes device ≡ (state self.old).bytes device }
        ensures moments { tells → Follows Same (on (state self.old) device) (on (state self.new) device) }
        ensures clock { tells → OnOk result (Raises (state self.old).clock (state self.new).clock) }
        ensures only { WorksOn tells (λ d. d ≡ device) (state self.old) (state self.new) }
        ensures cause { HasCause ((state self.old).faults device) ((state self.new).faults device) result };

    /// Gives the next byte of the script, or its end.
    fn hear(&mut self) -> Result<Heard, Failed>
        ensures heard { tells → IfOk result (λ heard. Hears (state self.old) (state self.new) heard) }
        ensures err { tells → OnErr result (HearsNothing (state self.old) (state self.new)) }
        ensures moments { tells → Listens (state self.old) (state self.new) }
        ensures clock { tells → OnOk result (Raises (state self.old).clock (state self.new).clock) }
        ensures only { WorksOnConsole tells (state self.old) (state self.new) }
        ensures cause { HasCause (state self.old).console_faults (state self.new).console_faults result };

    /// Says bytes. A call that fails, or that a crash stops, has said a front of them.
    fn say(&mut self, bytes: &[u8]) -> Result<(), Failed>
        ensures said { tells → OnOk result ((state self.new).said (state self.new).clock ≡ (state self.old).said (state self.old).clock ++ bytes.now) }
        ensures moments { tells → Says bytes.now (state self.old) (state self.new) }
        ensures clock { tells → OnOk result (Raises (state self.old).clock (state self.new).clock) }
        ensures only { WorksOnConsole tells (state self.old) (state self.new) }
        ensures cause { HasCause (state self.old).console_faults (state self.new).console_faults result };

    /// Hands out a volume, to be worked on by itself. Its count of faults goes on in it.
    fn lend(&mut self, device: u16) -> Self::Volume
        requires { IsThere (state self.old) (Volume device) }
        ensures tells { tells → Self.Volume.tells }
        ensures lent { Lends tells device (state self.old) (state self.new) (Self.Volume.state result) };

    /// Takes a volume back, which is the one that was lent.
    fn give_back(&mut self, device: u16, volume: Self::Volume)
        requires { IsLentOne tells device (state self.old) (Self.Volume.state volume) }
        ensures { TakesBack tells device (state self.old) (state self.new) (Self.Volume.state volume) };

    /// What a read gives is an image.
    ghost read_is_image: { (plant : Self) (d : Device) → tells → IsThere (state plant) d → (state plant).images (state plant).clock d ((state plant).bytes d) };

    /// At each moment up to now a crash leaves something on each device, also on a volume that is lent.
    ghost has_image: { (plant : Self) (d : Device) (t : ℕ) → tells → IsPart (state plant) d → t ≤ (state plant).clock → (c : List ℕ) × (state plant).images t d c };

    /// A device has a fixed length.
    ghost length_told: { (plant : Self) (d : Device) → tells → IsThere (state plant) d → length ((state plant).bytes d) ≡ (state plant).lengths d };
}

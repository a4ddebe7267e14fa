ghost use Rattle.std.specs.Prelude.{◌≡◌, ◌≤◌, ◌+◌, List, ℕ, length, slice_range, OnOk};
ghost use Rattle.crash_plant.specs.Bytes.{patched, Torn};
ghost use Rattle.crash_plant.specs.Moments.{Standing, SamePast, Follows, Same, IsDurable, Raises};
ghost use Rattle.xrc_edge.specs.Causes.{HasCause};

use xrc_edge::Failed;

/// One device of fixed length that is worked on by itself. It counts its faults.
pub trait Disk {
    /// The device and its past.
    ghost state: { Self → Standing };

    /// Whether bytes and moments are told.
    ghost tells: { Type 0 };

    /// How many bytes it has.
    fn length(&self) -> u64
        ensures { result ≡ (state self.now).length_is };

    /// Puts the bytes from a place on into a slice.
    fn read(&mut self, place: u64, into: &mut [u8]) -> Result<(), Failed>
        requires { place + length into.old ≤ (state self.old).length_is }
        ensures bytes { tells → OnOk result (into.new ≡ slice_range (state self.old).bytes place (place + length into.old)) }
        ensures same { tells → (state self.new).bytes ≡ (state self.old).bytes }
        ensures past { tells → SamePast (state self.old) (state self.new) }
        ensures moments { tells → Follows Same (state self.old) (state self.new) }
        ensures clock { tells → OnOk result (Raises (state self.old).clock (state self.new).clock) }
        ensures length { (state self.new).length_is ≡ (state self.old).length_is }
        ensures cause { HasCause (state self.old).faults (state self.new).faults result };

    /// Writes over what is there. Until a sync, a crash may leave any bytes in the range.
    fn write(&mut self, place: u64, bytes: &[u8]) -> Result<(), Failed>
        requires { place + length bytes.now ≤ (state self.old).length_is }
        ensures written { tells → OnOk result ((state self.new).bytes ≡ patched place bytes.now (state self.old).bytes) }
        ensures torn { tells → Torn place (length bytes.now) (state self.old).bytes (state self.new).bytes }
        ensures past { tells → SamePast (state self.old) (state self.new) }
        ensures moments { tells → Follows (Torn place (length bytes.now)) (state self.old) (state self.new) }
        ensures clock { tells → OnOk result (Raises (state self.old).clock (state self.new).clock) }
        ensures length { (state self.new).length_is ≡ (state self.old).length_is }
        ensures cause { HasCause (state self.old).faults (state self.new).faults result };

    /// After it, a crash leaves what a read gives.
    fn sync(&mut self) -> Result<(), Failed>
        ensures durable { tells → OnOk result (IsDurable (state self.new)) }
        ensures same { tells → (state self.new).bytes ≡ (state self.old).bytes }
        ensures past { tells → SamePast (state self.old) (state self.new) }
        ensures moments { tells → Follows Same (state self.old) (state self.new) }
        ensures clock { tells → OnOk result (Raises (state self.old).clock (state self.new).clock) }
        ensures length { (state self.new).length_is ≡ (state self.old).length_is }
        ensures cause { HasCause (state self.old).faults (state self.new).faults result };

    /// What a read gives is an image.
    ghost read_is_image: { (disk : Self) → tells → (state disk).images (state disk).clock (state disk).bytes };

    /// A device has a fixed length.
    ghost length_told: { (disk : Self) → tells → length (state disk).bytes ≡ (state disk).length_is };
}

ghost use Rattle.std.specs.Prelude.{◌≡◌, ℕ, List, Option, ◌<◌, length};
ghost use Rattle.xrc_edge.specs.Causes.{HasCause};
ghost use Rattle.xrc_edge.specs.Pulls.{Gives, FitsIn};

use crate::Failed;

/// A source of bytes that counts its faults. The count never falls, and ends at the largest number of 64 bits.
pub trait Source {
    // the bytes left, where told
    ghost left: { Self → Option (List ℕ) };

    ghost faults: { Self → ℕ };

    /// Puts the next bytes at the front of `into`, and says how many: none at the end alone, which is told again at each
    /// later pull. A pull fails only where it raised the count of faults; it then gives nothing. What stands in `into` after
    /// the bytes given is free.
    fn pull(&mut self, into: &mut [u8]) -> Result<usize, Failed>
        requires { 0 < length into.old }
        ensures room { FitsIn result (length into.old) }
        ensures same_room { length into.new ≡ length into.old }
        ensures bytes { Gives (left self.old) (left self.new) result into.new }
        ensures cause { HasCause (faults self.old) (faults self.new) result };
}

//! The parts of lines.

ghost use Rattle.std.specs.Prelude.{◌≡◌, ◌≤◌, ◌+◌, ◌++◌, ◌∷◌, length, decimal};

use itoa::Buffer;
use xrc_edge::Text;

/// Puts a space and a number in decimal digits after what stands in a line.
pub(crate) fn add_number(line: &mut Text, number: u64)
    requires { length line.old ≤ 200 }
    ensures text { line.new ≡ line.old ++ 32 ∷ decimal number }
    ensures short { length line.new ≤ length line.old + 41 }
{
    let mut digits = Buffer::new();
    line.add(b" ");
    line.add(digits.format(number).as_bytes());
}

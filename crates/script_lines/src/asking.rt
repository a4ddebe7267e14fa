ghost use Rattle.std.specs.Prelude.{◌≡◌, ◌≤◌, Some, IfSome, IsSome, length};
ghost use Rattle.xrc_command.specs.Lines.{IsLine};
ghost use Rattle.xrc_command.specs.Reading.{line_spelled};
ghost use Rattle.consistency.specs.Courses.{first_line};

use crate::line_text::LineText;
use xrc_command::{Line, read_line};

/// What a line asks that was heard, by what stands before its line feed; None exactly where this is no line of the grammar.
pub(crate) fn asked_line(text: &LineText) -> Option<Line>
    ensures spelled { result ≡ line_spelled (first_line text.now) }
    ensures read { IfSome result (λ line. IsLine line (first_line text.now)) }
    ensures every { (line : _) → IsLine line (first_line text.now) → result ≡ Some line }
    ensures short { IsSome result → length (first_line text.now) ≤ 70 }
{
    read_line(text.line())
}

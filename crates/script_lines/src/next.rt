ghost use Rattle.std.specs.Prelude.{◌≡◌, ◌≤◌, ◌-◌, [], IfOk, OnErr};
ghost use Rattle.xrc_edge.specs.Causes.{HasCause};
ghost use Rattle.crash_plant.specs.Calls.{WorksOnConsole};
ghost use Rattle.xrc_command.specs.Reading.{line_spelled};
ghost use Rattle.consistency.specs.Courses.{first_line, later_line};
ghost use Rattle.script_lines.specs.Hearing.{HearsText, KeepsHearing, SaysNothing};
ghost use Rattle.script_lines.specs.NextLines.{IsNextInRuns, IsNextLine, asked_next};
ghost use Rattle.script_lines.specs.Texts.{IsFront};

use crate::asking::asked_line;
use crate::hearing::hear_line;
use crate::line_end::LineEnd;
use crate::line_text::LineText;
use crash_plant::Plant;
use tod_stamp::Stamp;
use xrc_command::Line;
use xrc_edge::{Failed, MOST_LINES};

/// What comes next in a script.
#[derive(Clone, Copy, Debug, PartialEq, Eq)]
pub enum Next {
    /// A line whose time is not below that of the line before it.
    Line(Line),
    /// A line that is too long, is outside the grammar, falls in time, or is one too many.
    Bad,
    /// The script had ended.
    Nothing,
}

// What the line of this number asks that was heard whole, unless it is one too many or falls in time.
fn later_line(text: &LineText, number: u32, before: Stamp) -> Option<Line>
    requires { 1 ≤ number }
    ensures { result ≡ later_line (number - 1) before.0 (line_spelled (first_line text.now)) }
{
    let line = asked_line(text)?;
    if number <= MOST_LINES && before <= line.time {
        Some(line)
    } else {
        None
    }
}

/// Hears the line of this number, counted from 1, after a line of this time, as `hear_line` does, and tells what it asks. The time
/// before the first line is 0.
pub fn next_line<P: Plant>(
    plant: &mut P,
    text: &mut LineText,
    number: u32,
    before: Stamp,
) -> Result<Next, Failed>
    requires { 1 ≤ number }
    ensures heard { P.tells → HearsText text.new (P.state plant.old) (P.state plant.new) }
    ensures keeps { P.tells → (first : P) → KeepsHearing [] text.new (P.state first) (P.state plant.old) (P.state plant.new) }
    ensures next { IfOk result (IsNextLine P.tells number before.0 text.new (P.state plant.new).script) }
    ensures asked { P.tells → (first : P) → IfOk result (λ next. IsNextInRuns number before.0 text.new (asked_next next) (P.state first) (P.state plant.old)) }
    ensures failed { OnErr result (IsFront text.new) }
    ensures silent { P.tells → SaysNothing (P.state plant.old) (P.state plant.new) }
    ensures only { WorksOnConsole P.tells (P.state plant.old) (P.state plant.new) }
    ensures cause { HasCause (P.state plant.old).console_faults (P.state plant.new).console_faults result }
{
    match hear_line(plant, text)? {
        LineEnd::Whole => match later_line(text, number, before) {
            Some(line) => Ok(Next::Line(line)),
            None => Ok(Next::Bad),
        },
        LineEnd::TooLong => Ok(Next::Bad),
        LineEnd::Nothing => Ok(Next::Nothing),
    }
}

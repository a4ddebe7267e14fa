ghost use Rattle.std.specs.Prelude.{◌≡◌, ◌+◌, ◌++◌, [], false, length, None, Some, OnErr};
ghost use Rattle.xrc_edge.specs.Causes.{HasCause};
ghost use Rattle.crash_plant.specs.Calls.{WorksOnConsole};
ghost use Rattle.script_lines.specs.Hearing.{HearsText, KeepsHearing, SaysNothing};
ghost use Rattle.script_lines.specs.Texts.{IsFront, IsNothing, IsTooLong, IsWhole, bytes_of, end_after, has_feed};
ghost use Rattle.script_lines.specs.declared.line_end.LineEnd.TheVariants.{Nothing, TooLong, Whole};

use crate::line_end::LineEnd;
use crate::line_text::LineText;
use crash_plant::{Heard, Plant};
use xrc_edge::{Failed, LONGEST_TEXT};

// Puts what was heard next after the front of a line, and says how the line ended with it. None where it goes on.
fn put_heard(text: &mut LineText, heard: Heard) -> Option<LineEnd>
    requires { IsFront text.old }
    ensures text { text.new ≡ text.old ++ bytes_of heard }
    ensures end { result ≡ end_after text.old heard }
{
    match heard {
        Heard::Byte(byte) => {
            text.push(byte);
            (byte == b'\n').then_some(LineEnd::Whole)
        }
        Heard::End if text.is_empty() => Some(LineEnd::Nothing),
        Heard::End => Some(LineEnd::Whole),
    }
}

// Hears what is next after the front of a line, and says how the line ended with it. None where it goes on.
fn hear_next<P: Plant>(plant: &mut P, text: &mut LineText) -> Result<Option<LineEnd>, Failed>
    requires { IsFront text.old }
    ensures heard { P.tells → (began : P) → HearsText text.old (P.state began) (P.state plant.old) → HearsText text.new (P.state began) (P.state plant.new) }
    ensures keeps { P.tells → (first : P) → KeepsHearing text.old text.new (P.state first) (P.state plant.old) (P.state plant.new) }
    ensures longer { result ≡ Ok None → length text.new ≡ length text.old + 1 }
    ensures goes_on { result ≡ Ok None → has_feed text.new ≡ false }
    ensures whole { result ≡ Ok (Some Whole) → IsWhole P.tells text.new (P.state plant.new).script }
    ensures never_long { result ≡ Ok (Some TooLong) → ⊥ }
    ensures nothing { result ≡ Ok (Some Nothing) → IsNothing P.tells text.new (P.state plant.new).script }
    ensures failed { OnErr result (IsFront text.new) }
    ensures silent { P.tells → SaysNothing (P.state plant.old) (P.state plant.new) }
    ensures only { WorksOnConsole P.tells (P.state plant.old) (P.state plant.new) }
    ensures cause { HasCause (P.state plant.old).console_faults (P.state plant.new).console_faults result }
{
    let heard = plant.hear()?;
    Ok(put_heard(text, heard))
}

/// Hears the next line of the script into the text, from which all that stood there is gone: no byte after its line feed, and of a
/// line that is too long none after the first byte too many.
pub(crate) fn hear_line<P: Plant>(plant: &mut P, text: &mut LineText) -> Result<LineEnd, Failed>
    ensures heard { P.tells → HearsText text.new (P.state plant.old) (P.state plant.new) }
    ensures keeps { P.tells → (first : P) → KeepsHearing [] text.new (P.state first) (P.state plant.old) (P.state plant.new) }
    ensures whole { result ≡ Ok Whole → IsWhole P.tells text.new (P.state plant.new).script }
    ensures too_long { result ≡ Ok TooLong → IsTooLong text.new }
    ensures nothing { result ≡ Ok Nothing → IsNothing P.tells text.new (P.state plant.new).script }
    ensures failed { OnErr result (IsFront text.new) }
    ensures silent { P.tells → SaysNothing (P.state plant.old) (P.state plant.new) }
    ensures only { WorksOnConsole P.tells (P.state plant.old) (P.state plant.new) }
    ensures cause { HasCause (P.state plant.old).console_faults (P.state plant.new).console_faults result }
{
    text.clear();
    for _ in 0..LONGEST_TEXT {
        if let Some(end) = hear_next(plant, text)? {
            return Ok(end);
        }
    }
    Ok(LineEnd::TooLong)
}

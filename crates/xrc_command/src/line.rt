ghost use Rattle.std.specs.Prelude.{◌≡◌, ◌≤◌, length, None, Some, IfSome, IsSome, MatchOption};
ghost use Rattle.xrc_command.specs.Lines.{IsLine};
ghost use Rattle.xrc_command.specs.Reading.{line_spelled, time_at};

use crate::command::read_command;
use crate::parts::strip;
use pair_table::Command;
use tod_stamp::{Session, Stamp};

/// A command to a session at a time.
#[derive(Clone, Copy, Debug, PartialEq, Eq)]
pub struct Line {
    /// Not zero in a line that was read.
    pub time: Stamp,
    pub session: Session,
    /// A start that names no level has the level VOLUME.
    pub command: Command,
}

/// The line that the bytes spell, without its line feed; None exactly where the grammar does not hold.
pub fn read_line(bytes: &[u8]) -> Option<Line>
    ensures spelled { result ≡ line_spelled bytes.now }
    ensures read { IfSome result (λ line. IsLine line bytes.now) }
    ensures every { (line : _) → IsLine line bytes.now → result ≡ Some line }
    ensures short { IsSome result → length bytes.now ≤ 70 }
{
    let (time, text) = read_time(bytes)?;
    let (session, command) = read_command(text)?;
    Some(Line {
        time,
        session,
        command,
    })
}

// A time and the space after it, and what follows.
#[tactic(auto, unfolding(crate::specs::Reading::time_at))]
fn read_time(bytes: &[u8]) -> Option<(Stamp, &[u8])>
    ensures { MatchOption result (time_at bytes.now ≡ None) (λ read. time_at bytes.now ≡ Some (read.0, read.1.now)) }
{
    let (digits, rest) = bytes.split_at_checked(16)?;
    let text = strip(b" ", rest)?;
    match Stamp::read(digits) {
        Ok(time) if time.0 > 0 => Some((time, text)),
        _ => None,
    }
}

//! The numbers and the names of refusals.

ghost use Rattle.std.specs.Prelude.{◌≡◌, ◌≤◌, ◌+◌, ◌++◌, length};
ghost use Rattle.xquery_report.specs.Replies.{refusal_name, refusal_number, refusal_part, value_part};

use crate::lines::add_number;
use pair_table::Refusal;
use xrc_edge::Text;

fn number_of(refusal: Refusal) -> u64
    ensures { result ≡ refusal_number refusal }
{
    match refusal {
        Refusal::NoSession => 1,
        Refusal::SessionExists => 2,
        Refusal::NoPrimary => 3,
        Refusal::NoSecondary => 4,
        Refusal::SecondaryInUse => 5,
        Refusal::AlreadyPaired => 6,
        Refusal::TooSmall(_) => 7,
        Refusal::OtherSecondary => 8,
        Refusal::NotPaired => 9,
        Refusal::Ended => 10,
        Refusal::ControlBroken(_) => 11,
    }
}

fn name_of(refusal: Refusal) -> &'static [u8]
    ensures text { result.now ≡ refusal_name refusal }
    ensures short { length result.now ≤ 14 }
{
    match refusal {
        Refusal::NoSession => b"NOSESSION",
        Refusal::SessionExists => b"SESSIONEXISTS",
        Refusal::NoPrimary => b"NOPRIMARY",
        Refusal::NoSecondary => b"NOSECONDARY",
        Refusal::SecondaryInUse => b"SECONDARYINUSE",
        Refusal::AlreadyPaired => b"ALREADYPAIRED",
        Refusal::TooSmall(_) => b"TOOSMALL",
        Refusal::OtherSecondary => b"OTHERSECONDARY",
        Refusal::NotPaired => b"NOTPAIRED",
        Refusal::Ended => b"ENDED",
        Refusal::ControlBroken(_) => b"CONTROLBROKEN",
    }
}

/// Puts the value that a refusal says: the tracks of a primary, or the number of a controller.
fn add_value(line: &mut Text, refusal: Refusal)
    requires { length line.old ≤ 200 }
    ensures text { line.new ≡ line.old ++ value_part refusal }
    ensures short { length line.new ≤ length line.old + 41 }
{
    match refusal {
        Refusal::TooSmall(tracks) => add_number(line, u64::from(tracks)),
        Refusal::ControlBroken(control) => add_number(line, u64::from(control)),
        _ => {}
    }
}

/// Puts why a command is refused.
pub(crate) fn add_refusal(line: &mut Text, refusal: Refusal)
    requires { length line.old ≤ 60 }
    ensures text { line.new ≡ line.old ++ refusal_part refusal }
    ensures short { length line.new ≤ length line.old + 105 }
{
    line.add(b" REFUSED");
    add_number(line, number_of(refusal));
    line.add(b" ");
    line.add(name_of(refusal));
    add_value(line, refusal);
}

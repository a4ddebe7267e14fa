ghost use Rattle.std.specs.Prelude.{◌≡◌, None, Some, MatchOption};
ghost use Rattle.xrc_command.specs.Reading.{command_at, command_of as command_in, level_of as level_in, choice_of as choice_in, pair_then, pair_of as pair_in, pair_group, grouped_pair_of as grouped_pair_in, bare as bare_in};

use crate::parts::{read_serial, read_session, split_at, split_before_space, strip};
use pair_table::{Choice, Command, Level};
use tod_stamp::{Serial, Session};

/// The session and the command of a line's text after the time.
#[tactic(auto, unfolding(crate::specs::Reading::command_at))]
pub(crate) fn read_command(text: &[u8]) -> Option<(Session, Command)>
    ensures { result ≡ command_at text.now }
{
    let (word, rest) = split_at(b' ', text)?;
    let (name, operand) = split_before_space(rest);
    let session = read_session(name)?;
    let command = command_of(word, operand)?;
    Some((session, command))
}

// The operand is what follows the session, with the space before it.
#[tactic(auto, unfolding(crate::specs::Reading::command_of))]
fn command_of(word: &[u8], operand: &[u8]) -> Option<Command>
    ensures { result ≡ command_in word.now operand.now }
{
    if word == b"XSTART".as_slice() {
        level_of(operand).map(|level| Command::Start { level })
    } else if word == b"XADDPAIR".as_slice() {
        let ((primary, secondary), group) = grouped_pair_of(operand)?;
        Some(Command::AddPair {
            primary,
            secondary,
            group,
        })
    } else if word == b"XDELPAIR".as_slice() {
        choice_of(operand).map(Command::DelPair)
    } else if word == b"XSUSPEND".as_slice() {
        choice_of(operand).map(Command::Suspend)
    } else if word == b"XQUERY".as_slice() {
        bare(Command::Query, operand)
    } else if word == b"XEND".as_slice() {
        bare(Command::End, operand)
    } else {
        None
    }
}

fn bare(command: Command, operand: &[u8]) -> Option<Command>
    ensures { result ≡ bare_in command operand.now }
{
    if operand.is_empty() {
        Some(command)
    } else {
        None
    }
}

fn level_of(operand: &[u8]) -> Option<Level>
    ensures { result ≡ level_in operand.now }
{
    if operand.is_empty() || operand == b" ERRORLEVEL(VOLUME)".as_slice() {
        Some(Level::Volume)
    } else if operand == b" ERRORLEVEL(SESSION)".as_slice() {
        Some(Level::Session)
    } else if operand == b" ERRORLEVEL(GROUP)".as_slice() {
        Some(Level::Group)
    } else {
        None
    }
}

// ALL alone is no name: a comma follows the name of a primary.
fn choice_of(operand: &[u8]) -> Option<Choice>
    ensures { result ≡ choice_in operand.now }
{
    if operand == b" VOLUME(ALL)".as_slice() {
        return Some(Choice::All);
    }
    let (primary, secondary) = pair_of(operand)?;
    Some(Choice::One { primary, secondary })
}

// The names of a pair, and what follows them.
#[tactic(auto, unfolding(crate::specs::Reading::pair_then))]
fn pair_then(operand: &[u8]) -> Option<((Serial, Serial), &[u8])>
    ensures { MatchOption result (pair_then operand.now ≡ None) (λ read. pair_then operand.now ≡ Some (read.0, read.1.now)) }
{
    let names = strip(b" VOLUME(", operand)?;
    let (primary, rest) = split_at(b',', names)?;
    let (secondary, rest) = split_at(b')', rest)?;
    Some(((read_serial(primary)?, read_serial(secondary)?), rest))
}

fn pair_of(operand: &[u8]) -> Option<(Serial, Serial)>
    ensures { result ≡ pair_in operand.now }
{
    match pair_then(operand) {
        Some((pair, rest)) if rest.is_empty() => Some(pair),
        _ => None,
    }
}

// The group that follows a pair, or none if nothing does.
#[tactic(auto, unfolding(crate::specs::Reading::pair_group))]
fn group_of(rest: &[u8]) -> Option<Option<Serial>>
    ensures { result ≡ pair_group rest.now }
{
    if rest.is_empty() {
        return Some(None);
    }
    let names = strip(b" GROUP(", rest)?;
    let (name, rest) = split_at(b')', names)?;
    let group = read_serial(name)?;
    if rest.is_empty() {
        Some(Some(group))
    } else {
        None
    }
}

fn grouped_pair_of(operand: &[u8]) -> Option<((Serial, Serial), Option<Serial>)>
    ensures { result ≡ grouped_pair_in operand.now }
{
    let Some((pair, rest)) = pair_then(operand) else {
        return None;
    };
    let group = group_of(rest)?;
    Some((pair, group))
}

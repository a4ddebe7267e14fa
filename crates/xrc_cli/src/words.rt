//! The words of a command line.

ghost use Rattle.std.specs.Prelude.{◌≡◌, ◌≤◌, ◌-◌, map, string_bytes, Some, None, IfSome, if◌then◌else◌};
ghost use Rattle.xrc_edge.specs.declared.limits.TheConstants.{MOST_CONTROLS};
ghost use Rattle.tod_stamp.specs.Fields.{within};
ghost use Rattle.tod_stamp.specs.Names.{is_serial, is_session};
ghost use Rattle.xrc_cli.specs.Words.{HasRange, asked_by_words, asked_of_session, asked_of_three, asked_of_two, digits_value, from_to, has_leading_zero, number_in, storage_of};

use tod_stamp::{Serial, Session};
use xrc_edge::{MOST_CONTROLS, MOST_CYLINDERS, MOST_SITE_VOLUMES};

/// The greatest number of a volume device.
pub(crate) const LAST_DEVICE: u16 = MOST_SITE_VOLUMES as u16 - 1;

/// The greatest number of a generated input.
pub(crate) const MOST_NUMBER: u32 = u32::MAX;

/// What a command line needs to be opened.
#[derive(Clone, Copy, Debug, PartialEq, Eq)]
pub enum Wanted {
    /// No file: the words are no command line, or the command runs in memory.
    Nothing,
    /// The control, the state, the journals and the volumes.
    Devices,
    /// The devices and so many traces.
    Traces(u16),
}

/// What a command line asks for.
#[derive(Clone, Copy, Debug, PartialEq, Eq)]
pub(crate) enum Asked {
    /// `run SESSION STORAGE`: to run the script of a session over so many traces.
    Run(Session, u16),
    /// `recover SESSION`: to recover a session's site.
    Recover(Session),
    /// `advance SESSION`: to recover a session's site without new labels.
    Advance(Session),
    /// `copy SESSION SHIFT`: to copy a session's pairs to other volumes.
    Copy(Session, u16),
    /// `query SESSION`: to say the report of a session's site.
    Query(Session),
    /// `init DEVICE SERIAL CYLINDERS`: to label a volume.
    Init(u16, Serial, u32),
    /// `generate NUMBER`: to run the input of a number in memory.
    Generate(u32),
}

/// The value of a decimal digit.
fn digit_of(byte: u8) -> Option<u32>
    ensures value { result ≡ (if within 48 57 byte then Some (byte - 48) else None) }
    ensures small { IfSome result (λ digit. digit ≤ 9) }
{
    if byte.is_ascii_digit() {
        Some(u32::from(byte - b'0'))
    } else {
        None
    }
}

fn has_leading_zero(digits: &[u8]) -> bool
    ensures { result ≡ has_leading_zero digits.now }
{
    digits.len() > 1 && digits[0] == b'0'
}

/// What decimal digits are worth; None where a byte is no digit, or they are worth more than the most.
#[tactic(auto, using(std::proofs::lemmas::List::Sums::fold_more, std::proofs::lemmas::List::Folds::fold_stuck, crate::proofs::Numbers::passes, crate::proofs::Numbers::whole))]
fn value_of(digits: &[u8], most: u32) -> Option<u32>
    ensures value { result ≡ from_to 0 most (digits_value digits.now) }
    ensures small { IfSome result (λ n. n ≤ most) }
{
    let mut value = 0;
    for digit in digits {
        let next = 10 * u64::from(value) + u64::from(digit_of(*digit)?);
        if next > u64::from(most) {
            return None;
        }
        value = next as u32;
    }
    Some(value)
}

/// A number from the least to the most in decimal digits, without a leading zero but for the number 0 itself.
#[tactic(auto, using(crate::proofs::Numbers::none_of_empty, crate::proofs::Numbers::none_of_zero, crate::proofs::Numbers::of_digits, crate::proofs::Numbers::too_small, crate::proofs::Numbers::no_value, crate::proofs::Numbers::in_range))]
fn number_in(least: u32, most: u32, word: &str) -> Option<u32>
    ensures value { result ≡ number_in least most word.now }
    ensures range { IfSome result (λ n. (least ≤ n) × (n ≤ most)) }
{
    let digits = word.as_bytes();
    if digits.is_empty() || has_leading_zero(digits) {
        return None;
    }
    let number = value_of(digits, most)?;
    if number < least { None } else { Some(number) }
}

/// The same as a number of 16 bits.
fn short_number(least: u16, most: u16, word: &str) -> Option<u16>
    ensures value { result ≡ number_in least most word.now }
    ensures range { IfSome result (λ n. (least ≤ n) × (n ≤ most)) }
{
    let number = number_in(u32::from(least), u32::from(most), word)?;
    Some(number as u16)
}

/// The number of traces that a word names: 1 to 16.
fn storage_of(word: &str) -> Option<u16>
    ensures value { result ≡ storage_of word.now }
    ensures range { IfSome result (λ n. (1 ≤ n) × (n ≤ MOST_CONTROLS)) }
{
    short_number(1, MOST_CONTROLS as u16, word)
}

fn session_of(word: &str) -> Option<Session>
    ensures { result ≡ (if is_session word.now then Some word.now else None) }
{
    Session::read(word.as_bytes()).ok()
}

fn serial_of(word: &str) -> Option<Serial>
    ensures { result ≡ (if is_serial word.now then Some word.now else None) }
{
    Serial::read(word.as_bytes()).ok()
}

/// What a command asks for that takes a session alone.
fn asked_of_session(command: &str, session: Session) -> Option<Asked>
    ensures asked { result ≡ asked_of_session command.now session }
    ensures range { IfSome result (λ asked. HasRange asked) }
{
    match command {
        "recover" => Some(Asked::Recover(session)),
        "advance" => Some(Asked::Advance(session)),
        "query" => Some(Asked::Query(session)),
        _ => None,
    }
}

fn asked_of_two(command: &str, operand: &str) -> Option<Asked>
    ensures asked { result ≡ asked_of_two command.now operand.now }
    ensures range { IfSome result (λ asked. HasRange asked) }
{
    if command == "generate" {
        return Some(Asked::Generate(number_in(0, MOST_NUMBER, operand)?));
    }
    asked_of_session(command, session_of(operand)?)
}

fn asked_of_three(command: &str, session: &str, number: &str) -> Option<Asked>
    ensures asked { result ≡ asked_of_three command.now session.now number.now }
    ensures range { IfSome result (λ asked. HasRange asked) }
{
    if command == "run" {
        let storage = storage_of(number)?;
        return Some(Asked::Run(session_of(session)?, storage));
    }
    if command == "copy" {
        let shift = short_number(1, LAST_DEVICE, number)?;
        return Some(Asked::Copy(session_of(session)?, shift));
    }
    None
}

/// What the words ask for, which come without the program's name; None exactly where they are no command line.
pub(crate) fn asked_in(words: &[String]) -> Option<Asked>
    ensures asked { result ≡ asked_by_words (map string_bytes words.now) }
    ensures range { IfSome result (λ asked. HasRange asked) }
{
    match words {
        [command, operand] => asked_of_two(command.as_str(), operand.as_str()),
        [command, session, number] => {
            asked_of_three(command.as_str(), session.as_str(), number.as_str())
        }
        [command, device, serial, cylinders] if command.as_str() == "init" => {
            let device = short_number(0, LAST_DEVICE, device.as_str())?;
            let cylinders = number_in(1, MOST_CYLINDERS, cylinders.as_str())?;
            Some(Asked::Init(device, serial_of(serial.as_str())?, cylinders))
        }
        _ => None,
    }
}

ghost use Rattle.std.specs.Prelude.{◌≡◌, ◌==◌, None, Some, MatchOption, take, drop};
ghost use Rattle.std.specs.List.{position, position_or_len};
ghost use Rattle.xrc_command.specs.Reading.{text_at, split_at as split_rest_at, before_space, from_space, serial_of, session_of};

use tod_stamp::{Serial, Session};

/// What follows the expected text.
#[tactic(auto, unfolding(crate::specs::Reading::text_at))]
pub(crate) fn strip<'a>(expected: &[u8], text: &'a [u8]) -> Option<&'a [u8]>
    ensures { MatchOption result (text_at expected.now text.now ≡ None) (λ rest. text_at expected.now text.now ≡ Some rest.now) }
{
    text.strip_prefix(expected)
}

/// What stands before the first byte `end`, and what follows that byte.
#[tactic(auto, unfolding(crate::specs::Reading::split_at))]
pub(crate) fn split_at(end: u8, text: &[u8]) -> Option<(&[u8], &[u8])>
    ensures { MatchOption result (split_rest_at end text.now ≡ None) (λ read. split_rest_at end text.now ≡ Some (read.0.now, read.1.now)) }
{
    let place = find_byte(end, text)?;
    Some((&text[..place], &text[place + 1..]))
}

/// What stands before the first space, and the rest with that space. With no space the rest is empty.
#[tactic(auto, unfolding(crate::specs::Reading::before_space, crate::specs::Reading::from_space))]
pub(crate) fn split_before_space(text: &[u8]) -> (&[u8], &[u8])
    ensures before { result.0.now ≡ before_space text.now }
    ensures from { result.1.now ≡ from_space text.now }
{
    let end = find_byte(b' ', text).unwrap_or(text.len());
    text.split_at(end)
}

fn find_byte(wanted: u8, text: &[u8]) -> Option<usize>
    ensures { result ≡ position (λ byte. byte == wanted) text.now }
{
    text.iter().position(|byte| *byte == wanted)
}

#[tactic(auto, unfolding(crate::specs::Reading::serial_of))]
pub(crate) fn read_serial(name: &[u8]) -> Option<Serial>
    ensures { result ≡ serial_of name.now }
{
    Serial::read(name).ok()
}

#[tactic(auto, unfolding(crate::specs::Reading::session_of))]
pub(crate) fn read_session(name: &[u8]) -> Option<Session>
    ensures { result ≡ session_of name.now }
{
    Session::read(name).ok()
}

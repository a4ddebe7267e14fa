//! What a status line says after its status.

/// The words after the status.
#[derive(Clone, Copy)]
pub(crate) struct Details<'a> {
    pub(crate) first: Option<&'a str>,
    pub(crate) second: Option<&'a str>,
    pub(crate) third: Option<&'a str>,
}

const NONE: Details<'static> = Details {
    first: None,
    second: None,
    third: None,
};

/// Those of the line that was said last, if it is the whole line of that status; else none.
pub(crate) fn details_of(status: u8, line: &[u8]) -> Details<'_> {
    let Some(words) = words_of(status, line) else {
        return NONE;
    };
    let mut words = words.split_whitespace();
    Details {
        first: words.next(),
        second: words.next(),
        third: words.next(),
    }
}

/// What stands after the status. A line without its line feed was cut, perhaps within a number.
fn words_of(status: u8, line: &[u8]) -> Option<&str> {
    let text = str::from_utf8(line).ok()?.strip_suffix("\n")?;
    let words = text.strip_prefix("STATUS ")?;
    let (number, rest) = words.split_once(' ').unwrap_or((words, ""));
    if number.parse::<u8>() == Ok(status) {
        Some(rest)
    } else {
        None
    }
}

//! The sentences of the statuses.

use crate::commands::COMMANDS;
use crate::sentence::{Part, Sentence};
use crate::status_line::Details;

fn numbered<'a>(before: &'static str, value: Option<&'a str>, otherwise: &'static str) -> Part<'a> {
    Part {
        before,
        value,
        otherwise,
    }
}

/// The device that the details name, as its file is called, and what follows it in them.
fn device_in<'a>(details: Details<'a>) -> (Part<'a>, Option<&'a str>) {
    let Details {
        first: name,
        second: first,
        third: second,
    } = details;
    match name {
        Some("CONTROL") => (Part::plain("control"), first),
        Some("STATE") => (Part::plain("state"), first),
        Some("JOURNAL") => (numbered("journal.", first, "a journal"), second),
        Some("VOLUME") => (numbered("volume.", first, "a volume"), second),
        _ => (Part::plain("a device"), None),
    }
}

fn plain<'a>(happened: &'static str, advice: &'static str) -> Sentence<'a> {
    Sentence {
        subject: Part::plain(""),
        happened,
        more: Part::plain(""),
        advice,
    }
}

fn about<'a>(subject: Part<'a>, happened: &'static str, advice: &'static str) -> Sentence<'a> {
    Sentence {
        subject,
        happened,
        more: Part::plain(""),
        advice,
    }
}

/// The sentence of a status other than 0, with what its line says after it.
pub(crate) fn sentence_of<'a>(status: u8, details: Details<'a>) -> Sentence<'a> {
    let valued = match with_numbers(status, details) {
        None => with_device(status, details),
        found => found,
    };
    valued.unwrap_or(without_values(status))
}

/// The sentences whose line has numbers or a name alone.
fn with_numbers<'a>(status: u8, details: Details<'a>) -> Option<Sentence<'a>> {
    let Details { first, second, .. } = details;
    let trace = numbered("trace ", first, "a trace");
    let sentence = match status {
        4 => about(
            numbered("line ", first, "a line"),
            " of the script breaks a rule",
            "recover, mend the line and start anew",
        ),
        5 => about(
            numbered("journal.", first, "a journal"),
            " failed",
            "mend its device and recover",
        ),
        8 => Sentence {
            subject: trace,
            happened: " breaks a rule",
            more: numbered(" at byte ", second, " of its header"),
            advice: "mend the trace and run again",
        },
        9 => about(
            trace,
            " failed within its header",
            "mend its device and run again",
        ),
        11 => about(
            numbered("session ", first, "another session"),
            " stands on these devices",
            "name that session, or look for the right folder",
        ),
        _ => return None,
    };
    Some(sentence)
}

/// The sentences whose line has a device and a number.
fn with_device<'a>(status: u8, details: Details<'a>) -> Option<Sentence<'a>> {
    let (device, number) = device_in(details);
    let sentence = match status {
        12 => Sentence {
            subject: device,
            happened: " breaks a rule",
            more: numbered(" at byte ", number, ""),
            advice: "it is not as the program left it, so bring the right one back",
        },
        14 => Sentence {
            subject: device,
            happened: " has too few bytes",
            more: numbered(", and needs ", number, ""),
            advice: "lengthen it, as truncate -s does, and give the command again",
        },
        26 => about(
            device,
            " has no volume to be copied to",
            "label a volume of at least its cylinders whose number is greater by SHIFT and that no pair has",
        ),
        _ => return None,
    };
    Some(sentence)
}

/// The sentences whose line has a status alone.
fn without_values<'a>(status: u8) -> Sentence<'a> {
    match status {
        1 => plain(
            "there is not enough memory",
            "give the program more, and recover if the session had started",
        ),
        2 => plain("these words are no command line", COMMANDS),
        3 => plain(
            "standard input or output failed",
            "what was said holds, so mend it and recover",
        ),
        6 => plain("control failed", "mend its device and recover"),
        7 => plain("state failed", "mend its device and recover"),
        10 => plain(
            "no session has begun on these devices",
            "look for the right folder",
        ),
        13 => plain(
            "a volume failed",
            "mend its device and give the command again",
        ),
        16 => plain(
            "the folder has too few or too many journals or volumes",
            "add or remove files until there are 2 to 16 journals and 1 to 64 volumes",
        ),
        24 => plain(
            "the numbers of records are used up",
            "recover and start a new session",
        ),
        _ => plain(
            "the command was not done",
            "look its status up in the list of statuses",
        ),
    }
}

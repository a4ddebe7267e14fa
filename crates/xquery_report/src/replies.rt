//! The replies to commands.

ghost use Rattle.std.specs.Prelude.{◌≡◌, ◌≤◌, ◌+◌, ◌++◌, length, OnOk, OnErr};
ghost use Rattle.xquery_report.specs.Replies.{answer_part, command_part, reply_line, said_part, tracks_part};

use crate::lines::add_number;
use crate::refusals::add_refusal;
use pair_table::{Change, Command, Refusal};
use std::alloc::Global;
use tod_stamp::Stamp;
use xrc_edge::{Bytes, NoMemory, Text};

fn command_part(command: &Command) -> &'static [u8]
    ensures text { result.now ≡ command_part command.now }
    ensures short { length result.now ≤ 9 }
{
    match command {
        Command::Start { .. } => b" XSTART",
        Command::AddPair { .. } => b" XADDPAIR",
        Command::DelPair(_) => b" XDELPAIR",
        Command::Suspend(_) => b" XSUSPEND",
        Command::Query => b" XQUERY",
        Command::End => b" XEND",
    }
}

/// Puts how many tracks are to be copied, where a command adds a pair.
fn add_tracks(line: &mut Text, command: &Command, tracks: u32)
    requires { length line.old ≤ 100 }
    ensures text { line.new ≡ line.old ++ tracks_part command.now tracks }
    ensures short { length line.new ≤ length line.old + 48 }
{
    if let Command::AddPair { .. } = command {
        line.add(b" TRACKS");
        add_number(line, u64::from(tracks));
    }
}

/// Puts whether a command was done, and with it how many tracks are to be copied, or why it was refused.
fn add_answer(line: &mut Text, command: &Command, answer: &Result<Change, Refusal>, tracks: u32)
    requires { length line.old ≤ 60 }
    ensures text { line.new ≡ line.old ++ answer_part command.now answer.now tracks }
    ensures short { length line.new ≤ length line.old + 105 }
{
    match answer {
        Ok(_) => {
            line.add(b" OK");
            add_tracks(line, command, tracks);
        }
        Err(refusal) => add_refusal(line, *refusal),
    }
}

/// Puts the session's time.
fn add_said(line: &mut Text, said: Option<Stamp>)
    requires { length line.old ≤ 200 }
    ensures text { line.new ≡ line.old ++ said_part said }
    ensures short { length line.new ≤ length line.old + 19 }
{
    if let Some(time) = said {
        line.add(b" T=");
        line.add(&time.text());
    }
}

fn reply_line(
    time: Stamp,
    command: &Command,
    answer: &Result<Change, Refusal>,
    tracks: u32,
    said: Option<Stamp>,
) -> Text
    ensures { result ≡ reply_line time.0 command.now answer.now tracks said }
{
    let mut line = Text::make();
    line.add(&time.text());
    line.add(command_part(command));
    add_answer(&mut line, command, answer, tracks);
    add_said(&mut line, said);
    line.add(b"\n");
    line
}

/// Puts the reply to a command after the bytes of `out`. `time` is the time of the command's line. `tracks` counts the tracks that
/// an added pair has to copy, and stands in no other reply. `said` is the session's time: None before the session is started.
pub fn reply(
    alloc: Global,
    time: Stamp,
    command: &Command,
    answer: &Result<Change, Refusal>,
    tracks: u32,
    said: Option<Stamp>,
    out: &mut Bytes,
) -> Result<(), NoMemory>
    ensures ok { OnOk result (out.new ≡ out.old ++ reply_line time.0 command.now answer.now tracks said) }
    ensures err { OnErr result (out.new ≡ out.old) }
{
    out.extend_from_slice(
        alloc,
        reply_line(time, command, answer, tracks, said).as_bytes(),
    )
}

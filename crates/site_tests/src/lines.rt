//! Lines of commands in forms that no run takes, texts that are none, and last lines that no run says.

use crate::fixtures::{assert_same, serial, session};
use crash_plant::Device;
use pair_table::{Choice, Command, Level};
use std::alloc::Global;
use std::process::Abort;
use test_fixtures::{fail_at, failing, zeros};
use tod_stamp::{Session, Stamp};
use xrc_command::{Line, read_line};
use xrc_edge::Failed;
use xrc_status::{Stop, say_stop, say_text};

/// The choice of one pair.
fn one(rt: &impl Abort, primary: &[u8], secondary: &[u8]) -> Choice {
    Choice::One {
        primary: serial(rt, primary),
        secondary: serial(rt, secondary),
    }
}

/// This command of ABC is read where its text stands after the time AB.
fn assert_read(rt: &impl Abort, text: &[u8], command: Command) {
    let line = Line {
        time: Stamp(0xAB),
        session: session(rt),
        command,
    };
    assert_same(rt, &read_line(text), &Some(line), &text);
}

/// The command that starts a session.
fn start(level: Level) -> Command {
    Command::Start { level }
}

/// The command that adds the pair of PRIM01 and a secondary of other characters.
fn add_pair(rt: &impl Abort) -> Command {
    let primary = serial(rt, b"PRIM01");
    let secondary = serial(rt, b"@#$9");
    Command::AddPair {
        primary,
        secondary,
        group: None,
    }
}

/// The same in the group DB1.
fn add_grouped(rt: &impl Abort) -> Command {
    let primary = serial(rt, b"PRIM01");
    let secondary = serial(rt, b"@#$9");
    let group = Some(serial(rt, b"DB1"));
    Command::AddPair {
        primary,
        secondary,
        group,
    }
}

#[test]
fn every_form_is_read(rt: HostRuntime) {
    let rows: [(&[u8], Command); 13] = [
        (b"00000000000000aB XSTART ABC", start(Level::Volume)),
        (
            b"00000000000000AB XSTART ABC ERRORLEVEL(VOLUME)",
            start(Level::Volume),
        ),
        (
            b"00000000000000ab XSTART ABC ERRORLEVEL(SESSION)",
            start(Level::Session),
        ),
        (
            b"00000000000000ab XSTART ABC ERRORLEVEL(GROUP)",
            start(Level::Group),
        ),
        (
            b"00000000000000Ab XADDPAIR ABC VOLUME(PRIM01,@#$9)",
            add_pair(&rt),
        ),
        (
            b"00000000000000Ab XADDPAIR ABC VOLUME(PRIM01,@#$9) GROUP(DB1)",
            add_grouped(&rt),
        ),
        (
            b"00000000000000aB XDELPAIR ABC VOLUME(PRIM01,SEC001)",
            Command::DelPair(one(&rt, b"PRIM01", b"SEC001")),
        ),
        (
            b"00000000000000aB XDELPAIR ABC VOLUME(ALL,X)",
            Command::DelPair(one(&rt, b"ALL", b"X")),
        ),
        (
            b"00000000000000aB XDELPAIR ABC VOLUME(ALL)",
            Command::DelPair(Choice::All),
        ),
        (
            b"00000000000000aB XSUSPEND ABC VOLUME(P,ALL)",
            Command::Suspend(one(&rt, b"P", b"ALL")),
        ),
        (
            b"00000000000000aB XSUSPEND ABC VOLUME(ALL)",
            Command::Suspend(Choice::All),
        ),
        (b"00000000000000aB XQUERY ABC", Command::Query),
        (b"00000000000000aB XEND ABC", Command::End),
    ];
    for (text, command) in rows {
        assert_read(&rt, text, command);
    }
}

#[test]
fn the_longest_line_has_70_bytes(rt: HostRuntime) {
    let bytes =
        b"FFFFFFFFFFFFFFFF XADDPAIR SESSION1 VOLUME(PRIM01,SEC001) GROUP(GROUP1)".as_slice();
    let line = Line {
        time: Stamp(u64::MAX),
        session: Session::read(b"SESSION1").expect(&rt, "a name"),
        command: Command::AddPair {
            primary: serial(&rt, b"PRIM01"),
            secondary: serial(&rt, b"SEC001"),
            group: Some(serial(&rt, b"GROUP1")),
        },
    };
    let found = (bytes.len(), read_line(bytes));
    assert_same(&rt, &found, &(70, Some(line)), &"the longest");
}

const OTHERS: [&[u8]; 14] = [
    &[b'0'; 257],
    b"0000000000000050 XEND ABC\n",
    b"0000000000000050 XSTOP ABC",
    b"0000000000000050 XQUERY ABC VOLUME(ALL)",
    b"0000000000000050 XSTART ABC ERRORLEVEL(X)",
    b"0000000000000050 XSTART ABC ERRORLEVEL(SESSION",
    b"0000000000000050 XDELPAIR ABC VOLUME(ALL",
    b"0000000000000050 XSUSPEND ABC VOLUME(PRIM01,)",
    b"0000000000000050 XSUSPEND ABC VOLUME(PRIM01,SEC001) GROUP(DB1)",
    b"0000000000000050 XADDPAIR ABC VOLUME(PRIM01,SEC001) GROUP()",
    b"0000000000000050 XADDPAIR ABC VOLUME(PRIM01,SEC001) GROUP(TOOLONG)",
    b"0000000000000050 XADDPAIR ABC VOLUME(PRIM01,SEC001)  GROUP(DB1)",
    b"0000000000000050 XADDPAIR ABC VOLUME(PRIM01,SEC001) GROUP(DB1",
    b"0000000000000050 XADDPAIR ABC VOLUME(PRIM01,SEC001) GROUP(DB1) ",
];

#[test]
fn other_texts_are_refused(rt: HostRuntime) {
    for bytes in &OTHERS {
        assert_same(&rt, &read_line(bytes), &None, bytes);
    }
}

/// A stop ends with its status, and says this line.
fn assert_stop(rt: &impl Abort, alloc: Global, stop: Stop, status: u8, line: &[u8]) {
    let mut plant = zeros(alloc, (0, 0), (0, 0), b"").expect(rt, "memory");
    let ended = say_stop(&mut plant, stop);
    assert_same(rt, &(ended, plant.said()), &(status, line), &stop);
}

#[test]
fn stops_say_their_last_line(rt: HostRuntime) {
    let alloc = rt.alloc();
    assert_stop(&rt, alloc, Stop::NoMemory, 1, b"STATUS 1\n");
    assert_stop(&rt, alloc, Stop::BadLine(100_001), 4, b"STATUS 4 100001\n");
    assert_stop(&rt, alloc, Stop::Spent, 24, b"STATUS 24\n");
    let control = Stop::Damaged(Device::Control, 1023);
    assert_stop(&rt, alloc, control, 12, b"STATUS 12 CONTROL 1023\n");
}

#[test]
fn a_text_is_said_in_part_if_the_console_fails(rt: HostRuntime) {
    let alloc = rt.alloc();
    let plain = zeros(alloc, (0, 0), (0, 0), b"").expect(&rt, "memory");
    let failed = failing(alloc, plain, &[fail_at(None, 0, false)]);
    let mut plant = failed.expect(&rt, "memory");
    for (outcome, said) in [(Err(Failed), b"ab".as_slice()), (Ok(()), b"ababcd")] {
        let text = say_text(&mut plant, b"abcd");
        assert_same(&rt, &(text, plant.said()), &(outcome, said), &"said");
    }
}

//! What comes next in a script: a line, a bad one, or nothing.

ghost use Rattle.std.specs.Prelude.{◌≤◌};

use crate::fixtures::{assert_same, session};
use pair_table::Command;
use script_lines::{LineText, Next, next_line};
use std::alloc::Global;
use std::process::Abort;
use test_fixtures::zeros;
use tod_stamp::Stamp;
use xrc_command::Line;

/// The line of this number, after one at 50, is heard as this.
fn assert_next(rt: &impl Abort, alloc: Global, number: u32, script: &[u8], next: Next)
    requires { 1 ≤ number }
{
    let mut plant = zeros(alloc, (0, 0), (0, 0), script).expect(rt, "memory");
    let heard = next_line(&mut plant, &mut LineText::make(), number, Stamp(0x50));
    assert_same(rt, &heard, &Ok(next), &script);
}

/// A query of ABC at 50.
fn query(rt: &impl Abort) -> Next {
    Next::Line(Line {
        time: Stamp(0x50),
        session: session(rt),
        command: Command::Query,
    })
}

#[test]
fn lines_are_heard(rt: HostRuntime) {
    let alloc = rt.alloc();
    let line = b"0000000000000050 XQUERY ABC\n".as_slice();
    assert_next(&rt, alloc, 1, line, query(&rt));
    assert_next(&rt, alloc, 100_000, line, query(&rt));
    assert_next(&rt, alloc, 2, b"0000000000000050 XQUERY ABC", query(&rt));
    assert_next(&rt, alloc, 2, b"", Next::Nothing);
}

#[test]
fn other_lines_are_bad(rt: HostRuntime) {
    let alloc = rt.alloc();
    let falls = b"000000000000004F XQUERY ABC\n";
    assert_next(&rt, alloc, 2, falls, Next::Bad);
    let later = b"0000000000000051 XQUERY ABC\n";
    assert_next(&rt, alloc, 100_001, later, Next::Bad);
    assert_next(&rt, alloc, 2, b"0000000000000051 XSTOP ABC\n", Next::Bad);
    assert_next(&rt, alloc, 2, b"\n", Next::Bad);
    assert_next(&rt, alloc, 2, &[b'0'; 257], Next::Bad);
}

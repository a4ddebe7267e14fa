//! The first line that is refused, and why.

use trace_lines::{Cause, Refusal, Unwritten, trace_of_text};

#[test]
fn lines_are_refused_by_their_number(rt: HostRuntime) {
    let table = [
        ("", 1, Cause::Order),
        ("# a remark\n\n", 3, Cause::Order),
        ("idle 0000000000000064\n", 1, Cause::Order),
        ("version 2\n", 2, Cause::Order),
        ("version\n", 1, Cause::Grammar),
        ("version 0\n", 1, Cause::Rule),
        ("version 3\n", 1, Cause::Rule),
        ("version 256\n", 1, Cause::Grammar),
        ("version 1\nvolume PRIM01 65521\n", 2, Cause::Rule),
        ("version 2\nvolume PRIM01 1000001\n", 2, Cause::Rule),
        ("volume PRIM01 1\nversion 1\n", 2, Cause::Order),
        ("version 2\nvolume PRIM01 1\nversion 2\n", 3, Cause::Order),
        (
            "version 2\nvolume PRIM01 65521\nbase 0 982815\n",
            3,
            Cause::Rule,
        ),
        ("base 0 3\n", 1, Cause::Rule),
        ("volume PRIM01\n", 1, Cause::Grammar),
        ("volume prim01 1\n", 1, Cause::Grammar),
        ("volume PRIM01 0\n", 1, Cause::Rule),
        ("volume PRIM01 65521\n", 1, Cause::Rule),
        ("volume PRIM01 65536\n", 1, Cause::Rule),
        ("volume PRIM01 4294967296\n", 1, Cause::Grammar),
        ("volume PRIM01 1 1\n", 1, Cause::Grammar),
        ("volume PRIM01 1\nvolume PRIM01 1\n", 2, Cause::Rule),
        (
            "volume PRIM01 1\nbase 0 3\nvolume PRIM02 1\n",
            3,
            Cause::Order,
        ),
        ("volume PRIM01 1\nbase 0 3\nbase 0 3\n", 3, Cause::Rule),
        ("volume PRIM01 1\nbase 0 15\n", 2, Cause::Rule),
        ("volume PRIM01 1\nbase 0 3 2::41 1::41\n", 2, Cause::Grammar),
        ("volume PRIM01 1\nidle 64\n", 2, Cause::Grammar),
        ("volume PRIM01 1\nidle 0000000000000000\n", 2, Cause::Rule),
        (
            "volume PRIM01 1\nidle 0000000000000064\nidle 0000000000000063\n",
            3,
            Cause::Rule,
        ),
        (
            "volume PRIM01 1\nidle 0000000000000064\nbase 0 3\n",
            3,
            Cause::Order,
        ),
        (
            "volume PRIM01 1\nwrite 0000000000000064 1 3\n",
            2,
            Cause::Rule,
        ),
        (
            "volume PRIM01 1\nwrite 0000000000000064 0 15\n",
            2,
            Cause::Rule,
        ),
        (
            "volume PRIM01 1\nwrite 0000000000000064 0 3 1::4\n",
            2,
            Cause::Grammar,
        ),
        (
            "volume PRIM01 1\nwrite 0000000000000064 0 3 1::\"A\n",
            2,
            Cause::Grammar,
        ),
        (
            "volume PRIM01 1\nwrite 0000000000000064 0 3 0::41\n",
            2,
            Cause::Grammar,
        ),
        (
            "volume PRIM01 1\nformat 0000000000000064 0 3 2 2::41\n",
            2,
            Cause::Rule,
        ),
        (
            "volume PRIM01 1\nupdate 0000000000000064 0 3 0 41\n",
            2,
            Cause::Rule,
        ),
        (
            "volume PRIM01 1\nupdate 0000000000000064 0 3 256 41\n",
            2,
            Cause::Grammar,
        ),
        (
            "volume PRIM01 1\nerase 0000000000000064 0 3\n",
            2,
            Cause::Grammar,
        ),
    ];
    for (text, line, cause) in table {
        let written = trace_of_text(rt.alloc(), text.as_bytes());
        let refused = Unwritten::Refused(Refusal { line, cause });
        assert!(rt; written.err() == Some(refused), "{text}");
    }
}

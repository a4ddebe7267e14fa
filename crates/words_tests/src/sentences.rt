//! The sentence of each status.

use status_words::Sentence;
use std::process::Abort;

/// What is told at a status, where this was said last.
fn is_told(rt: &(impl Abort + AllocGlobal), status: u8, said: &str, wanted: &str) {
    let sentence = Sentence::of(status, said.as_bytes()).expect(rt, "a sentence");
    let text = format!(in rt.alloc(); "{sentence}").expect(rt, "memory");
    assert!(rt; text.as_str() == wanted, "{status}: {text}");
}

#[test]
fn each_status_has_its_sentence(rt: HostRuntime) {
    let table = [
        (
            1,
            "STATUS 1\n",
            "there is not enough memory: give the program more, and recover if the session had started",
        ),
        (
            3,
            "",
            "standard input or output failed: what was said holds, so mend it and recover",
        ),
        (
            4,
            "STATUS 4 7\n",
            "line 7 of the script breaks a rule: recover, mend the line and start anew",
        ),
        (
            5,
            "STATUS 5 0\n",
            "journal.0 failed: mend its device and recover",
        ),
        (
            6,
            "STATUS 6\n",
            "control failed: mend its device and recover",
        ),
        (7, "STATUS 7\n", "state failed: mend its device and recover"),
        (
            8,
            "STATUS 8 1 41\n",
            "trace 1 breaks a rule at byte 41: mend the trace and run again",
        ),
        (
            9,
            "STATUS 9 15\n",
            "trace 15 failed within its header: mend its device and run again",
        ),
        (
            10,
            "STATUS 10\n",
            "no session has begun on these devices: look for the right folder",
        ),
        (
            11,
            "STATUS 11 ABC\n",
            "session ABC stands on these devices: name that session, or look for the right folder",
        ),
        (
            12,
            "STATUS 12 JOURNAL 0 22\n",
            "journal.0 breaks a rule at byte 22: it is not as the program left it, so bring the right one back",
        ),
        (
            12,
            "STATUS 12 STATE 5\n",
            "state breaks a rule at byte 5: it is not as the program left it, so bring the right one back",
        ),
        (
            13,
            "STATUS 13\n",
            "a volume failed: mend its device and give the command again",
        ),
        (
            14,
            "STATUS 14 CONTROL 1024\n",
            "control has too few bytes, and needs 1024: lengthen it, as truncate -s does, and give the command again",
        ),
        (
            14,
            "STATUS 14 VOLUME 63 860672\n",
            "volume.63 has too few bytes, and needs 860672: lengthen it, as truncate -s does, and give the command again",
        ),
        (
            16,
            "STATUS 16\n",
            "the folder has too few or too many journals or volumes: add or remove files until there are 2 to 16 journals and 1 to 64 volumes",
        ),
        (
            24,
            "STATUS 24\n",
            "the numbers of records are used up: recover and start a new session",
        ),
        (
            26,
            "STATUS 26 VOLUME 0\n",
            "volume.0 has no volume to be copied to: label a volume of at least its cylinders whose number is greater by SHIFT and that no pair has",
        ),
        (
            200,
            "STATUS 200\n",
            "the command was not done: look its status up in the list of statuses",
        ),
    ];
    for (status, said, wanted) in table {
        is_told(&rt, status, said, wanted);
    }
    assert!(rt; Sentence::of(0, b"STATUS 0\n").is_none());
}

#[test]
fn other_words_are_told_the_commands(rt: HostRuntime) {
    is_told(
        &rt,
        2,
        "STATUS 2\n",
        "these words are no command line: give one of these lists\n    xrc run SESSION STORAGE\n    xrc recover SESSION\n    xrc advance SESSION\n    xrc copy SESSION SHIFT\n    xrc query SESSION\n    xrc init DEVICE SERIAL CYLINDERS\n    xrc generate NUMBER",
    );
}

/// A line that was cut, of another status, or none at all has no values.
#[test]
fn a_status_without_its_line_has_its_sentence(rt: HostRuntime) {
    let table = [
        (
            8,
            "STATUS 8 1 4",
            "a trace breaks a rule of its header: mend the trace and run again",
        ),
        (
            4,
            "STATUS 5 0\n",
            "a line of the script breaks a rule: recover, mend the line and start anew",
        ),
        (5, "", "a journal failed: mend its device and recover"),
        (
            9,
            "0000000000000050 XSTART OK T=0000000000000050\n",
            "a trace failed within its header: mend its device and run again",
        ),
        (
            11,
            "STATUS",
            "another session stands on these devices: name that session, or look for the right folder",
        ),
        (
            12,
            "STATUS 12 JOURNAL",
            "a device breaks a rule: it is not as the program left it, so bring the right one back",
        ),
        (
            14,
            "STATUS 14",
            "a device has too few bytes: lengthen it, as truncate -s does, and give the command again",
        ),
    ];
    for (status, said, wanted) in table {
        is_told(&rt, status, said, wanted);
    }
}

//! A plant of files: what it writes stands in them.

ghost use Rattle.std.specs.Prelude.{◌≡◌, vec_len, IfOk};
ghost use Rattle.crash_plant.specs.Calls.{NoneLent};

use crate::calls::{Call, PLACE, WORD, perform};
use crate::fixtures::{assert_holds, assert_same};
use crash_plant::{Device, FileDisk, FilePlant, Heard, Plant};
use std::alloc::{AllocGlobal, Global};
use std::fs::{self, File, OpenOptions};
use std::io::{self, Seek, Write};
use std::process::Abort;
use std::rt::Files;

fn open<R: Files<File = File>>(rt: &R, name: &str, content: &[u8]) -> io::Result<File> {
    let mut file = OpenOptions::new()
        .read(true)
        .write(true)
        .create(true)
        .truncate(true)
        .open(rt, name)?;
    file.write_all(content)?;
    file.rewind()?;
    Ok(file)
}

/// A disk over a file that is filled with this byte.
fn open_disk<R: Files<File = File>>(rt: &R, name: &str, fill: u8) -> io::Result<FileDisk> {
    Ok(FileDisk::new(open(rt, name, &[fill; 32])?, 32))
}

fn open_two<R: Files<File = File>>(
    rt: &R,
    alloc: Global,
    first: (&str, u8),
    second: (&str, u8),
) -> io::Result<Vec<FileDisk>>
    ensures { IfOk result (λ disks. vec_len disks ≡ 2) }
{
    let mut disks = Vec::new(alloc);
    disks.push(open_disk(rt, first.0, first.1)?)?;
    disks.push(open_disk(rt, second.0, second.1)?)?;
    Ok(disks)
}

/// The files of a plant, of equal lengths, and what each is filled with.
const FILES: [(&str, Device, u8); 6] = [
    ("control", Device::Control, b'0'),
    ("state", Device::State, b'1'),
    ("journal.0", Device::Journal(0), b'2'),
    ("journal.1", Device::Journal(1), b'3'),
    ("volume.0", Device::Volume(0), b'4'),
    ("volume.1", Device::Volume(1), b'5'),
];

/// Each device holds its file's filling.
fn are_filled<P: Plant>(rt: &impl Abort, plant: &mut P)
    requires { NoneLent (P.state plant.old) }
    ensures { NoneLent (P.state plant.new) }
{
    for (_, device, fill) in FILES {
        assert_holds(rt, plant, device, PLACE, &[fill; 4]);
    }
}

/// Writes a word to a device, which holds it then.
fn put_word<P: Plant>(rt: &impl Abort, plant: &mut P, device: Device)
    requires { NoneLent (P.state plant.old) }
    ensures { NoneLent (P.state plant.new) }
{
    assert!(rt; perform(rt, plant, Call::Write(device)).is_ok());
    assert!(rt; perform(rt, plant, Call::Sync(device)).is_ok());
    assert_holds(rt, plant, device, PLACE, &WORD);
}

/// Asserts that a file has this content, and removes it.
fn end_file<R: Files<File = File> + AllocGlobal + Abort>(
    rt: &R,
    name: &str,
    content: &[u8],
) -> io::Result<()> {
    assert!(rt; fs::read(rt, name)?.as_slice() == content);
    fs::remove_file(rt, name)
}

#[test]
fn files_are_a_plant(rt: HostRuntime) -> io::Result<()> {
    let outcome = FilePlant::new(
        rt.alloc(),
        open_disk(&rt, "control", b'0')?,
        open_disk(&rt, "state", b'1')?,
        open_two(&rt, rt.alloc(), ("journal.0", b'2'), ("journal.1", b'3'))?,
        open_two(&rt, rt.alloc(), ("volume.0", b'4'), ("volume.1", b'5'))?,
        open(&rt, "script", b"h")?,
        open(&rt, "said", b"")?,
    );
    let mut plant = outcome.expect(&rt, "memory");
    are_filled(&rt, &mut plant);
    for (name, device, fill) in FILES {
        put_word(&rt, &mut plant, device);
        let mut content = [fill; 32];
        content[5..9].copy_from_slice(&WORD);
        end_file(&rt, name, &content)?;
    }
    assert!(rt; perform(&rt, &mut plant, Call::Lent(1)).is_ok());
    let heard = [plant.hear(), plant.hear()];
    let script = [Ok(Heard::Byte(b'h')), Ok(Heard::End)];
    assert_same(&rt, &heard, &script, &"heard");
    assert_same(&rt, &plant.say(&WORD), &Ok(()), &"said");
    end_file(&rt, "said", &WORD)?;
    fs::remove_file(&rt, "script")
}

#[test]
fn a_console_alone_is_a_plant(rt: HostRuntime) -> io::Result<()> {
    let outcome = FilePlant::new(
        rt.alloc(),
        FileDisk::absent(),
        FileDisk::absent(),
        Vec::new(rt.alloc()),
        Vec::new(rt.alloc()),
        open(&rt, "script", b"")?,
        open(&rt, "said", b"")?,
    );
    let plant = outcome.expect(&rt, "memory");
    let numbers = (plant.volumes(), plant.journals());
    assert_same(&rt, &numbers, &(0, 0), &"numbers");
    fs::remove_file(&rt, "script")?;
    fs::remove_file(&rt, "said")
}

/// A script that has ended is at its end, even if its file grows later.
#[test]
fn a_script_ends_once(rt: HostRuntime) -> io::Result<()> {
    let outcome = FilePlant::new(
        rt.alloc(),
        FileDisk::absent(),
        FileDisk::absent(),
        Vec::new(rt.alloc()),
        Vec::new(rt.alloc()),
        open(&rt, "script", b"")?,
        open(&rt, "said", b"")?,
    );
    let mut plant = outcome.expect(&rt, "memory");
    assert_same(&rt, &plant.hear(), &Ok(Heard::End), &"the end");
    let mut script = OpenOptions::new().append(true).open(&rt, "script")?;
    script.write_all(b"h")?;
    assert_same(&rt, &plant.hear(), &Ok(Heard::End), &"the end again");
    fs::remove_file(&rt, "script")?;
    fs::remove_file(&rt, "said")
}

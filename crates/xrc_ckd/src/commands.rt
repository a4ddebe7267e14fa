//! The commands, by their words.

ghost use Rattle.std.specs.Prelude.{◌≤◌};

use crate::failure::Failure;
use crate::files::{FileEnd, NewFile, open_source, open_to_read};
use crate::words::{read_device_type, read_serial, read_stamp};
use anyhow::anyhow;
use ckd_bridge::{Files as Inputs, Refusal, Stop, capture, export, find_volume, import};
use ckd_image::DeviceType;
use crash_plant::{FileDisk, FilePlant, Plant};
use std::alloc::Global;
use std::fs::File;
use std::io::{Stdin, Stdout};
use std::rt::Files;
use tod_stamp::{Serial, Stamp};
use volume_label::{Label, read_label};

/// One file that is read.
fn alone(first: FileDisk) -> Inputs<FileDisk> {
    Inputs {
        first,
        second: FileDisk::absent(),
    }
}

fn run_import<R: Files<File = File>>(
    rt: &R,
    alloc: Global,
    image: &str,
    serial: Serial,
    trace: &str,
) -> Result<u32, Failure> {
    let mut files = alone(open_to_read(rt, image)?);
    let made = NewFile::create(rt, alloc, trace)?;
    let mut sink = made.sink()?;
    match import(alloc, &mut files, serial, &mut sink) {
        Ok(shape) => {
            made.keep(rt, trace)?;
            Ok(shape.cylinders)
        }
        Err(stop) => {
            made.discard(rt)?;
            Err(Failure::Stop(stop))
        }
    }
}

fn run_capture<R: Files<File = File>>(
    rt: &R,
    alloc: Global,
    images: (&str, &str),
    serial: Serial,
    stamp: Stamp,
    trace: &str,
) -> Result<u32, Failure>
    requires { 1 ≤ stamp.0 }
{
    let mut files = Inputs {
        first: open_to_read(rt, images.0)?,
        second: open_to_read(rt, images.1)?,
    };
    let volume = find_volume(alloc, &mut open_source(rt, trace)?, serial, stamp)?;
    let end = FileEnd::open(rt, trace)?;
    let mut sink = end.sink()?;
    match capture(alloc, &mut files, volume, stamp, &mut sink) {
        Ok(shape) => {
            end.keep()?;
            Ok(shape.cylinders)
        }
        Err(stop) => {
            end.discard()?;
            Err(Failure::Stop(stop))
        }
    }
}

/// A volume device with its label.
fn open_volume(
    alloc: Global,
    volume: FileDisk,
    input: Stdin,
    output: Stdout,
) -> Result<(Label, FileDisk), Failure> {
    let volumes = vec![in alloc; volume]?;
    let (control, state) = (FileDisk::absent(), FileDisk::absent());
    let journals = Vec::new(alloc);
    let mut plant = FilePlant::new(alloc, control, state, journals, volumes, input, output)?;
    match read_label(&mut plant, 0) {
        Ok(Some(label)) => Ok((label, plant.lend(0))),
        Ok(None) => Err(Failure::Stop(Stop::Refused(Refusal::NoLabel))),
        Err(_) => Err(Failure::Stop(Stop::ReadFault)),
    }
}

fn run_export<R: Files<File = File>>(
    rt: &R,
    alloc: Global,
    volume: (Label, FileDisk),
    image: &str,
    device_type: DeviceType,
) -> Result<Label, Failure> {
    let (label, disk) = volume;
    let mut files = alone(disk);
    let made = NewFile::create(rt, alloc, image)?;
    let mut sink = made.sink()?;
    match export(alloc, &mut files, device_type, label.cylinders, &mut sink) {
        Ok(_) => {
            made.keep(rt, image)?;
            Ok(label)
        }
        Err(stop) => {
            made.discard(rt)?;
            Err(Failure::Stop(stop))
        }
    }
}

/// Does the command of the words, and says what was done.
pub fn run<R: Files<File = File> + Print>(
    rt: &R,
    alloc: Global,
    words: &[String],
    input: Stdin,
    output: Stdout,
) -> Result<(), Failure> {
    match words {
        [command, image, serial, trace] if command.as_str() == "import" => {
            let cylinders = run_import(
                rt,
                alloc,
                image.as_str(),
                read_serial(serial.as_str())?,
                trace.as_str(),
            )?;
            println!(rt; "IMPORTED {serial} CYLINDERS {cylinders}")?;
            Ok(())
        }
        [command, old, new, serial, stamp, trace] if command.as_str() == "capture" => {
            run_capture(
                rt,
                alloc,
                (old.as_str(), new.as_str()),
                read_serial(serial.as_str())?,
                read_stamp(stamp.as_str())?,
                trace.as_str(),
            )?;
            println!(rt; "CAPTURED {serial} T={stamp}")?;
            Ok(())
        }
        [command, volume, image] if command.as_str() == "export" => {
            let opened = open_volume(alloc, open_to_read(rt, volume.as_str())?, input, output)?;
            let label = run_export(rt, alloc, opened, image.as_str(), DeviceType::Ibm3390)?;
            let cylinders = label.cylinders;
            println!(rt; "EXPORTED {image} CYLINDERS {cylinders}")?;
            Ok(())
        }
        [command, volume, image, device_type] if command.as_str() == "export" => {
            let device_type = read_device_type(device_type.as_str())?;
            let opened = open_volume(alloc, open_to_read(rt, volume.as_str())?, input, output)?;
            let label = run_export(rt, alloc, opened, image.as_str(), device_type)?;
            let cylinders = label.cylinders;
            println!(rt; "EXPORTED {image} CYLINDERS {cylinders}")?;
            Ok(())
        }
        _ => Err(Failure::Words),
    }
}

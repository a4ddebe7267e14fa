//! The files of a command.

use crate::failure::Failure;
use anyhow::{Context, anyhow};
use ckd_bridge::FileSink;
use crash_plant::FileDisk;
use std::alloc::Global;
use std::fs;
use std::fs::{File, OpenOptions};
use std::rt::Files;
use xrc_edge::FileSource;

/// A file that is only read.
pub fn open_to_read<R: Files<File = File>>(rt: &R, name: &str) -> Result<FileDisk, Failure> {
    let file = File::open(rt, name).context(format_args!("cannot open {name}"))?;
    let length = file.metadata()?.len();
    Ok(FileDisk::new(file, length))
}

/// A file that is read once, from its front to its end.
pub fn open_source<R: Files<File = File>>(rt: &R, name: &str) -> Result<FileSource<File>, Failure> {
    let file = File::open(rt, name).context(format_args!("cannot open {name}"))?;
    Ok(FileSource::new(file))
}

/// A file that comes into being whole or not at all: until it is kept it has another name, with `.part` behind it.
#[derive(Drop)]
pub struct NewFile {
    file: File,
    part: String,
}

impl NewFile {
    /// A new file for this name, which no other file has.
    pub fn create<R: Files<File = File>>(
        rt: &R,
        alloc: Global,
        name: &str,
    ) -> Result<NewFile, Failure> {
        if fs::exists(rt, name)? {
            return Err(Failure::File(anyhow!("{name} is there already")));
        }
        let part = format!(in alloc; "{name}.part")?;
        let file = File::create(rt, part.as_str()).context(format_args!(
            "cannot make {name}.part"
        ))?;
        Ok(NewFile { file, part })
    }

    /// Where its bytes are put.
    pub fn sink(&self) -> Result<FileSink<File>, Failure> {
        Ok(FileSink::new(self.file.try_clone()?))
    }

    /// Gives the file its name, once its bytes are on the disk.
    pub fn keep<R: Files<File = File>>(self, rt: &R, name: &str) -> Result<(), Failure> {
        self.file.sync_all()?;
        fs::rename(rt, self.part.as_str(), name)?;
        Ok(())
    }

    /// Removes it.
    pub fn discard<R: Files<File = File>>(self, rt: &R) -> Result<(), Failure> {
        fs::remove_file(rt, self.part.as_str())?;
        Ok(())
    }
}

/// The end of a file, behind which bytes are put.
#[derive(Drop)]
pub struct FileEnd {
    file: File,
    length: u64,
}

impl FileEnd {
    pub fn open<R: Files<File = File>>(rt: &R, name: &str) -> Result<FileEnd, Failure> {
        let file = OpenOptions::new()
            .append(true)
            .open(rt, name)
            .context(format_args!("cannot open {name}"))?;
        let length = file.metadata()?.len();
        Ok(FileEnd { file, length })
    }

    /// Where bytes are put.
    pub fn sink(&self) -> Result<FileSink<File>, Failure> {
        Ok(FileSink::new(self.file.try_clone()?))
    }

    /// Brings what was put to the disk.
    pub fn keep(self) -> Result<(), Failure> {
        self.file.sync_all()?;
        Ok(())
    }

    /// Takes away what was put.
    pub fn discard(self) -> Result<(), Failure> {
        self.file.set_len(self.length)?;
        Ok(())
    }
}

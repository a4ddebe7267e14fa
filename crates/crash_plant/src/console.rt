ghost use Rattle.std.specs.Prelude.{◌≡◌, ◌≤◌, ◌+◌, true, vec_len, Ok, IfOk};
ghost use Rattle.xrc_edge.specs.Causes.{HasCause};
ghost use Rattle.crash_plant.specs.declared.device.Heard.TheVariants.{End};

use crate::Heard;
use std::alloc::Global;
use std::io::{ErrorKind, Read, Write};
use xrc_edge::{Failed, NoMemory};

const ROOM: usize = 65536;

// How often a read that a signal interrupts is made again.
const TRIES: u32 = 1000;

/// A script that is heard byte by byte, through a buffer of its own, and an output to which replies are said at once. Once the
/// script has ended, the input is not read again, so that nobody has to end it twice at a terminal.
#[derive(Drop)]
pub(crate) struct Console<R: Read + Drop, W: Write + Drop> {
    input: R,
    output: W,
    buffer: Vec<u8>,
    next: usize,
    filled: usize,
    has_ended: bool,
    faults: u64,
    ghost within: { (next ≤ filled) × (filled ≤ vec_len buffer) },
}

impl<R: Read + Drop, W: Write + Drop> Console<R, W> {
    pub(crate) fn new(alloc: Global, input: R, output: W) -> Result<Self, NoMemory>
        ensures { IfOk result (λ console. console.faults ≡ 0) }
    {
        let buffer = vec![in alloc; 0u8; ROOM]?;
        Ok(Console {
            input,
            output,
            buffer,
            next: 0,
            filled: 0,
            has_ended: false,
            faults: 0,
        })
    }

    // Gives the next byte, or the end. After the end there is nothing to read.
    pub(crate) fn hear(&mut self) -> Result<Heard, Failed>
        ensures ended { result ≡ Ok End → self.new.has_ended ≡ true }
        ensures still { self.old.has_ended ≡ true → result ≡ Ok End × self.new ≡ self.old }
        ensures cause { HasCause self.old.faults self.new.faults result }
    {
        if self.has_ended {
            return Ok(Heard::End);
        }
        if self.next == self.filled {
            self.refill()?;
        }
        if self.next == self.filled {
            self.has_ended = true;
            return Ok(Heard::End);
        }
        let byte = self.buffer[self.next];
        self.next += 1;
        Ok(Heard::Byte(byte))
    }

    // Reads the next bytes into the buffer; none come at the input's end.
    fn refill(&mut self) -> Result<(), Failed>
        ensures { HasCause self.old.faults self.new.faults result }
    {
        for _ in 0..TRIES {
            match self.input.read(self.buffer.as_mut_slice()) {
                Ok(count) => {
                    self.next = 0;
                    self.filled = count;
                    return Ok(());
                }
                Err(error) if error.kind() == ErrorKind::Interrupted => {}
                Err(_) => break,
            }
        }
        self.faults = self.faults.saturating_add(1);
        Err(Failed)
    }

    pub(crate) fn say(&mut self, bytes: &[u8]) -> Result<(), Failed>
        ensures { HasCause self.old.faults self.new.faults result }
    {
        let outcome = match self.output.write_all(bytes) {
            Ok(()) => self.output.flush(),
            Err(error) => Err(error),
        };
        match outcome {
            Ok(()) => Ok(()),
            Err(_) => {
                self.faults = self.faults.saturating_add(1);
                Err(Failed)
            }
        }
    }
}

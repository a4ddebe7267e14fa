ghost use Rattle.std.specs.Prelude.{◌≡◌, ◌≤◌, ◌++◌, [], ◌∷◌, length, IfOk, IsOk, OnErr, OnOk};
ghost use Rattle.crash_plant.specs.Turns.{InTurn, InTurn-prop, last_turn};

use crate::Heard;
use crate::turn::ConsoleTurn;
use std::alloc::Global;
use xrc_edge::{Bytes, NoMemory};

/// A script that is heard byte by byte, and what was said, with a record of both.
#[derive(Drop)]
pub(crate) struct MemoryConsole {
    script: Bytes,
    next: usize,
    said: Vec<u8>,
    first: ConsoleTurn,
    turns: Vec<ConsoleTurn>,
    ghost next_within: { next ≤ length script },
    ghost in_turn: { InTurn first turns.items } by { InTurn-prop first turns.items },
    ghost heard_is: { (last_turn first turns.items).heard ≡ next },
    ghost said_is: { (last_turn first turns.items).said ≡ length said.items },
}

// Says the bytes, and puts the call into the record.
fn utter(
    said: &mut Vec<u8>,
    turns: &mut Vec<ConsoleTurn>,
    at: u64,
    heard: u64,
    bytes: &[u8],
) -> Result<(), NoMemory>
    ensures said { OnOk result (said.new.items ≡ said.old.items ++ bytes.now) }
    ensures noted { OnOk result (turns.new.items ≡ turns.old.items ++ record { at = at; heard = heard; said = length (said.old.items ++ bytes.now) } ∷ []) }
    ensures same { OnErr result (said.new.items ≡ said.old.items) }
    ensures same_turns { OnErr result (turns.new.items ≡ turns.old.items) }
{
    turns.reserve(1)?;
    said.extend_from_slice(bytes)?;
    turns.push_reserved(ConsoleTurn {
        at,
        heard,
        said: said.len() as u64,
    });
    Ok(())
}

impl MemoryConsole {
    ghost use Rattle.crash_plant.specs.MemoryConsole.{HearsNext, SameMemoryConsole, Utters, left_to_hear, last_told};

    /// A console whose record begins at a moment, with this much of its script heard.
    pub(crate) fn new(
        alloc: Global,
        at: u64,
        script: Bytes,
        next: usize,
        said: Vec<u8>,
    ) -> MemoryConsole
        requires { next ≤ length script }
        ensures script { result.script ≡ script }
        ensures next { result.next ≡ next }
        ensures said { result.said.items ≡ said.items }
        ensures first { result.first ≡ record { at = at; heard = next; said = length said.items } }
        ensures turns { result.turns.items ≡ [] }
    {
        MemoryConsole {
            first: ConsoleTurn {
                at,
                heard: next as u64,
                said: said.len() as u64,
            },
            script,
            next,
            said,
            turns: Vec::new(alloc),
        }
    }

    pub(crate) fn said(&self) -> &[u8]
        ensures { result.now ≡ self.now.said.items }
    {
        self.said.as_slice()
    }

    /// Hears the next byte at a moment. Without memory for the record nothing is heard.
    pub(crate) fn hear(&mut self, now: u64) -> Result<Heard, NoMemory>
        requires { last_told self.old ≤ now }
        ensures ok { IfOk result (λ heard. HearsNext now self.old self.new heard) }
        ensures end { left_to_hear self.old ≡ [] → IsOk result }
        ensures err { OnErr result (SameMemoryConsole self.old self.new) }
    {
        let script = self.script.as_slice();
        if self.next == script.len() {
            return Ok(Heard::End);
        }
        let byte = script[self.next];
        self.turns.reserve(1)?;
        self.next += 1;
        self.turns.push_reserved(ConsoleTurn {
            at: now,
            heard: self.next as u64,
            said: self.said.len() as u64,
        });
        Ok(Heard::Byte(byte))
    }

    /// Says bytes at a moment. Without memory for them nothing is said.
    pub(crate) fn say(&mut self, now: u64, bytes: &[u8]) -> Result<(), NoMemory>
        requires { last_told self.old ≤ now }
        ensures ok { OnOk result (Utters now bytes.now self.old self.new) }
        ensures err { OnErr result (SameMemoryConsole self.old self.new) }
    {
        utter(
            &mut self.said,
            &mut self.turns,
            now,
            self.next as u64,
            bytes,
        )
    }
}

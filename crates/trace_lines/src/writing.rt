//! The trace that a text says.

ghost use Rattle.trace_lines.specs.Traces.{IsTrace, trace_in};

use crate::draft::{Draft, Untaken};
use crate::pieces::split_first;
use crate::refusal::{Cause, Refusal, Unwritten};
use std::alloc::Global;
use xrc_edge::Bytes;

/// The trace that the lines of a text say, or the first line that is refused and why.
#[tactic(auto, using(crate::proofs::Texts::rest_is_shorter, crate::proofs::Drafts::said_step, crate::proofs::Drafts::said_stop, crate::proofs::Drafts::said_end), unfolding(crate::specs::Traces::trace_in))]
pub fn trace_of_text(alloc: Global, text: &[u8]) -> Result<Bytes, Unwritten>
    ensures { IsTrace result (trace_in text.now) }
{
    let mut draft = Draft::empty(alloc);
    let mut number = 0;
    let mut rest = text;
    while !rest.is_empty() {
        let (line, after) = split_first(b'\n', rest);
        number += 1;
        match draft.with_text(alloc, line) {
            Ok(next) => draft = next,
            Err(Untaken::NoMemory) => return Err(Unwritten::NoMemory),
            Err(Untaken::Refused(cause)) => {
                let line = number;
                return Err(Unwritten::Refused(Refusal { line, cause }));
            }
        }
        rest = after;
    }
    if draft.header.volumes.len() == 0 {
        let (line, cause) = (number + 1, Cause::Order);
        return Err(Unwritten::Refused(Refusal { line, cause }));
    }
    Ok(draft.into_trace(alloc)?)
}

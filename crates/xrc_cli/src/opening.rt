//! What has to be opened.

ghost use Rattle.std.specs.Prelude.{◌≡◌, map, string_bytes, IsOk, IfOk};
ghost use Rattle.xrc_cli.specs.Words.{asked_by_words, wanted_by};

use crate::words::{Asked, Wanted, asked_in};
use std::alloc::Global;
use xrc_edge::NoMemory;

/// What has to be opened for the words, which come without the program's name.
pub fn wanted(_alloc: Global, words: &[String]) -> Result<Wanted, NoMemory>
    ensures answers { IsOk result }
    ensures answer { IfOk result (λ wanted. wanted ≡ wanted_by (asked_by_words (map string_bytes words.now))) }
{
    Ok(match asked_in(words) {
        Some(Asked::Run(_, storage)) => Wanted::Traces(storage),
        Some(
            Asked::Recover(_)
            | Asked::Advance(_)
            | Asked::Copy(_, _)
            | Asked::Query(_)
            | Asked::Init(_, _, _),
        ) => Wanted::Devices,
        Some(Asked::Generate(_)) | None => Wanted::Nothing,
    })
}

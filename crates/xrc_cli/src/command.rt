//! The top call.

ghost use Rattle.std.specs.Prelude.{◌≡◌, ◌≢◌, ◌↔◌, map, string_bytes, None, Some, ℕ, List};
ghost use Rattle.crash_plant.specs.Calls.{NoneLent};
ghost use Rattle.xrecover.specs.declared.labelling.Labelling.TheVariants.{AsItIs, AsPrimary};
ghost use Rattle.xrc_recovery.specs.Copies.{EndsCopy};
ghost use Rattle.xrc_recovery.specs.Queries.{EndsQuery};
ghost use Rattle.xrc_recovery.specs.Statuses.{EndsRecovery};
ghost use Rattle.xrc_session.specs.Lanes.{HaveNoReader};
ghost use Rattle.xrc_status.specs.declared.stop.Stop.TheVariants.{BadWords as BadWordsStop};
ghost use Rattle.xrc_cli.specs.declared.words.Asked.TheVariants.{Advance as AdvanceAsked, Copy as CopyAsked, Generate as GenerateAsked, Init as InitAsked, Query as QueryAsked, Recover as RecoverAsked, Run as RunAsked};
ghost use Rattle.xrc_cli.specs.Generating.{EndsGenerating};
ghost use Rattle.xrc_cli.specs.Labelling.{EndsLabelling, label_with};
ghost use Rattle.xrc_cli.specs.Statuses.{EndsScriptRun, SaysLineOnly};
ghost use Rattle.xrc_cli.specs.Words.{asked_by_words};

use crate::generating::run_generated;
use crate::labelling::label_volume;
use crate::run::run_session;
use crate::words::{Asked, asked_in};
use crash_plant::Plant;
use mover::Lane;
use std::alloc::Global;
use std::sync::Wait;
use std::thread::Threads;
use volume_label::Label;
use xrc_edge::Source;
use xrc_recovery::{advance_site, copy_site, query_site, recover_site};
use xrc_status::{Stop, say_stop};

/// Runs the command of the words, which come without the program's name, over the traces and the devices, and gives the
/// status that the program ends with. A command that was not done says the line of its status, but where the console failed. No
/// lane has its reader yet.
///
/// `run SESSION STORAGE` hears a script line by line and runs it over so many traces. Each line brings the site to its time, then its
/// command is done and logged, then its reply is said, and only then is the next byte heard. `recover SESSION` recovers the session's
/// site, without traces, and says of each pair how far it is; `advance SESSION` does the same and leaves each volume its label. `copy
/// SESSION SHIFT` advances the site, and copies each duplex pair's volume to the volume whose number is greater by the shift. `query
/// SESSION` says the report of the devices. `init DEVICE SERIAL CYLINDERS` writes the label of a volume. `generate NUMBER` runs the input
/// of a number in memory, and says a line that sums it up.
///
/// Statuses of all: 0 done, 1 no memory, 2 the words are no command line, 3 a call on the console failed. Of all but `generate`: 14 a
/// device is too small, 16 the numbers of journals, volumes or traces are others. Of those that work on a site: 5, 6, 7 a call on a
/// journal, the control or the state failed. Of a run: 4 a line is outside the grammar, falls in time or is one too many, 8 a trace's
/// header is bad, 9 a call on a trace failed within its header, 24 the numbers of records or marks are spent. Of a recovery, an advance,
/// a copy and a query: 10 no session has begun, 11 the site is another session's, 12 a device is damaged. 13: a volume failed, which a query
/// calls none of. Of a copy: 26 a duplex pair has no target.
#[tactic(auto, using(crate::proofs::Commands::home_recovered, crate::proofs::Commands::home_copied, crate::proofs::Commands::home_queried, crate::proofs::Commands::home_labelled, crate::proofs::Commands::home_generated, crate::proofs::Commands::known_recovered, crate::proofs::Commands::known_copied, crate::proofs::Commands::known_queried, crate::proofs::Commands::known_labelled, crate::proofs::Commands::known_generated))]
pub fn xrc<R: Threads + Wait + Sync, S: Source + Send, P: Plant>(
    rt: &R,
    alloc: Global,
    words: &[String],
    traces: &mut Vec<Lane<S>>,
    plant: &mut P,
) -> u8
    requires home { NoneLent (P.state plant.old) }
    requires unread { HaveNoReader traces.old.items }
    ensures home { NoneLent (P.state plant.new) }

    // Other words are refused, and then nothing is heard. Only a run reads traces.
    ensures words { (result ≡ 2) ↔ (asked_by_words (map string_bytes words.now) ≡ None) }
    ensures refused { result ≡ 2 → SaysLineOnly P.tells BadWordsStop (P.state plant.old) (P.state plant.new) result }
    ensures traces { ((session : List ℕ) (storage : ℕ) → asked_by_words (map string_bytes words.now) ≢ Some (RunAsked session storage)) → traces.new ≡ traces.old }

    // With the words of a run: what opens it, what a start leaves before its answer, that each moment after it bears one time, what was
    // said, what holds where it is done, and each status with its cause and its line.
    ensures ran { (session : List ℕ) (storage : ℕ) → asked_by_words (map string_bytes words.now) ≡ Some (RunAsked session storage) → EndsScriptRun P.tells P.state S.left S.faults session storage traces.old.items traces.new.items plant.old plant.new result }

    // With those of a recovery or an advance: what was said, redone and changed, and each status with its cause and its line.
    ensures recovered { (session : List ℕ) → asked_by_words (map string_bytes words.now) ≡ Some (RecoverAsked session) → EndsRecovery P.tells AsPrimary session (P.state plant.old) (P.state plant.new) result }
    ensures advanced { (session : List ℕ) → asked_by_words (map string_bytes words.now) ≡ Some (AdvanceAsked session) → EndsRecovery P.tells AsItIs session (P.state plant.old) (P.state plant.new) result }

    // With those of a copy: what was said, redone, copied and changed, that all that is done on a target is copied at every moment, and each
    // status with its cause and its line.
    ensures copied { (session : List ℕ) (shift : ℕ) → asked_by_words (map string_bytes words.now) ≡ Some (CopyAsked session shift) → EndsCopy P.tells session shift (P.state plant.old) (P.state plant.new) result }

    // With those of the others: what was said and written, and each status with its cause and its line.
    ensures queried { (session : List ℕ) → asked_by_words (map string_bytes words.now) ≡ Some (QueryAsked session) → EndsQuery P.tells session (P.state plant.old) (P.state plant.new) result }
    ensures labelled { (device : ℕ) (serial : List ℕ) (cylinders : ℕ) → asked_by_words (map string_bytes words.now) ≡ Some (InitAsked device serial cylinders) → EndsLabelling P.tells device (label_with serial cylinders) (P.state plant.old) (P.state plant.new) result }
    ensures generated { (number : ℕ) → asked_by_words (map string_bytes words.now) ≡ Some (GenerateAsked number) → EndsGenerating P.tells number (P.state plant.old) (P.state plant.new) result }
{
    let asked = asked_in(words);
    match &asked {
        Some(Asked::Run(session, storage)) => {
            run_session(rt, alloc, *session, *storage, traces, plant)
        }
        Some(Asked::Recover(session)) => recover_site(rt, alloc, plant, *session),
        Some(Asked::Advance(session)) => advance_site(rt, alloc, plant, *session),
        Some(Asked::Copy(session, shift)) => copy_site(rt, alloc, plant, *session, *shift),
        Some(Asked::Query(session)) => query_site(alloc, plant, *session),
        Some(Asked::Init(device, serial, cylinders)) => {
            let (serial, cylinders) = (*serial, *cylinders);
            label_volume(plant, *device, &Label { serial, cylinders })
        }
        Some(Asked::Generate(number)) => run_generated(rt, alloc, *number, plant),
        None => say_stop(plant, Stop::BadWords),
    }
}

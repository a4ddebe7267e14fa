//! The lines that are said of a site that was recovered, advanced or copied, and of a pair without a target.

ghost use Rattle.std.specs.Prelude.{◌≡◌, ◌≤◌, ◌+◌, ◌++◌, ◌∷◌, [], length};
ghost use Rattle.xrc_recovery.specs.Texts.{no_target_line, pair_line, site_line, site_word, state_text};
ghost use Rattle.crash_plant.specs.declared.device.Device.TheVariants.{Volume};
ghost use Rattle.pair_table.specs.Devices.{is_among};
ghost use Rattle.xrc_status.specs.Stops.{device_text};

use pair_table::{PairRow, PairState};
use tod_stamp::{Serial, Session, Stamp};
use xrc_status::TextLine;
use xrecover::{Labelling, Outcome};

/// The status of a copy that lacks a target.
pub(crate) const NO_TARGET: u8 = 26;

/// The first word of what is said of a site that was redone, and a space.
pub(crate) fn site_word(labelling: Labelling) -> &'static [u8]
    ensures text { result.now ≡ site_word labelling }
    ensures short { length result.now ≤ 10 }
{
    match labelling {
        Labelling::AsPrimary => b"RECOVERED ",
        Labelling::AsItIs => b"ADVANCED ",
    }
}

/// The first line, which begins with a word and a space.
pub(crate) fn site_line(word: &[u8], session: Session, time: Stamp) -> TextLine
    requires { length word.now ≤ 10 }
    ensures { result ≡ site_line word.now session time.0 }
{
    let mut line = TextLine::make();
    line.add(word);
    line.add(session.as_bytes());
    line.add(b" T=");
    line.add(&time.text());
    line.add(b"\n");
    line
}

/// Puts how far a pair is.
fn add_state(line: &mut TextLine, has_failed: bool, state: PairState)
    requires { length line.old ≤ 40 }
    ensures text { line.new ≡ line.old ++ state_text has_failed state }
    ensures short { length line.new ≤ length line.old + 40 }
{
    match state {
        PairState::Pending => line.add(b"PENDING"),
        PairState::Copy => line.add(b"COPY"),
        PairState::Duplex => line.add(if has_failed { b"FAULT" } else { b"DUPLEX" }),
        PairState::Suspended { cause, since } => {
            line.add(b"SUSPENDED ");
            line.add(cause.word());
            line.add(b" SINCE ");
            line.add(&since.text());
        }
    }
}

/// Whether a device is among those that failed.
#[tactic(auto, using(crate::proofs::LineLaws::among_here, crate::proofs::LineLaws::among_more, crate::proofs::LineLaws::some_at))]
fn is_among(outcome: &Outcome, device: u16) -> bool
    ensures { result ≡ is_among device outcome.now.failed }
{
    for place in 0..outcome.failed.len() {
        let failed = *outcome.failed.get(place).unwrap();
        if failed == device {
            return true;
        }
    }
    false
}

/// Puts a name and a space.
fn add_name(line: &mut TextLine, name: &Serial)
    requires { length line.old ≤ 100 }
    ensures text { line.new ≡ line.old ++ name.now ++ 32 ∷ [] }
    ensures short { length line.new ≤ length line.old + 7 }
{
    line.add(name.as_bytes());
    line.add(b" ");
}

/// The line of a pair.
pub(crate) fn pair_line(outcome: &Outcome, row: &PairRow) -> TextLine
    ensures { result ≡ pair_line outcome.now.failed row.now }
{
    let mut line = TextLine::make();
    line.add(b"PAIR ");
    add_name(&mut line, &row.primary);
    add_name(&mut line, &row.secondary);
    add_state(&mut line, is_among(outcome, row.device), row.state);
    line.add(b"\n");
    line
}

/// Puts a space and a volume's name.
fn add_volume(line: &mut TextLine, device: u16)
    requires { length line.old ≤ 70 }
    ensures text { line.new ≡ line.old ++ device_text (Volume device) }
    ensures short { length line.new ≤ length line.old + 49 }
{
    line.add(b" VOLUME");
    line.add_number(u64::from(device));
}

/// The line of a copy that has no target for the volume of a device.
pub(crate) fn no_target_line(device: u16) -> TextLine
    ensures { result ≡ no_target_line device }
{
    let mut line = TextLine::make();
    line.add(b"STATUS");
    line.add_number(u64::from(NO_TARGET));
    add_volume(&mut line, device);
    line.add(b"\n");
    line
}

//! Lines taken into a draft, one after the other.

ghost use Rattle.std.specs.Prelude.{◌≡◌, ◌<◌, ◌++◌, length, IfOk, IsTrue};
ghost use Rattle.write_trace.specs.Headers.{cylinders_of, header_spelling, is_header, is_track_of};
ghost use Rattle.write_trace.specs.Entries.{entry_spelling, is_stamp_from, stamp_of};
ghost use Rattle.trace_lines.specs.declared.line.Line.TheVariants as lines;
ghost use Rattle.trace_lines.specs.Traces.{IsDraft, said_by, nothing_said, may_follow as follows, with_entry, with_header, with_line, with_text};

use crate::draft::{Draft, Untaken};
use crate::line::Line;
use crate::reading::line_in;
use crate::refusal::Cause;
use std::alloc::Global;
use tod_stamp::Stamp;
use write_trace::{BaseList, BaseTrack, Entry, Header, TraceWriter, VolumeHead, VolumeList};
use xrc_edge::{Bytes, NoMemory, TRACKS_OF_CYLINDER};

fn is_stamp(last: u64, stamp: Stamp) -> bool
    ensures { result ≡ is_stamp_from last stamp.0 }
{
    stamp.0 >= 1 && last <= stamp.0
}

fn cylinders_of(volumes: &[VolumeHead], volume: u16) -> u32
    requires there { volume < length volumes.now }
    ensures { result ≡ cylinders_of volumes.now volume }
{
    volumes[volume as usize].cylinders
}

fn is_track(volumes: &[VolumeHead], volume: u16, track: u32) -> bool
    ensures { result ≡ is_track_of volumes.now volume track }
{
    if usize::from(volume) >= volumes.len() {
        return false;
    }
    let tracks = u64::from(TRACKS_OF_CYLINDER) * u64::from(cylinders_of(volumes, volume));
    u64::from(track) < tracks
}

/// Whether an entry may follow in a trace of these volumes.
fn may_follow(volumes: &[VolumeHead], last: u64, entry: &Entry) -> bool
    ensures { result ≡ follows volumes.now last entry.now }
{
    match entry {
        Entry::Idle(stamp) => is_stamp(last, *stamp),
        Entry::Written(write) => {
            is_stamp(last, write.stamp)
                && is_track(volumes, write.volume, write.track)
                && write.kind.keeps_rules()
        }
    }
}

/// Puts the spelling of an entry after others, and gives its stamp.
#[tactic(auto, using(crate::proofs::Entries::idle_is_stamped, crate::proofs::Entries::write_is_stamped, crate::proofs::Entries::version_is_known, crate::proofs::Entries::write_is_near, crate::proofs::Entries::write_keeps_rules))]
fn spell(
    alloc: Global,
    header: &Header,
    last: u64,
    out: &mut Bytes,
    entry: &Entry,
) -> Result<u64, NoMemory>
    requires header { IsTrue (is_header header.now) }
    requires follows { IsTrue (follows header.now.volumes last entry.now) }
    ensures { IfOk result (λ stamp. (stamp ≡ stamp_of entry.now) × (out.new ≡ out.old ++ entry_spelling header.now.version entry.now)) }
{
    match entry {
        Entry::Idle(stamp) => {
            TraceWriter::idle(alloc, out, *stamp)?;
            Ok(stamp.0)
        }
        Entry::Written(write) => {
            TraceWriter::write(alloc, out, header.version, write)?;
            Ok(write.stamp.0)
        }
    }
}

/// The draft of a header that keeps the rules, with these entries.
#[tactic(auto, unfolding(crate::specs::Traces::with_header))]
fn with_header(header: Header, entries: Bytes, last: u64) -> Result<Draft, Untaken>
    ensures { IsDraft result (with_header header entries last) }
{
    if !header.keeps_rules() {
        return Err(Untaken::Refused(Cause::Rule));
    }
    Ok(Draft {
        header,
        entries,
        last,
    })
}

impl Draft {
    pub(crate) fn empty(alloc: Global) -> Draft
        ensures { said_by result ≡ nothing_said }
    {
        Draft {
            header: Header {
                version: 1,
                volumes: VolumeList::make(alloc),
                base: BaseList::make(alloc),
            },
            entries: Bytes::make(alloc),
            last: 0,
        }
    }

    #[tactic(auto, unfolding(crate::specs::Traces::with_entry))]
    fn with_entry(self, alloc: Global, entry: &Entry) -> Result<Draft, Untaken>
        requires { 0 < length self.header.volumes }
        ensures { IsDraft result (with_entry entry.now (said_by self)) }
    {
        if !may_follow(self.header.volumes.as_slice(), self.last, entry) {
            return Err(Untaken::Refused(Cause::Rule));
        }
        let Draft {
            header,
            mut entries,
            last,
        } = self;
        let last = spell(alloc, &header, last, &mut entries, entry)?;
        Ok(Draft {
            header,
            entries,
            last,
        })
    }

    #[tactic(auto, unfolding(crate::specs::Traces::with_line))]
    fn with_version(self, version: u8) -> Result<Draft, Untaken>
        ensures { IsDraft result (with_line (lines.Version version) (said_by self)) }
    {
        if self.header.volumes.len() > 0 {
            return Err(Untaken::Refused(Cause::Order));
        }
        if !(1..=2).contains(&version) {
            return Err(Untaken::Refused(Cause::Rule));
        }
        let Draft {
            mut header,
            entries,
            last,
        } = self;
        header.version = version;
        Ok(Draft {
            header,
            entries,
            last,
        })
    }

    #[tactic(auto, unfolding(crate::specs::Traces::with_line))]
    fn with_volume(self, alloc: Global, head: VolumeHead) -> Result<Draft, Untaken>
        ensures { IsDraft result (with_line (lines.Volume head) (said_by self)) }
    {
        if self.header.base.len() > 0 || self.entries.len() > 0 {
            return Err(Untaken::Refused(Cause::Order));
        }
        let Draft {
            mut header,
            entries,
            last,
        } = self;
        header.volumes.push(alloc, head)?;
        with_header(header, entries, last)
    }

    #[tactic(auto, unfolding(crate::specs::Traces::with_line))]
    fn with_base(self, alloc: Global, base: BaseTrack) -> Result<Draft, Untaken>
        ensures { IsDraft result (with_line (lines.Base base.0 base.1 base.2) (said_by self)) }
    {
        if self.entries.len() > 0 {
            return Err(Untaken::Refused(Cause::Order));
        }
        let Draft {
            mut header,
            entries,
            last,
        } = self;
        header.base.push(alloc, base)?;
        with_header(header, entries, last)
    }

    #[tactic(auto, unfolding(crate::specs::Traces::with_line))]
    fn with_line(self, alloc: Global, line: Line) -> Result<Draft, Untaken>
        ensures { IsDraft result (with_line line (said_by self)) }
    {
        match line {
            Line::Nothing => Ok(self),
            Line::Version(version) => self.with_version(version),
            Line::Volume(head) => self.with_volume(alloc, head),
            Line::Base(volume, track, content) => self.with_base(alloc, (volume, track, content)),
            Line::Told(entry) => {
                if self.header.volumes.len() == 0 {
                    return Err(Untaken::Refused(Cause::Order));
                }
                self.with_entry(alloc, &entry)
            }
        }
    }

    /// The draft with a line's text.
    #[tactic(auto, unfolding(crate::specs::Traces::with_text))]
    pub(crate) fn with_text(self, alloc: Global, text: &[u8]) -> Result<Draft, Untaken>
        ensures { IsDraft result (with_text text.now (said_by self)) }
    {
        match line_in(alloc, text)? {
            Some(line) => self.with_line(alloc, line),
            None => Err(Untaken::Refused(Cause::Grammar)),
        }
    }

    /// The trace of the draft, which has a volume.
    pub(crate) fn into_trace(self, alloc: Global) -> Result<Bytes, NoMemory>
        requires { 0 < length self.header.volumes }
        ensures { IfOk result (λ bytes. bytes ≡ header_spelling self.header ++ self.entries) }
    {
        let mut bytes = Bytes::make(alloc);
        TraceWriter::header(alloc, &mut bytes, &self.header)?;
        bytes.extend_from_slice(alloc, self.entries.as_slice())?;
        Ok(bytes)
    }
}

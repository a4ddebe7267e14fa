//! The volumes of a controller, and which writes are carried.

ghost use Rattle.std.specs.Prelude.{◌≡◌, ◌<◌, ◌≤◌, ◌+◌, ◌*◌, length, slice_index_or, filter, ◌++◌, true, IsTrue, IfSome, None};
ghost use Rattle.ckd_track.specs.declared.write.Write.{Write as WriteIs};
ghost use Rattle.std.specs.List.{list_all};
ghost use Rattle.pending_queue.specs.Entries.{WaitingEntry, copies, due, without_volume, entry_tracks};
ghost use Rattle.pending_queue.specs.Groups.{most_done_of_control};
ghost use Rattle.pending_queue.specs.Queues.{with_waiting};
ghost use Rattle.group_state.specs.Volumes.{is_carried, is_wanted, next_wanted, owed, copied_track, dropped_volume, resumed_volume, with_write, with_writes, with_volume, formed_track, with_formed_copies, is_due_copy, is_done_after, numbers_of, volume_of, passes, IsPlaceOf};
ghost use Rattle.group_state.specs.SoundStates.{has_sizes, is_dropped, is_track_within, are_within, is_entry_of, CopiesAreCounted, may_form};

use crate::volume::Volume;
use ckd_track::Write;
use pending_queue::{Carrier, Formed, Queue};
use tod_stamp::Stamp;

/// Volumes of a controller, of which those that are carried carry writes.
#[derive(Clone, Copy)]
pub struct Carried<'a> {
    pub volumes: &'a [Volume],
}

impl Carrier for Carried<'_> {
    ghost carries = { λ carried write. is_carried carried.volumes.now write };

    fn carries(&self, write: &Write) -> bool {
        match place_of(self.volumes, write.volume) {
            Some(place) => self.volumes[place].carries(write.track),
            None => false,
        }
    }
}

/// The place of the volume with a number.
pub fn place_of(volumes: &[Volume], number: u16) -> Option<usize>
    ensures some { IfSome result (IsPlaceOf number volumes.now) }
    ensures none { result ≡ None → volume_of number volumes.now ≡ None }
{
    for place in 0..volumes.len() {
        if volumes[place].number == number {
            return Some(place);
        }
    }
    None
}

/// The least wanted track of the first volume that wants one.
pub fn next_wanted(volumes: &[Volume]) -> Option<(u16, u32)>
    ensures { result ≡ next_wanted volumes.now }
{
    for place in 0..volumes.len() {
        if let Some(track) = volumes[place].next_wanted() {
            return Some((volumes[place].number, track));
        }
    }
    None
}

/// Writes of dropped volumes go into their maps.
pub fn note_writes(volumes: &mut [Volume], writes: &[Write])
    requires { IsTrue (are_within volumes.old writes.now) }
    ensures { volumes.new ≡ with_writes volumes.old writes.now }
{
    for write in writes {
        note_write(volumes, write);
    }
}

/// A write of a dropped volume goes into its map.
fn note_write(volumes: &mut [Volume], write: &Write)
    requires { IsTrue (is_track_within volumes.old write.now.volume write.now.track) }
    ensures { volumes.new ≡ with_write volumes.old write.now }
{
    let Some(place) = place_of(volumes, write.volume) else {
        return;
    };
    volumes[place].note_write(write.track);
}

/// The copied tracks that a cut takes out of a queue are formed.
pub fn form_copies(queue: &Queue, cut: Stamp, volumes: &mut [Volume])
    requires entries { IsTrue (list_all (is_entry_of volumes.old) queue.now.state.waiting) }
    requires counts { CopiesAreCounted queue.now.state.waiting volumes.old }
    ensures formed { volumes.new ≡ with_formed_copies volumes.old (copies (due cut queue.now.state.waiting)) }
    ensures few { length queue.now.state.waiting ≤ queue.now.state.records }
{
    for place in 0..queue.len() {
        if is_due_copy(queue, place, cut) {
            let head = queue.head(place);
            form_copy(volumes, head.volume, head.track);
        }
    }
}

/// Whether the entry at a place is a copied track that a cut takes.
fn is_due_copy(queue: &Queue, place: u32, cut: Stamp) -> bool
    requires { place < length queue.now.state.waiting }
    ensures { (other : WaitingEntry) → result ≡ is_due_copy cut (slice_index_or queue.now.state.waiting place other) }
{
    queue.head(place).stamp.0 <= cut.0 && queue.is_copy(place)
}

/// A copied track of a volume is formed.
fn form_copy(volumes: &mut [Volume], number: u16, track: u32)
    requires { IsTrue (passes (may_form track) (volume_of number volumes.old)) }
    ensures { volumes.new ≡ with_volume number formed_track volumes.old }
{
    let Some(place) = place_of(volumes, number) else {
        return;
    };
    volumes[place].plan.formed(track);
}

/// Whether a copy still has to read a track of a volume.
pub fn wants(volumes: &[Volume], number: u16, track: u32) -> bool
    ensures { result ≡ is_wanted number track volumes.now }
{
    match place_of(volumes, number) {
        Some(place) => volumes[place].wants(track),
        None => false,
    }
}

/// A wanted track of a volume was joined.
pub fn join_copy(volumes: &mut [Volume], number: u16, track: u32)
    requires { is_wanted number track volumes.old ≡ true }
    ensures { volumes.new ≡ with_volume number (copied_track track) volumes.old }
{
    let Some(place) = place_of(volumes, number) else {
        return;
    };
    volumes[place].plan.joined(track);
}

/// A volume is dropped, and its entries are taken out of the queue.
pub fn drop_volume(volumes: &mut [Volume], queue: &mut Queue, number: u16, all: bool)
    requires entries { IsTrue (list_all (is_entry_of volumes.old) queue.old.state.waiting) }
    ensures queue { queue.new.state ≡ with_waiting queue.old.state (without_volume number queue.old.state.waiting) }
    ensures volumes { volumes.new ≡ with_volume number (dropped_volume all (entry_tracks number queue.old.state.waiting)) volumes.old }
{
    let Some(place) = place_of(volumes, number) else {
        return;
    };
    volumes[place].drop_from(queue, all);
}

/// The tracks of a dropped volume's map are wanted again. Tells how many.
pub fn resume(volumes: &mut [Volume], number: u16) -> u32
    requires sizes { IsTrue (list_all has_sizes volumes.old) }
    requires dropped { IsTrue (is_dropped number volumes.old) }
    ensures owed { result ≡ owed number volumes.old }
    ensures volumes { volumes.new ≡ with_volume number resumed_volume volumes.old }
{
    let Some(place) = place_of(volumes, number) else {
        return 0;
    };
    volumes[place].resume()
}

/// Shows the volumes whose plans are done once a form with this cut has taken what is due in the queue.
pub fn show_done(volumes: &[Volume], queue: &Queue, cut: Stamp, out: &mut Formed)
    requires room { length out.old.done + length volumes.now ≤ most_done_of_control * out.old.controls }
    ensures { out.new ≡ record out.old { done = out.old.done ++ numbers_of queue.now.state.control (filter (is_done_after cut queue.now.state.waiting) volumes.now) } }
{
    for place in 0..volumes.len() {
        if volumes[place].is_done_after(queue, cut) {
            out.add_done(queue.control(), volumes[place].number);
        }
    }
}

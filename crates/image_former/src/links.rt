//! The entries of a group that may be on one track, linked in the order of their places.

ghost use Rattle.std.specs.Prelude.{◌≡◌, ◌<◌, ◌≤◌, length};
ghost use Rattle.pending_queue.specs.Groups.{heads};
ghost use Rattle.image_former.specs.Links.{AreEntriesLinked, AreLinkedBack, AreLinkedForth, LeadsBack, LeadsForth, bucket_of, linked_count};

use pending_queue::{EntryHead, Formed};

/// So many entries are linked: the most of a group of 16 controllers. Those of a larger group after them are gone through one by one.
pub(crate) const LINKED: usize = 512;

/// Entries are linked by the bucket of their track. There are twice as many as linked entries, so that few tracks share one.
const BUCKETS: usize = 1_024;

/// The links of a group's entries, each to the next one and to the last one before it whose track has the same bucket.
#[derive(Drop)]
pub(crate) struct Links {
    /// The place of the next one; where there is none, the place after the linked entries.
    forth: [u16; LINKED],
    /// One more than the place of the last one before; 0 where there is none.
    back: [u16; LINKED],
}

/// The bucket of an entry's track.
fn bucket_of(head: EntryHead) -> usize
    ensures bucket { result ≡ bucket_of head }
    ensures within { result < BUCKETS }
{
    let number = u64::from(head.track) + 61 * u64::from(head.volume) + 67 * u64::from(head.control);
    (number % BUCKETS as u64) as usize
}

/// How many entries of a group are linked.
fn linked_count(formed: &Formed) -> usize
    ensures count { result ≡ linked_count (heads formed.now) }
    ensures few { result ≤ LINKED }
    ensures within { result ≤ length formed.now.entries }
{
    LINKED.min(formed.count() as usize)
}

fn link_back(formed: &Formed) -> [u16; LINKED]
    ensures { AreLinkedBack (heads formed.now) result }
{
    let mut back = [0; LINKED];
    let mut last = [0; BUCKETS];
    for place in 0..linked_count(formed) {
        let bucket = bucket_of(formed.head(place as u32));
        back[place] = last[bucket];
        last[bucket] = place as u16 + 1;
    }
    back
}

fn link_forth(formed: &Formed) -> [u16; LINKED]
    ensures { AreLinkedForth (heads formed.now) result }
{
    let count = linked_count(formed);
    let mut forth = [count as u16; LINKED];
    let mut next = [count as u16; BUCKETS];
    for after in 0..count {
        let place = count - 1 - after;
        let bucket = bucket_of(formed.head(place as u32));
        forth[place] = next[bucket];
        next[bucket] = place as u16;
    }
    forth
}

impl Links {
    /// The links of a group.
    pub(crate) fn of(formed: &Formed) -> Links
        ensures { AreEntriesLinked (heads formed.now) result }
    {
        Links {
            forth: link_forth(formed),
            back: link_back(formed),
        }
    }

    /// Where to look next for an entry of the track of the one at a place.
    pub(crate) fn forth(&self, formed: &Formed, place: u32) -> u32
        requires linked { AreEntriesLinked (heads formed.now) self.now }
        requires within { place < length formed.now.entries }
        ensures { LeadsForth (heads formed.now) place result }
    {
        if place < LINKED as u32 {
            u32::from(self.forth[place as usize])
        } else {
            place.saturating_add(1).min(formed.count())
        }
    }

    /// Where to look before it. It is one of the linked entries.
    pub(crate) fn back(&self, formed: &Formed, place: u32) -> Option<u32>
        requires linked { AreEntriesLinked (heads formed.now) self.now }
        requires within { place < length formed.now.entries }
        requires low { place < LINKED }
        ensures { LeadsBack (heads formed.now) place result }
    {
        match self.back[place as usize] {
            0 => None,
            after => Some(u32::from(after - 1)),
        }
    }
}

//! Fronts: what a format keeps of an image, and what it takes of the records that it is given.

ghost use Rattle.std.specs.Prelude.{◌≡◌, ◌≤◌, ◌<◌, ◌^◌, ◌+◌};
ghost use Rattle.ckd_track.specs.Tracks.{capacity};
ghost use Rattle.ckd_track.specs.Heads.{head_size, head_length};
ghost use Rattle.ckd_track.specs.Slots.{IsImage, track_of_image, SpellsRecords, spelled_records};
ghost use Rattle.ckd_track.specs.Places.{no_front, front_after, front_up_to, front_fitting};

use crate::head::Head;
use crate::layout::CAPACITY;
use crate::places::count;

/// Some records in a row: where their spelling ends, how many they are, the room after them, and the last number (0 for none).
#[derive(Clone, Copy, Debug)]
pub struct Front {
    pub end: usize,
    pub count: u16,
    pub room: usize,
    pub last: u8,
}

impl Front {
    /// No record yet, at a place with room after it.
    fn none(end: usize, room: usize) -> Front
        ensures { result ≡ no_front end room }
    {
        Front {
            end,
            count: 0,
            room,
            last: 0,
        }
    }

    /// The front with one more record.
    fn with(self, head: Head) -> Front
        requires end { self.end + head_length head < 2 ^ 64 }
        requires count { self.count + 1 < 2 ^ 16 }
        requires room { head_size head ≤ self.room }
        ensures { result ≡ front_after self head }
    {
        Front {
            end: self.end + head.spelled_length(),
            count: self.count + 1,
            room: self.room - head.size(),
            last: head.number,
        }
    }
}

/// The records of an image with a number up to `after`.
pub fn kept(image: &[u8], after: u8) -> Front
    requires { IsImage image.now }
    ensures { result ≡ front_up_to after (no_front 2 capacity) (track_of_image image.now) }
{
    let count = count(image);
    let (_, mut rest) = image.split_at(2);
    let mut front = Front::none(2, CAPACITY);
    for _ in 0..count {
        let head = Head::first(rest);
        if after < head.number {
            return front;
        }
        let (_, following) = rest.split_at(head.spelled_length());
        rest = following;
        front = front.with(head);
    }
    front
}

/// The given records up to the first that doesn't fit the room.
pub fn fitting_front(given: &[u8], count: u8, room: usize) -> Front
    requires spelled { SpellsRecords count given.now }
    ensures { result ≡ front_fitting (no_front 0 room) (spelled_records count given.now) }
{
    let mut rest = given;
    let mut front = Front::none(0, room);
    for _ in 0..count {
        let head = Head::first(rest);
        if front.room < head.size() {
            return front;
        }
        let (_, following) = rest.split_at(head.spelled_length());
        rest = following;
        front = front.with(head);
    }
    front
}

//! Records that are counted, and their bytes added up.

ghost use Rattle.std.specs.Prelude.{◌≡◌, ◌≤◌, ◌*◌, length, sum};
ghost use Rattle.ckd_track.specs.declared.layout.TheConstants.{CAPACITY};
ghost use Rattle.workload.specs.Tallies.{HasGrown, HasRoomForTracks, no_tally, with_records};

use ckd_track::Track;

/// How many records were counted, and the sum of the bytes of their contents.
#[derive(Clone, Copy, Debug, PartialEq, Eq)]
pub struct Tally {
    pub records: u64,
    pub sum: u64,
}

fn sum_of(bytes: &[u8]) -> u64
    requires { length bytes.now ≤ CAPACITY }
    ensures sum { result ≡ sum bytes.now }
    ensures short { result ≤ 255 * length bytes.now }
{
    let mut sum = 0;
    for byte in bytes {
        sum += u64::from(*byte);
    }
    sum
}

impl Tally {
    /// Nothing was counted.
    pub(crate) fn zero() -> Tally
        ensures { result ≡ no_tally }
    {
        Tally { records: 0, sum: 0 }
    }

    /// With the records of one track more.
    pub(crate) fn with_track(self, track: &Track) -> Tally
        requires { HasRoomForTracks 1 self }
        ensures counts { result ≡ with_records self track.now }
        ensures grows { HasGrown 1 self result }
    {
        let mut tally = self;
        let recs = track.recs();
        for rec in recs {
            tally.records += 1;
            tally.sum += sum_of(rec.content.as_slice());
        }
        tally
    }
}

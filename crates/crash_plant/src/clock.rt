ghost use Rattle.std.specs.Prelude.{◌≡◌, ◌≤◌, ◌+◌, IsTrue, false};
ghost use Rattle.crash_plant.specs.Clock.{clock_of, is_at_end, last_tick};

/// The tick at which a clock stands still. Calls that would raise it fail then.
const LAST: u64 = 1 << 62;

/// Raises a count of ticks by one. It says no where the clock is at its end.
pub(crate) fn raise(ticks: &mut u64) -> bool
    ensures raised { IsTrue result → ticks.new ≡ ticks.old + 1 }
    ensures within { IsTrue result → ticks.new ≤ last_tick }
    ensures at_end { result ≡ false → IsTrue (is_at_end ticks.old) }
    ensures same { result ≡ false → ticks.new ≡ ticks.old }
{
    if *ticks < LAST {
        *ticks += 1;
        true
    } else {
        false
    }
}

/// The moment at a tick.
pub(crate) fn moment(ticks: u64) -> u64
    requires { ticks ≤ last_tick }
    ensures { result ≡ clock_of ticks }
{
    2 * ticks + 1
}

/// The ticks of a plant once a volume is back that it lent at a tick, and that went on since.
pub(crate) fn back(ticks: u64, lent: u64) -> u64
    requires room { lent + 1 ≤ last_tick }
    requires within { ticks ≤ last_tick }
    ensures later { ticks ≤ result }
    ensures after { lent + 1 ≤ result }
    ensures within { result ≤ last_tick }
    ensures by_one { lent ≤ ticks → result ≤ ticks + 1 }
{
    if ticks < LAST {
        (ticks + 1).max(lent + 1)
    } else {
        ticks
    }
}

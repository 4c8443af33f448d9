// Load: the share of the processor's time that a part or a task asks for.
#![tactic(auto)]

ghost use Rattle.std.specs.Prelude.{◌*◌, ◌≤◌, ◌≡◌};
ghost use Rattle.loads.specs.Share.{rounded_up, load_of, RoundedUp};

// The one divided by the other and rounded up.
fn rounded_up(all: u64, ticks: u32) -> u64
    requires some { 1 ≤ ticks }
    requires small { all ≤ 10000 * 4294967295 }
    ensures { result ≡ rounded_up all ticks }
{
    // as the definition says it: `div_ceil` goes by a remainder, and a lemma would have to join the two
    (all + u64::from(ticks - 1)) / u64::from(ticks)
}

// The load of so many units in so many ticks, in ten-thousandths, rounded up; 0 in no ticks.
pub fn load(units: u32, ticks: u32) -> u64
    ensures value { result ≡ load_of units ticks }
    ensures rounded { 1 ≤ ticks → RoundedUp (10000 * units) ticks result }
{
    if ticks == 0 {
        return 0;
    }
    rounded_up(10_000 * u64::from(units), ticks)
}

// Going round a cycle of places: the step from one place to the next.
#![tactic(auto)]

ghost use Rattle.std.specs.Prelude.{◌≡◌};
ghost use Rattle.cycles.specs.Round.{next};

// The place after `place` in a cycle of `size` places, which are numbered from 0.
pub fn step(size: u32, place: u32) -> u32
    ensures { result ≡ next size place }
{
    if place < size && place + 1 < size {
        place + 1
    } else {
        0
    }
}

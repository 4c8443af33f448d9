// Work that goes before all tasks: what a source answers, how a gate is driven, and two of them side by side.
#![tactic(auto)]

ghost use Rattle.std.specs.Prelude.{◌≡◌, ℕ, ◌≤◌, true, false};
ghost use Rattle.source.specs.Facts.{Work, Moves, demand_answer, allowance_answer, offerable, Sound, Taken, Ticked, Driven};

pub mod pair;

// The longest window that a source is asked about.
pub const LONGEST: u32 = 1_000_000;

const _: () = prove!(LONGEST == 1_000_000);

// The most parts that a source has.
pub const MOST_PARTS: u32 = 1000;

const _: () = prove!(MOST_PARTS == 1000);

// Work that goes before all tasks, in parts that are numbered from 1.
//
// work is what the source brings: how many parts it has, and the most that each brings in any so many ticks in a row; it is fixed.
// allowed s k l is the most that part k may still bring in the next l ticks, from the state s on. Questions change nothing.
pub trait Source {
    ghost work: { Self → Work };

    ghost allowed: { Self → ℕ → ℕ → ℕ };

    // How many parts there are: at most 1,000.
    fn count(&self) -> u32
        ensures { result ≡ (work self.now).parts };

    // The demand of a part over a window, or None if there is no such part or the window is above 1,000,000 ticks.
    fn demand(&self, part: u32, ticks: u32) -> Option<u64>
        ensures { result ≡ demand_answer (work self.now) part ticks };

    // The allowance of a part for one tick, or None if there is no such part.
    fn allowance(&self, part: u32) -> Option<u64>
        ensures { result ≡ allowance_answer (work self.now).parts (allowed self.now) part };

    ghost sound: { (s : Self) → Sound (work s) (allowed s) };
}

// A source that can be driven: it takes offers of units, and time passes.
//
// That the work is kept stands at each call, though the law `driven` says it too, so that nobody has to cite the law for it.
pub trait Gate: Source {
    ghost moves: { Moves Self };

    // Offers units to a part. They are taken, and the answer is true, exactly when there is such a part and they are
    // from 1 to its allowance for one tick; else nothing changes. A bool: whoever drives a gate knows why it refuses.
    fn offer(&mut self, part: u32, units: u64) -> bool
        ensures answer { result ≡ offerable (Self.Source.work self.old).parts (Self.Source.allowed self.old) part units }
        ensures refused { result ≡ false → self.new ≡ self.old }
        ensures kept { Self.Source.work self.new ≡ Self.Source.work self.old }
        ensures takes { result ≡ true → moves.takes self.old part units self.new }
        ensures taken { result ≡ true → Taken (Self.Source.allowed self.old) part units (Self.Source.allowed self.new) };

    // One tick passes. It is never refused.
    fn tick(&mut self)
        ensures kept { Self.Source.work self.new ≡ Self.Source.work self.old }
        ensures ticks { moves.ticks self.old self.new }
        ensures ticked { Ticked (Self.Source.allowed self.old) (Self.Source.allowed self.new) };

    ghost driven: { Driven Self.Source.work Self.Source.allowed moves };
}

// Offers a part all that it may bring in this tick, and says how much that was: a count of units, 0 also for a number that is no
// part.
#[tactic(auto, using(crate::proofs::Offering::nothing_offered))]
pub fn offer_all<G: Gate>(bank: &mut G, part: u32) -> u64
    ensures units { result ≡ G.allowed bank.old part 1 }
    ensures kept { G.work bank.new ≡ G.work bank.old }
    ensures refused { result ≡ 0 → bank.new ≡ bank.old }
    ensures empty { G.allowed bank.new part 1 ≡ 0 }
    ensures takes { 1 ≤ result → G.moves.takes bank.old part result bank.new }
{
    let units = bank.allowance(part).unwrap_or(0);
    if bank.offer(part, units) { units } else { 0 }
}

// Pairs of offset and length, and the largest sum of lengths in a window shorter than the cycle.
ghost use Rattle.std.specs.Prelude.{◌≡◌, ◌+◌, ◌<◌, ◌≤◌, length};
ghost use Rattle.cycles.specs.Round.{sum};
ghost use Rattle.schedule.specs.Phases.{offset_of, length_of, length_at, demand_of, FitPairs};
ghost use Rattle.schedule.specs.Twice.{offset_twice, length_twice, met_from, LieBefore, Ends};

// A pair: from `offset` on in each cycle, work of `length` units.
#[derive(Clone, Copy, Default)]
pub struct Slot {
    pub offset: u32,
    pub length: u32,
}

// How far a window reaches: the places before `end`, of two cycles in a row, lie within it, and their lengths come to
// `sum`.
#[derive(Clone, Copy)]
struct Reach {
    end: usize,
    sum: u32,
}

// The pairs in use and the cycle that they lie in: the offsets strictly rise and are below the cycle.
#[derive(Clone, Copy)]
pub(crate) struct Round<'a> {
    pub(crate) slots: &'a [Slot],
    pub(crate) cycle: u32,
    ghost fit: { FitPairs cycle slots.now },
}

impl<'a> Round<'a> {
    // The pair at a place of two cycles in a row.
    fn slot_at(&self, place: usize) -> Slot
        requires { place < length self.now.slots.now + length self.now.slots.now }
        ensures offset { result.offset ≡ offset_twice self.now.cycle self.now.slots.now place }
        ensures length { result.length ≡ length_twice self.now.slots.now place }
    {
        if place < self.slots.len() {
            self.slots[place]
        } else {
            let slot = self.slots[place - self.slots.len()];
            Slot {
                offset: slot.offset + self.cycle,
                ..slot
            }
        }
    }

    // The same window with its end moved on to `until`, but not past the place `limit`.
    #[tactic(auto, using(crate::proofs::Slots::sum_twice_small))]
    fn moved_on(&self, mut reach: Reach, until: u32, limit: usize) -> Reach
        requires limit { limit ≤ length self.now.slots.now + length self.now.slots.now }
        requires end { reach.end ≤ limit }
        requires sum { reach.sum ≡ sum (length_twice self.now.slots.now) reach.end }
        requires before { LieBefore self.now.cycle self.now.slots.now reach.end until }
        ensures sum { result.sum ≡ sum (length_twice self.now.slots.now) result.end }
        ensures ends { Ends self.now.cycle self.now.slots.now until limit result.end }
    {
        // the end moves on from one call to the next, so it is a place and no iterator
        while reach.end < limit {
            let slot = self.slot_at(reach.end);
            if slot.offset >= until {
                return reach;
            }
            reach.sum += slot.length;
            reach.end += 1;
        }
        reach
    }

    // The same window with its end moved on as far as it reaches in `ticks` ticks from the pair that is at the place `start`.
    // The pair is handed over: read again by its place, a search takes more than twice as long.
    #[tactic(auto, using(crate::proofs::Slots::window_is))]
    fn moved_from(&self, reach: Reach, start: usize, slot: Slot, ticks: u32) -> Reach
        requires place { start < length self.now.slots.now }
        requires pair { slot.offset ≡ offset_of self.now.slots.now start }
        requires ticks { ticks < self.now.cycle }
        requires end { reach.end ≤ length self.now.slots.now + start }
        requires sum { reach.sum ≡ sum (length_twice self.now.slots.now) reach.end }
        requires before { LieBefore self.now.cycle self.now.slots.now reach.end (offset_of self.now.slots.now start + ticks) }
        ensures sum { result.sum ≡ sum (length_twice self.now.slots.now) result.end }
        ensures end { result.end ≤ length self.now.slots.now + start }
        ensures before { LieBefore self.now.cycle self.now.slots.now result.end (offset_of self.now.slots.now start + ticks) }
        ensures met { sum (length_of self.now.slots.now) start + met_from self.now.cycle self.now.slots.now ticks start ≡ sum (length_twice self.now.slots.now) result.end }
    {
        self.moved_on(reach, slot.offset + ticks, self.slots.len() + start)
    }

    // The largest sum of lengths met in `ticks` ticks, fewer than the cycle has, from any phase on: the largest from a pair.
    // As the project wants it, a loop goes over the pairs with their index, sums and keeps the largest.
    #[tactic(auto, using(crate::proofs::Slots::sum_small, crate::proofs::Slots::pairs_are_worst, cycles::proofs::Rounds::larger_next, crate::proofs::Slots::before_next))]
    pub(crate) fn largest_met(&self, ticks: u32) -> u32
        requires { ticks < self.now.cycle }
        ensures { result ≡ demand_of self.now.cycle self.now.slots.now ticks }
    {
        let mut best = 0;
        let mut passed = 0;
        let mut reach = Reach { end: 0, sum: 0 };
        for (start, slot) in self.slots.iter().enumerate() {
            reach = self.moved_from(reach, start, *slot, ticks);
            best = best.max(reach.sum - passed);
            passed += slot.length;
        }
        best
    }

    // The length at a phase: that of the pair there, or 0, which is how much may be offered where there is none. As the
    // project wants it, a loop over the pairs sums.
    #[tactic(auto, using(crate::proofs::Slots::found_small))]
    pub(crate) fn length_at(&self, phase: u32) -> u32
        ensures { result ≡ length_at self.now.slots.now phase }
    {
        let mut found = 0;
        for slot in self.slots {
            if slot.offset == phase {
                found += slot.length;
            }
        }
        found
    }
}

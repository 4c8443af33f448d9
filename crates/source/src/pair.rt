// Two sources, or two gates, side by side: again one.
ghost use Rattle.std.specs.Prelude.{◌≡◌};
ghost use Rattle.source.specs.Sides.{both, beside, TakesBeside};
ghost use Rattle.source.specs.Besides.{beside_sound, pair_taken, pair_ticked};

use crate::{Gate, MOST_PARTS, Source};

// The parts of the left one come first. If the two have more than 1,000 parts, those beyond are absent.
#[derive(Drop)]
pub struct Pair<A, B> {
    pub left: A,
    pub right: B,
}

impl<A, B> Pair<A, B> {
    pub fn new(left: A, right: B) -> Pair<A, B>
        ensures left { result.left ≡ left }
        ensures right { result.right ≡ right }
    {
        Pair { left, right }
    }
}

impl<A: Source, B: Source> Source for Pair<A, B> {
    ghost work = { λ s. both (A.work s.left) (B.work s.right) };

    ghost allowed = { λ s. beside (A.work s.left).parts (A.allowed s.left) (B.allowed s.right) };

    ghost sound = { λ s. beside_sound _ _ _ _ (A.sound s.left) (B.sound s.right) };

    fn count(&self) -> u32 {
        (self.left.count() + self.right.count()).min(MOST_PARTS)
    }

    // the side is chosen by the number in each call: a value for the side would only be matched again
    fn demand(&self, part: u32, ticks: u32) -> Option<u64> {
        let lefts = self.left.count();
        if part <= lefts {
            self.left.demand(part, ticks)
        } else if part <= MOST_PARTS {
            self.right.demand(part - lefts, ticks)
        } else {
            None
        }
    }

    fn allowance(&self, part: u32) -> Option<u64> {
        let lefts = self.left.count();
        if part <= lefts {
            self.left.allowance(part)
        } else if part <= MOST_PARTS {
            self.right.allowance(part - lefts)
        } else {
            None
        }
    }
}

impl<A: Gate, B: Gate> Gate for Pair<A, B> {
    ghost moves = { record {
      takes = λ s k u t. TakesBeside A.moves B.moves (A.Source.work s.left).parts s.left s.right k u t.left t.right;
      ticks = λ s t. A.moves.ticks s.left t.left × B.moves.ticks s.right t.right;
    } };

    ghost driven = { record {
      taken = λ s t k u h. pair_taken _ _ _ _ _ _ A.driven B.driven s.left t.left s.right t.right k u h;
      ticked = λ s t h. pair_ticked _ _ _ _ _ _ A.driven B.driven s.left t.left s.right t.right h;
    } };

    fn offer(&mut self, part: u32, units: u64) -> bool {
        let lefts = self.left.count();
        if part <= lefts {
            self.left.offer(part, units)
        } else if part <= MOST_PARTS {
            self.right.offer(part - lefts, units)
        } else {
            false
        }
    }

    fn tick(&mut self) {
        self.left.tick();
        self.right.tick();
    }
}

// One paced part by itself.
ghost use Rattle.std.specs.Prelude.{◌≡◌, IfOk};
ghost use Rattle.std.specs.Result.{result_err};
ghost use Rattle.refusal.specs.Laws.{FirstBroken};
ghost use Rattle.refusal.specs.Refusals.{refusal_of, fault_in};
ghost use Rattle.source.proofs.Gates.{one_sound, one_taken, one_ticked};
ghost use Rattle.source.specs.Rows.{work_one, allowed_one, GivesOne};
ghost use Rattle.paced.specs.Makes.{asked, fault_of, fresh, PaceBreaks};
ghost use Rattle.paced.specs.Pace.{later, Fit, paced};
ghost use Rattle.paced.specs.Rows.{paced_owes};

use crate::row::{Pace, Row};
use refusal::Refusal;
use source::{Gate, LONGEST, Source};
use std::marker::Model;

// A gate of one part, seen as its row.
#[derive(Clone, Copy)]
pub struct Paced {
    row: Row,
    ghost fit: { Fit row },
}

impl Model for Paced {
    ghost use Rattle.paced.specs.Tables.{FitRow};

    ghost Value = { FitRow };

    ghost view = { λ p. record { row = p.row; fit = p.fit } };

    // it forgets nothing, so a part can be copied
    ghost inverse = { λ v. record { row = v.row; fit = v.fit } };
}

impl Paced {
    // The part with these numbers, with level and place 0, or a refusal: more than 8 costs; a period or cost of 0, no
    // cost or a number above 1,000,000; a jitter that is not below the period.
    pub fn new(pace: Pace) -> Result<Paced, Refusal>
        ensures answer { result_err result ≡ refusal_of (fault_of (asked pace.entry)) 0 }
        ensures made { IfOk result (λ part. part.row ≡ fresh (asked pace.entry)) }
        ensures first { FirstBroken (PaceBreaks (asked pace.entry)) (fault_in (result_err result)) }
    {
        let row = Row::new(pace)?;
        Ok(Paced { row })
    }
}

// A schedule answers alike as the one part 1: a trait of one part would carry the laws of a source and a gate once more, which is more
// than these lines.
impl Source for Paced {
    ghost work = { λ s. work_one paced s.row };

    ghost allowed = { λ s. allowed_one paced s.row };

    ghost sound = { λ s. one_sound paced paced_owes s.row s.fit };

    fn count(&self) -> u32 {
        1
    }

    fn demand(&self, part: u32, ticks: u32) -> Option<u64> {
        (part == 1 && ticks <= LONGEST).then(|| self.row.demand(ticks))
    }

    fn allowance(&self, part: u32) -> Option<u64> {
        (part == 1).then(|| u64::from(self.row.allowance()))
    }
}

impl Gate for Paced {
    ghost moves = { record {
      takes = λ s k u t. GivesOne paced s.row k u t.row;
      ticks = λ s t. t.row ≡ later s.row;
    } };

    ghost driven = { record {
      taken = λ s t k u gives. one_taken paced paced_owes s.row t.row k u s.fit gives;
      ticked = λ s t passed. one_ticked paced paced_owes s.row t.row s.fit passed;
    } };

    fn offer(&mut self, part: u32, units: u64) -> bool {
        if part != 1 || units < 1 || units > u64::from(self.row.allowance()) {
            return false;
        }
        self.row.give();
        true
    }

    #[tactic(auto, using(crate::proofs::Ticks::later_ticked))]
    fn tick(&mut self) {
        self.row.lower();
    }
}

// The fixed schedule of functions that a panel repeats.
ghost use Rattle.std.specs.Prelude.{◌≡◌, ◌+◌, ◌<◌, ◌≤◌, length, take, IfOk, IsTrue, OnOk, OnErr};
ghost use Rattle.std.specs.Result.{result_err};
ghost use Rattle.cycles.specs.Round.{next};
ghost use Rattle.loads.specs.Share.{load_of};
ghost use Rattle.source.specs.Rows.{work_one, allowed_one, GivesOne};
ghost use Rattle.source.proofs.Gates.{one_sound, one_taken, one_ticked};
ghost use Rattle.refusal.specs.Laws.{FirstBroken};
ghost use Rattle.refusal.specs.Refusals.{refusal_of, fault_in};
ghost use Rattle.schedule.specs.Makes.{cycle_fault, opened, follows, pair_fault, with_pair, CycleBreaks, PairBreaks};
ghost use Rattle.schedule.specs.Phases.{total_length, demand, allowance, later, timetables, Fit, FitTimetable};
ghost use Rattle.schedule.specs.Timetables.{timetables_owe};

use crate::slot::{Round, Slot};
use cycles::step;
use loads::load;
use refusal::{Fault, Refusal};
use source::{Gate, LONGEST, Source};
use std::marker::Model;

// How many pairs a schedule has room for.
pub const PAIRS: u32 = 64;

const _: () = prove!(PAIRS == 64);

// A cycle of 1 or more ticks and up to 64 pairs of offset and length, the offsets strictly rising and below the cycle.
// `phase` is the present tick of the cycle, `taken` whether its pair was offered already. `whole` is the sum of all
// lengths, kept so that it is added up once, a pair at a time, and not at each question.
// The first `count` of `slots` are in use: the project wants parts in fixed memory, and not on the heap.
#[derive(Drop)]
pub struct Schedule {
    cycle: u32,
    count: u32,
    slots: [Slot; 64],
    whole: u32,
    phase: u32,
    taken: bool,
    ghost fit: { Fit (record { cycle = cycle; pairs = take count slots; phase = phase; taken = taken }) },
}

// What is seen of a schedule is its timetable. What holds of that is seen with it, since the laws of a source and a gate need it; what holds
// of the fields alone is the invariant.
impl Model for Schedule {
    ghost Value = { FitTimetable };

    ghost view = { λ s. record {
      timetable = record { cycle = s.cycle; pairs = take s.count s.slots; phase = s.phase; taken = s.taken };
      fit = s.fit;
    } };

    ghost invariant = { λ s. (length s.slots ≡ 64) × (s.count ≤ 64) × (s.whole ≡ total_length (take s.count s.slots)) };
}

impl Schedule {
    // A schedule with no pair, at phase 0, or a refusal: a cycle of 0 or above 1,000,000.
    pub fn new(cycle: u32) -> Result<Schedule, Refusal>
        ensures answer { result_err result ≡ refusal_of (cycle_fault cycle) 0 }
        ensures made { IfOk result (λ schedule. schedule.timetable ≡ opened cycle) }
        ensures first { FirstBroken (CycleBreaks cycle) (fault_in (result_err result)) }
    {
        if cycle < 1 || cycle > LONGEST {
            return Err(Refusal::plain(Fault::OutOfRange));
        }
        let slots = [Slot::default(); 64];
        Ok(Schedule {
            cycle,
            count: 0,
            slots,
            whole: 0,
            phase: 0,
            taken: false,
        })
    }

    // Whether an offset lies below the cycle, and above that of the last pair.
    fn follows(&self, offset: u32) -> bool
        ensures { result ≡ follows self.now.timetable.cycle self.now.timetable.pairs offset }
    {
        let used = &self.slots[..self.count as usize];
        offset < self.cycle && used.last().is_none_or(|last| last.offset < offset)
    }

    // Whether one more pair can be added, or what is wrong with it, by the first test that is not passed.
    fn check(&self, offset: u32, units: u32) -> Result<(), Fault>
        ensures answer { result_err result ≡ pair_fault self.now.timetable offset units }
        ensures room { OnOk result (length self.now.timetable.pairs < 64) }
        ensures small { OnOk result (units ≤ 1000000) }
        ensures follows { OnOk result (IsTrue (follows self.now.timetable.cycle self.now.timetable.pairs offset)) }
    {
        if self.count >= PAIRS {
            return Err(Fault::TooMany);
        }
        if offset > LONGEST || units < 1 || units > LONGEST {
            return Err(Fault::OutOfRange);
        }
        if !self.follows(offset) {
            return Err(Fault::Misfit);
        }
        Ok(())
    }

    // The sum of all lengths, with that of one pair more.
    #[tactic(auto, using(crate::proofs::Slots::sum_small))]
    fn whole_with(&self, slot: Slot) -> u32
        requires count { length self.now.timetable.pairs < 64 }
        requires length { slot.length ≤ 1000000 }
        ensures { result ≡ total_length self.now.timetable.pairs + slot.length }
    {
        self.whole + slot.length
    }

    // One pair more behind the others, or a refusal: a 65th pair; a length of 0 or a number above 1,000,000; an offset
    // that is not below the cycle or not above that of the last pair.
    pub fn add(&mut self, offset: u32, length: u32) -> Result<(), Refusal>
        ensures answer { result_err result ≡ refusal_of (pair_fault self.old.timetable offset length) 0 }
        ensures added { OnOk result (self.new.timetable ≡ with_pair self.old.timetable offset length) }
        ensures refused { OnErr result (self.new ≡ self.old) }
        ensures first { FirstBroken (PairBreaks self.old.timetable offset length) (fault_in (result_err result)) }
    {
        self.check(offset, length)?;
        let slot = Slot { offset, length };
        let whole = self.whole_with(slot);
        let mut slots = self.slots;
        slots[self.count as usize] = slot;
        self.slots = slots;
        self.whole = whole;
        self.count += 1;
        Ok(())
    }

    // The share of the processor's time that the schedule asks for, in ten-thousandths: all its lengths come once a cycle.
    pub fn load(&self) -> u64
        ensures { result ≡ load_of (total_length self.now.timetable.pairs) self.now.timetable.cycle }
    {
        load(self.whole, self.cycle)
    }

    // Its pairs in use, and its cycle.
    fn round(&self) -> Round<'_>
        ensures slots { result.slots.now ≡ self.now.timetable.pairs }
        ensures cycle { result.cycle ≡ self.now.timetable.cycle }
    {
        Round {
            slots: &self.slots[..self.count as usize],
            cycle: self.cycle,
        }
    }

    // The largest sum of lengths met in `ticks` ticks, from any phase on.
    #[tactic(auto, using(crate::specs::Timetables::demand_split))]
    fn largest(&self, ticks: u32) -> u64
        ensures { result ≡ demand self.now.timetable ticks }
    {
        let cycles = ticks / self.cycle;
        let rest = self.round().largest_met(ticks % self.cycle);
        u64::from(cycles) * u64::from(self.whole) + u64::from(rest)
    }

    // The phase a tick later: one on, and from the last of the cycle back to 0.
    fn next_phase(&self) -> u32
        ensures { result ≡ next self.now.timetable.cycle self.now.timetable.phase }
    {
        step(self.cycle, self.phase)
    }

    // The most that may be offered now.
    fn open(&self) -> u32
        ensures { result ≡ allowance self.now.timetable 1 }
    {
        if self.taken {
            return 0;
        }
        self.round().length_at(self.phase)
    }
}

// A paced part answers alike as the one part 1: a trait of one part would carry the laws of a source and a gate once more, which is more
// than these lines.
impl Source for Schedule {
    ghost work = { λ s. work_one timetables s.timetable };

    ghost allowed = { λ s. allowed_one timetables s.timetable };

    ghost sound = { λ s. one_sound timetables timetables_owe s.timetable s.fit };

    fn count(&self) -> u32 {
        1
    }

    fn demand(&self, part: u32, ticks: u32) -> Option<u64> {
        (part == 1 && ticks <= LONGEST).then(|| self.largest(ticks))
    }

    fn allowance(&self, part: u32) -> Option<u64> {
        (part == 1).then(|| u64::from(self.open()))
    }
}

impl Gate for Schedule {
    ghost moves = { record {
      takes = λ s k u t. GivesOne timetables s.timetable k u t.timetable;
      ticks = λ s t. t.timetable ≡ later s.timetable;
    } };

    ghost driven = { record {
      taken = λ s t k u gives. one_taken timetables timetables_owe s.timetable t.timetable k u s.fit gives;
      ticked = λ s t e. one_ticked timetables timetables_owe s.timetable t.timetable s.fit e;
    } };

    fn offer(&mut self, part: u32, units: u64) -> bool {
        if part != 1 || units < 1 || units > u64::from(self.open()) {
            return false;
        }
        self.taken = true;
        true
    }

    #[tactic(auto, using(crate::specs::Timetables::later_ticked))]
    fn tick(&mut self) {
        self.phase = self.next_phase();
        self.taken = false;
    }
}

// Tables of paced parts: plain rows, of which the table says what they keep to.
ghost use Rattle.std.specs.Prelude.{◌≡◌, ℕ, ◌-◌, ◌<◌, ◌≤◌, ◌++◌, [], ◌∷◌, All, min, length, take, Some, None, MatchOption, IfSome, OnOk, OnErr, nat_lt, slice_set};
ghost use Rattle.std.specs.Result.{result_err};
ghost use Rattle.std.proofs.Common.{arith};
ghost use Rattle.refusal.specs.Laws.{FirstBroken};
ghost use Rattle.refusal.specs.Refusals.{refusal_of, fault_in};
ghost use Rattle.source.proofs.Gates.{list_sound, list_taken, list_ticked};
ghost use Rattle.source.specs.Rows.{Gives, Passes};
ghost use Rattle.paced.specs.Loads.{row_load};
ghost use Rattle.paced.specs.Makes.{asked, adding, fresh, PartBreaks};
ghost use Rattle.paced.specs.Pace.{Fit, largest_cost, paced};
ghost use Rattle.paced.specs.Rows.{paced_owes};
ghost use Rattle.paced.specs.Tables.{part_at, told_of, work_in, allowances_in};

use crate::row::{Pace, Row};
use refusal::{Fault, Refusal};
use source::{Gate, LONGEST, MOST_PARTS, Source};
use std::marker::Model;

// Up to `ROOM` paced parts, side by side, in the order in which they were added, seen as the list of their rows; never more than the
// 1,000 that a source may have. The rows are plain; what every row in use keeps to stands here, among it that its level never passes
// jitter plus period.
#[derive(Drop)]
pub struct Table<const ROOM: usize> {
    // rows and how many are in use: a rule of the project, which has fixed memory and no heap here; and a method that changes rows
    // copies them, changes the copy and writes it back whole
    rows: [Row; ROOM],
    count: u32,
    ghost held: { length rows ≡ ROOM },
    ghost room: { count ≤ ROOM },
    ghost few: { length (take count rows) ≤ min ROOM 1000 },
    ghost fit: { All Fit (take count rows) },
}

impl<const ROOM: usize> Model for Table<ROOM> {
    ghost use Rattle.std.specs.Prelude.{take};
    ghost use Rattle.paced.specs.Tables.{FitRows};

    ghost Value = { FitRows ROOM };

    ghost view = { λ t. record { list = take t.count t.rows; few = t.few; fit = t.fit } };
}

impl<const ROOM: usize> Table<ROOM> {
    // A table with no part.
    pub fn new() -> Self
        ensures { result.list ≡ [] }
    {
        let rows = [Row::default(); ROOM];
        Table { rows, count: 0 }
    }

    // The rows of the parts, in order.
    fn rows(&self) -> &[Row]
        ensures rows { result.now ≡ self.now.list }
        ensures few { length result.now ≤ min ROOM 1000 }
        ensures fit { All Fit result.now }
    {
        &self.rows[..self.count as usize]
    }

    // Whether there is room for one part more.
    fn has_room(&self) -> bool
        ensures { result ≡ nat_lt (length self.now.list) (min ROOM 1000) }
    {
        self.rows().len() < ROOM.min(MOST_PARTS as usize)
    }

    // The row of a part, or None if there is no such part.
    fn row(&self, part: u32) -> Option<&Row>
        ensures row { MatchOption result (part_at self.now.list part ≡ None) (λ row. part_at self.now.list part ≡ Some row.now) }
        ensures fit { IfSome result (λ row. Fit row.now) }
    {
        let place = part.checked_sub(1)?;
        self.rows().get(place as usize)
    }

    // What is wrong with one part more, by the first test that is not passed.
    fn found(&self, pace: Pace) -> Option<Fault>
        ensures { result ≡ adding (min ROOM 1000) (length self.now.list) (asked pace.entry) }
    {
        if !self.has_room() {
            return Some(Fault::TooMany);
        }
        pace.fault()
    }

    // What is wrong with one part more, if anything is: an option, as `first_fault` takes two.
    pub fn fault(&self, pace: Pace) -> Option<Fault>
        ensures answer { result ≡ adding (min ROOM 1000) (length self.now.list) (asked pace.entry) }
        ensures first { FirstBroken (PartBreaks (min ROOM 1000) (length self.now.list) (asked pace.entry)) result }
    {
        self.found(pace)
    }

    // The largest cost of a part, or None if there is no such part.
    pub fn largest_cost(&self, part: u32) -> Option<u32>
        ensures { result ≡ told_of largest_cost self.now.list part }
    {
        Some(self.row(part)?.largest_cost())
    }

    // The share of the processor's time that a part asks for, in ten-thousandths, or None if there is no such part.
    pub fn load(&self, part: u32) -> Option<u64>
        ensures { result ≡ told_of row_load self.now.list part }
    {
        Some(self.row(part)?.load())
    }

    // Puts a row at a place in use.
    fn put(&mut self, place: u32, row: Row)
        requires place { place < length self.old.list }
        requires fit { Fit row }
        ensures { self.new.list ≡ slice_set self.old.list place row }
    {
        let mut moved = self.rows;
        moved[place as usize] = row;
        self.rows = moved;
    }

    // One part more behind the others, with level and place 0, or a refusal with line 0 and task 0: no room or more than 8 costs; a
    // period or cost of 0, no cost or a number above 1,000,000; a jitter that is not below the period.
    pub fn add(&mut self, pace: Pace) -> Result<(), Refusal>
        ensures answer { result_err result ≡ refusal_of (adding (min ROOM 1000) (length self.old.list) (asked pace.entry)) 0 }
        ensures added { OnOk result (self.new.list ≡ self.old.list ++ fresh (asked pace.entry) ∷ []) }
        ensures refused { OnErr result (self.new ≡ self.old) }
        ensures first { FirstBroken (PartBreaks (min ROOM 1000) (length self.old.list) (asked pace.entry)) (fault_in (result_err result)) }
    {
        self.fault(pace).map_or(Ok(()), Err)?;
        let row = pace.fresh_row();
        let mut grown = self.rows;
        grown[self.count as usize] = row;
        self.rows = grown;
        self.count += 1;
        Ok(())
    }
}

impl<const ROOM: usize> Source for Table<ROOM> {
    ghost work = { λ s. work_in s.list };

    ghost allowed = { λ s. allowances_in s.list };

    ghost sound = { λ s. list_sound paced paced_owes s.list (omega (arith, s.few)) s.fit };

    fn count(&self) -> u32 {
        self.rows().len() as u32
    }

    fn demand(&self, part: u32, ticks: u32) -> Option<u64> {
        let row = self.row(part)?;
        (ticks <= LONGEST).then(|| row.demand(ticks))
    }

    fn allowance(&self, part: u32) -> Option<u64> {
        Some(u64::from(self.row(part)?.allowance()))
    }
}

impl<const ROOM: usize> Gate for Table<ROOM> {
    ghost moves = { record {
      takes = λ s k u t. Gives paced s.list k u t.list;
      ticks = λ s t. Passes paced s.list t.list;
    } };

    ghost driven = { record {
      taken = λ s t k u gives. list_taken paced paced_owes s.list k u t.list s.fit gives;
      ticked = λ s t passes. list_ticked paced paced_owes s.list t.list s.fit passes;
    } };

    fn offer(&mut self, part: u32, units: u64) -> bool {
        let Some(row) = self.row(part) else {
            return false;
        };
        let mut row = *row;
        if units < 1 || units > u64::from(row.allowance()) {
            return false;
        }
        row.give();
        self.put(part - 1, row);
        true
    }

    #[tactic(auto, using(crate::proofs::Ticks::ticks_on))]
    fn tick(&mut self) {
        let mut rows = self.rows;
        for row in rows.iter_mut() {
            row.lower();
        }
        self.rows = rows;
    }
}

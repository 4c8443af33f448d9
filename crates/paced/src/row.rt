// One row of paced work, and what a table of such rows asks of each.
ghost use Rattle.std.specs.Prelude.{◌≡◌, ℕ, ◌-◌, ◌<◌, ◌≤◌, ◌++◌, length, replicate, IfOk, if◌then◌else◌, nat_le, nat_lt};
ghost use Rattle.std.specs.Result.{result_err};
ghost use Rattle.refusal.specs.Laws.{FirstBroken};
ghost use Rattle.cycles.specs.Round.{sum, top};
ghost use Rattle.paced.specs.Makes.{asked, in_range, all_in_range, given_right, fault_of, fresh, PaceBreaks};
ghost use Rattle.paced.specs.Loads.{row_load};
ghost use Rattle.paced.specs.Pace.{largest_cost, coming, demand, allowance, given, later, Fit};
ghost use Rattle.paced.specs.Runs.{at, largest as largest_sum};

use cycles::step;
use loads::load;
use refusal::Fault;

// Every number given is at most this.
pub const LARGEST: u32 = 1_000_000;

const _: () = prove!(LARGEST == 1_000_000);

// What is given of a paced part: an arrival at most every `period` ticks, each offered up to `jitter` ticks late, for
// these costs in turn.
#[derive(Clone, Copy)]
pub struct Pace<'a> {
    pub period: u32,
    pub jitter: u32,
    pub costs: &'a [u32],
}

// A paced part: an arrival at most every `period` ticks, each offered up to `jitter` ticks late, for the costs
// 0 to `count` - 1 in turn. `level` is how far the offers are ahead of the pace, `place` that of the next cost.
// It is plain: an unused place of a table is a row of zeros, which is not fit, so the methods ask for a fit row, and a table knows its rows
// in use to be.
#[derive(Clone, Copy, Default)]
pub struct Row {
    pub period: u32,
    pub jitter: u32,
    // costs and how many are in use: a rule of the project, which has fixed memory and no heap here
    pub count: u32,
    pub costs: [u32; 8],
    pub level: u32,
    pub place: u32,
}

// Whether a number that must not be 0 may be given.
pub fn in_range(x: u32) -> bool
    ensures { result ≡ in_range x }
{
    (1..=LARGEST).contains(&x)
}

// Whether each cost may be given.
fn all_in_range(costs: &[u32]) -> bool
    ensures { result ≡ all_in_range costs.now }
{
    costs.iter().all(|cost| in_range(*cost))
}

// Up to 8 costs in a table of 8, with 0 after the last. Four private functions ask for 8 costs at most: a type with that
// fact would be made for each call, of a slice or of a part of an array.
fn padded(costs: &[u32]) -> [u32; 8]
    requires { length costs.now ≤ 8 }
    ensures { result ≡ costs.now ++ replicate (8 - length costs.now) 0 }
{
    let mut table = [0; 8];
    table[..costs.len()].copy_from_slice(costs);
    table
}

// The sum of all costs.
fn whole(costs: &[u32]) -> u32
    requires few { length costs.now ≤ 8 }
    requires small { (i : ℕ) → at costs.now i ≤ 1000000 }
    ensures { result ≡ sum (at costs.now) (length costs.now) }
{
    let mut all = 0;
    // a rule of the project: costs are added up by a loop
    for cost in costs {
        all += *cost;
    }
    all
}

// The largest of some costs.
fn largest(costs: &[u32]) -> u32
    ensures { result ≡ top (at costs.now) (length costs.now) }
{
    let mut most = 0;
    // a rule of the project: the largest cost is kept in a loop
    for cost in costs {
        most = most.max(*cost);
    }
    most
}

// A place at most a round past the last, back within the cycle.
fn wrapped(size: usize, place: usize) -> usize
    ensures { result ≡ (if nat_lt place size then place else place - size) }
{
    if place < size { place } else { place - size }
}

// The largest sum of `m` successive costs from any place, where that is less than a round.
#[tactic(auto, using(crate::proofs::Runs::window_slides, crate::proofs::Runs::best_grows))]
fn largest_part(costs: &[u32], m: u32) -> u32
    requires few { length costs.now ≤ 8 }
    requires small { (i : ℕ) → at costs.now i ≤ 1000000 }
    requires short { m < length costs.now }
    ensures { result ≡ largest_sum (length costs.now) costs.now m }
{
    let mut window = whole(&costs[..m as usize]);
    let mut best = 0;
    // a rule of the project: a loop over costs with their index, which sums and keeps the largest
    for (place, cost) in costs.iter().enumerate() {
        best = best.max(window);
        let end = wrapped(costs.len(), place + m as usize);
        window = window + costs[end] - *cost;
    }
    best
}

impl Pace<'_> {
    // Whether these are numbers that may be given.
    fn given_right(self) -> bool
        ensures { result ≡ given_right (asked self.entry) }
    {
        in_range(self.period)
            && self.jitter <= LARGEST
            && 1 <= self.costs.len()
            && all_in_range(self.costs)
    }

    // What is wrong with a paced part of these numbers, if anything is: an option, as `first_fault` takes two.
    #[tactic(auto, using(crate::proofs::Breaking::pace_many, crate::proofs::Breaking::pace_range, crate::proofs::Breaking::pace_misfit, crate::proofs::Breaking::pace_fine))]
    pub fn fault(self) -> Option<Fault>
        ensures answer { result ≡ fault_of (asked self.entry) }
        ensures first { FirstBroken (PaceBreaks (asked self.entry)) result }
    {
        if self.costs.len() > 8 {
            return Some(Fault::TooMany);
        }
        if !self.given_right() {
            return Some(Fault::OutOfRange);
        }
        if self.jitter >= self.period {
            return Some(Fault::Misfit);
        }
        None
    }

    // A row of these numbers, with level and place 0.
    pub(crate) fn fresh_row(self) -> Row
        requires { length self.costs.now ≤ 8 }
        ensures { result ≡ fresh (asked self.entry) }
    {
        Row {
            period: self.period,
            jitter: self.jitter,
            count: self.costs.len() as u32,
            costs: padded(self.costs),
            level: 0,
            place: 0,
        }
    }
}

impl Row {
    // A paced part with level and place 0, or what is wrong with the numbers.
    #[tactic(auto, using(crate::proofs::Makings::fresh_fit))]
    pub fn new(pace: Pace) -> Result<Row, Fault>
        ensures answer { result_err result ≡ fault_of (asked pace.entry) }
        ensures made { IfOk result (λ row. row ≡ fresh (asked pace.entry)) }
        ensures first { FirstBroken (PaceBreaks (asked pace.entry)) (result_err result) }
        ensures fit { IfOk result Fit }
    {
        pace.fault().map_or(Ok(()), Err)?;
        Ok(pace.fresh_row())
    }

    // The largest cost.
    pub(crate) fn largest_cost(&self) -> u32
        requires { Fit self.now }
        ensures { result ≡ largest_cost self.now }
    {
        largest(&self.costs[..self.count as usize])
    }

    // The share of the processor's time that the row asks for, in ten-thousandths.
    pub(crate) fn load(&self) -> u64
        requires { Fit self.now }
        ensures { result ≡ row_load self.now }
    {
        load(
            whole(&self.costs[..self.count as usize]),
            self.period * self.count,
        )
    }

    // How many costs can come in some ticks, at least one: one every period, all of them up to the jitter early.
    fn arrivals(&self, ticks: u32) -> u32
        requires fit { Fit self.now }
        requires some { 1 ≤ ticks }
        requires window { ticks ≤ 1000000 }
        ensures { result ≡ coming self.now ticks }
    {
        (self.jitter + (ticks - 1)) / self.period + 1
    }

    // Whether the next cost may be offered now.
    fn is_open(&self) -> bool
        ensures { result ≡ nat_le self.now.level self.now.jitter }
    {
        self.level <= self.jitter
    }

    // The most that the row brings in any `ticks` ticks in a row.
    pub(crate) fn demand(&self, ticks: u32) -> u64
        requires fit { Fit self.now }
        requires window { ticks ≤ 1000000 }
        ensures { result ≡ demand self.now ticks }
    {
        if ticks == 0 {
            return 0;
        }
        let come = self.arrivals(ticks);
        let costs = &self.costs[..self.count as usize];
        let rounds = come / self.count;
        let rest = come % self.count;
        u64::from(rounds) * u64::from(whole(costs)) + u64::from(largest_part(costs, rest))
    }

    // The most that may be offered now.
    pub(crate) fn allowance(&self) -> u32
        requires { Fit self.now }
        ensures { result ≡ allowance self.now 1 }
    {
        if self.is_open() {
            self.costs[self.place as usize]
        } else {
            0
        }
    }

    // An offer was taken.
    pub(crate) fn give(&mut self)
        requires { Fit self.old }
        ensures { self.new ≡ given self.old }
    {
        self.level += self.period;
        self.place = step(self.count, self.place);
    }

    // A tick passes.
    pub(crate) fn lower(&mut self)
        ensures { self.new ≡ later self.old }
    {
        self.level = self.level.saturating_sub(1);
    }
}

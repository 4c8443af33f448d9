// What a line says.
ghost use Rattle.std.specs.Prelude.{◌≡◌, min, take};

// The keywords with which a line begins.
#[derive(Clone, Copy, PartialEq, Eq, Debug)]
pub enum Kind {
    Cycle,
    At,
    Irq,
    Task,
}

// How many costs are kept of a line: one more than any part may have, so that too many are seen to be too many.
pub const KEPT: usize = 9;

const _: () = prove!(KEPT == 9);

// The first nine costs of a line, with 0 after the last. The project wants fixed memory here, and no heap: so the table has a count
// beside it and is no `Vec`, and a row is copied.
#[derive(Clone, Copy, Default)]
pub struct Costs {
    pub numbers: [u32; 9],
    pub count: usize,
}

// What a line says, number for number as it stands there. Offsets, cycles, periods, jitters and deadlines are in ticks; lengths
// of pairs, costs, blocking and holds in units.
#[derive(Clone, Copy)]
pub enum Row {
    Cycle {
        length: u32,
    },
    At {
        offset: u32,
        length: u32,
    },
    Irq {
        period: u32,
        jitter: u32,
        costs: Costs,
    },
    Task {
        period: u32,
        jitter: u32,
        blocking: u32,
        deadline: u32,
        hold: u32,
        costs: Costs,
    },
}

impl Costs {
    ghost use Rattle.lines.specs.Rows.{with_cost};

    // One cost more, if there is a place for it.
    pub(crate) fn push(&mut self, cost: u32)
        ensures { self.new ≡ with_cost self.old cost }
    {
        if self.count < KEPT {
            self.numbers[self.count] = cost;
            self.count += 1;
        }
    }

    // The costs that are kept.
    pub fn list(&self) -> &[u32]
        ensures { result.now ≡ take (min 9 self.now.count) self.now.numbers }
    {
        let count = self.count.min(KEPT);
        &self.numbers[..count]
    }
}

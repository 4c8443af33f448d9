// What drives a gate in the calls of a run: its bank, and the paced parts of its tasks.
ghost use Rattle.std.specs.Prelude.{◌≡◌, true};
ghost use Rattle.source.specs.Facts.{offerable, Taken, Ticked};

use source::Gate;

// Offers units that the gate takes, so that its answer needs no look.
pub(crate) fn give<G: Gate>(gate: &mut G, part: u32, units: u64)
    requires { offerable (G.work gate.old).parts (G.allowed gate.old) part units ≡ true }
    ensures takes { G.moves.takes gate.old part units gate.new }
    ensures taken { Taken (G.allowed gate.old) part units (G.allowed gate.new) }
    ensures kept { G.work gate.new ≡ G.work gate.old }
{
    gate.offer(part, units);
}

// A tick passes for both, the bank and the paced parts of the tasks.
pub(crate) fn tick_both<B: Gate, T: Gate>(bank: &mut B, tasks: &mut T)
    ensures bank_ticks { B.moves.ticks bank.old bank.new }
    ensures bank_ticked { Ticked (B.allowed bank.old) (B.allowed bank.new) }
    ensures bank_kept { B.work bank.new ≡ B.work bank.old }
    ensures tasks_tick { T.moves.ticks tasks.old tasks.new }
    ensures tasks_ticked { Ticked (T.allowed tasks.old) (T.allowed tasks.new) }
    ensures tasks_kept { T.work tasks.new ≡ T.work tasks.old }
{
    bank.tick();
    tasks.tick();
}

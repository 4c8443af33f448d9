// A plan from a sheet.
ghost use Rattle.std.specs.Prelude.{◌≡◌, Ok, IfOk, OnErr};
ghost use Rattle.std.specs.Result.{result_err};
ghost use Rattle.sheet.specs.Drafts.{plan_view};
ghost use Rattle.sheet.specs.Faulty.{FirstFaulty};
ghost use Rattle.sheet.specs.Reading.{read as reading};

use crate::reading::{Finished, read};
use paced::rack::Rack;
use plan::stages::OpenPlan;
use refusal::Refusal;
use schedule::cyclic::Schedule;
use source::pair::Pair;

// Reads a sheet into a plan that the caller lends, and says how many lines the sheet has. The bank is the interrupts beside
// the schedule. A sheet that is refused leaves the plan as it is.
#[tactic(auto, using(crate::proofs::Breaking::sheet_broken))]
pub fn read_plan(sheet: &[u8], plan: &mut OpenPlan<Pair<Rack, Schedule>>) -> Result<u32, Refusal>
    ensures answer { result_err result ≡ result_err (reading sheet.now) }
    ensures read { IfOk result (λ lines. reading sheet.now ≡ Ok (record { plan = plan_view plan.new; lines = lines })) }
    ensures refused { OnErr result (plan.new ≡ plan.old) }
    ensures first { FirstFaulty sheet.now (result_err result) }
{
    let Finished { draft, lines } = read(sheet)?;
    *plan = draft.into_plan();
    Ok(lines)
}

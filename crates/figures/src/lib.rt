// The worked figures of docs/TIMING.md, proved from the definitions, and cases of what the promises begin with. The calls do nothing:
// each is there for its contract.
#![tactic(auto)]

ghost use Rattle.figures.specs.Figures.{Figures};

pub mod premises;

pub use premises::premises_hold;

// Each figure of the nine groups is what the definitions come to.
pub fn worked_figures()
    ensures { Figures }
{}

// One call of a run, as a value.
ghost use Rattle.guarantee.specs.Playing.{Did};

use calls::{Answer, Call};
use run::Run;
use source::Gate;

// Makes one call of a run, and gives its answer.
pub fn make<G: Gate>(run: &mut Run<G>, call: Call) -> Answer
    ensures { Did G.allowed G.moves call result run.old run.new }
{
    // a match, and no table of functions: the calls differ in what they take, and a call is a value of an enum
    match call {
        Call::Offer(part, units) => run.offer(part, units).into(),
        Call::Release(task, units) => run.release(task, units).into(),
        Call::Hold(task, units) => run.hold(task, units).into(),
        Call::LetGo(task) => run.let_go(task).into(),
        Call::End(task) => run.end(task).into(),
        Call::Tick => run.tick().into(),
    }
}

// The calls of a run and their answers, the two rules that their log keeps, and the proof that it does.
//
// Parts of the bank and tasks are numbered from 1.
#![tactic(auto)]

ghost use Rattle.std.specs.Prelude.{◌≡◌, ◌↔◌, true, MatchResult};
ghost use Rattle.calls.specs.declared.Answer.TheVariants.{Done, Refused, Ticked};
ghost use Rattle.calls.specs.Told.{told};
ghost use Rattle.calls.specs.Guarantee.{Guaranteed};

use refusal::Refusal;

// A call of a run.
#[derive(Clone, Copy, PartialEq, Eq, Debug)]
pub enum Call {
    // A part, and the units that are offered to it.
    Offer(u32, u64),
    // A task, and the units of the job that is released for it.
    Release(u32, u64),
    // A task, and the units for which it asks to hold the processor.
    Hold(u32, u64),
    // The task that lets go of the processor.
    LetGo(u32),
    // The task whose job is ended.
    End(u32),
    Tick,
}

// Who got the unit of a tick.
#[derive(Clone, Copy, PartialEq, Eq, Debug)]
pub enum Got {
    Nobody,
    // The part with this number.
    Part(u32),
    // The task with this number, and the age of its job if that ended with the unit.
    Task(u32, Option<u32>),
}

// The answer to a call.
#[derive(Clone, Copy, PartialEq, Eq, Debug)]
pub enum Answer {
    // A call that is no tick was done.
    Done,
    // The call was refused, and changed nothing.
    Refused(Refusal),
    // A tick passed.
    Ticked(Got),
}

// The answer to a call that is no tick, by what came of it.
impl From<Result<(), Refusal>> for Answer {
    ghost from_gives = { λ came answer. MatchResult came (λ _. answer ≡ Done) (λ refusal. answer ≡ Refused refusal) };

    fn from(came: Result<(), Refusal>) -> Answer {
        came.map_or_else(Answer::Refused, |()| Answer::Done)
    }
}

// The answer to a tick.
impl From<Result<Got, Refusal>> for Answer {
    ghost from_gives = { λ came answer. MatchResult came (λ got. answer ≡ Ticked got) (λ refusal. answer ≡ Refused refusal) };

    fn from(came: Result<Got, Refusal>) -> Answer {
        came.map_or_else(Answer::Refused, Answer::Ticked)
    }
}

impl Got {
    // 0 if nobody got the unit, 1 if a part did, 2 if a task did: a number, as the answer to a tick is defined in numbers.
    pub fn who(self) -> u32
        ensures { result ≡ (told self).who }
    {
        match self {
            Got::Nobody => 0,
            Got::Part(_) => 1,
            Got::Task(_, _) => 2,
        }
    }

    // The number of the part or task that got the unit, 0 if nobody did, as it is defined in numbers.
    pub fn number(self) -> u32
        ensures { result ≡ (told self).number }
    {
        match self {
            Got::Nobody => 0,
            Got::Part(part) => part,
            Got::Task(task, _) => task,
        }
    }

    // The age of the job that ended, 0 if none did, as it is defined in numbers. The three ask different things of who got the unit.
    pub fn age(self) -> u32
        ensures { result ≡ (told self).age }
    {
        match self {
            Got::Nobody | Got::Part(_) => 0,
            Got::Task(_, age) => age.unwrap_or(0),
        }
    }
}

// Whether two calls are the same: what `==` answers, on which tests rest.
pub fn same_call(call: Call, other: Call) -> bool
    ensures { (result ≡ true) ↔ (call ≡ other) }
{
    call == other
}

// Whether two answers are the same, alike.
pub fn same_answer(answer: Answer, other: Answer) -> bool
    ensures { (result ≡ true) ↔ (answer ≡ other) }
{
    answer == other
}

// That the log of every run of an accepted plan keeps both rules, whatever calls are made, is what this function promises: it is never
// late, and never more than the demand. It does nothing.
pub fn rules_hold()
    ensures { Guaranteed }
{}

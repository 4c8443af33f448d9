// The log of a run.
ghost use Rattle.std.specs.Prelude.{◌≡◌, List};
ghost use Rattle.calls.specs.Events.{Event, log_of};

use calls::{Answer, Call};
use std::marker::Model;

// The calls of a run and the answers to them, one with the other by their places, up to the end of the shorter list: two
// lists and no list of pairs, since the answers of a rehearsal are written into a list that the caller lends beside its calls.
#[derive(Drop)]
pub struct Log<'a> {
    pub(crate) calls: &'a [Call],
    pub(crate) answers: &'a [Answer],
}

impl<'a> Model for Log<'a> {
    ghost Value = { List Event };

    ghost view = { λ log. log_of log.calls.now log.answers.now };
}

impl<'a> Log<'a> {
    // The log of these calls and these answers.
    pub fn new(calls: &'a [Call], answers: &'a [Answer]) -> Self
        ensures { result ≡ log_of calls.now answers.now }
    {
        Log { calls, answers }
    }
}

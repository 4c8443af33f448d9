// A plan as it is read, row after row.
ghost use Rattle.std.specs.Prelude.{◌≡◌, Ok, Err, OnOk, IfErr};
ghost use Rattle.paced.specs.Makes.{asked};
ghost use Rattle.sheet.specs.Drafts.{irq_line, pair_line, plan_view, task_line};
ghost use Rattle.sheet.specs.Rowing.{begun, gone_on};

use lines::row::Row;
use paced::rack::Rack;
use paced::row::Pace;
use plan::stages::OpenPlan;
use plan::tasks::{Limit, Tasks};
use refusal::{Fault, Refusal};
use schedule::cyclic::Schedule;
use source::Source;
use source::pair::Pair;
use std::marker::Model;

// What was read so far: the schedule, the interrupts and the tasks.
#[derive(Drop)]
pub(crate) struct Draft {
    schedule: Schedule,
    rack: Rack,
    tasks: Tasks,
}

impl Model for Draft {
    ghost use Rattle.sheet.specs.Drafts.{Plan};

    ghost Value = { Plan };

    ghost view = { λ d. record { timetable = d.schedule.timetable; irqs = d.rack.list; tasks = d.tasks } };
}

impl Draft {
    // What the first row makes: it has to be that of a cycle line.
    pub(crate) fn begin(row: &Row) -> Result<Draft, Refusal>
        ensures { result ≡ begun row.now }
    {
        match *row {
            Row::Cycle { length } => {
                let schedule = Schedule::new(length)?;
                Ok(Draft {
                    schedule,
                    rack: Rack::new(),
                    tasks: Tasks::new(),
                })
            }
            _ => Err(Refusal::plain(Fault::BadLine)),
        }
    }

    // One pair more, which has to come before interrupts and tasks.
    fn add_pair(&mut self, offset: u32, length: u32) -> Result<(), Refusal>
        ensures added { OnOk result (pair_line self.old offset length ≡ Ok self.new) }
        ensures refused { IfErr result (λ e. pair_line self.old offset length ≡ Err e) }
    {
        if self.rack.count() > 0 || self.tasks.count() > 0 {
            return Err(Refusal::plain(Fault::BadLine));
        }
        self.schedule.add(offset, length)
    }

    // One interrupt more, which has to come before tasks.
    fn add_irq(&mut self, pace: Pace) -> Result<(), Refusal>
        ensures added { OnOk result (irq_line self.old (asked pace.entry) ≡ Ok self.new) }
        ensures refused { IfErr result (λ e. irq_line self.old (asked pace.entry) ≡ Err e) }
    {
        if self.tasks.count() > 0 {
            return Err(Refusal::plain(Fault::BadLine));
        }
        self.rack.add(pace)
    }

    // One task more.
    fn add_task(&mut self, pace: Pace, limit: Limit) -> Result<(), Refusal>
        ensures added { OnOk result (task_line self.old (asked pace.entry) limit ≡ Ok self.new) }
        ensures refused { IfErr result (λ e. task_line self.old (asked pace.entry) limit ≡ Err e) }
    {
        self.tasks.add(pace, limit)
    }

    // What a later row makes of the draft: pairs come before interrupts, and these before tasks. A match, and no table of closures:
    // each kind of row has numbers of its own.
    pub(crate) fn go_on(&mut self, row: &Row) -> Result<(), Refusal>
        ensures read { OnOk result (gone_on self.old row.now ≡ Ok self.new) }
        ensures refused { IfErr result (λ e. gone_on self.old row.now ≡ Err e) }
    {
        match *row {
            Row::Cycle { .. } => Err(Refusal::plain(Fault::BadLine)),
            Row::At { offset, length } => self.add_pair(offset, length),
            Row::Irq {
                period,
                jitter,
                costs,
            } => self.add_irq(Pace {
                period,
                jitter,
                costs: costs.list(),
            }),
            Row::Task {
                period,
                jitter,
                blocking,
                deadline,
                hold,
                costs,
            } => {
                let pace = Pace {
                    period,
                    jitter,
                    costs: costs.list(),
                };
                let limit = Limit {
                    blocking,
                    deadline,
                    hold,
                };
                self.add_task(pace, limit)
            }
        }
    }

    // The plan that was read. Its bank is the interrupts beside the schedule.
    pub(crate) fn into_plan(self) -> OpenPlan<Pair<Rack, Schedule>>
        ensures { plan_view result ≡ self }
    {
        OpenPlan::with_tasks(Pair::new(self.rack, self.schedule), self.tasks)
    }
}

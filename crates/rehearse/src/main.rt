// Rehearses a run: reads a plan sheet, an empty line and then one call a line from standard input, makes the calls on a run of
// the sheet's plan, and writes one line for each answer to standard output, or with the argument `timeline` a picture of the run.
#![tactic(auto)]

ghost use Rattle.std.specs.Prelude.{◌≤◌, length};

use calls::{Answer, Call};
use guarantee::rehearse;
use listing::{ROOM, write_listing};
use paced::rack::Rack;
use plan::stages::{OpenPlan, Parts};
use refusal::Refusal;
use schedule::cyclic::Schedule;
use sheet::read_plan;
use source::Source;
use source::pair::Pair;
use std::alloc::{AllocError, AllocFailed, Global};
use std::env;
use std::io::{self, Read, Write};
use std::process::ExitCode;
use timeline::{Log, draw};
use transcript::{Line, call_of};
use words::split::first_line;

// How many bytes the whole input may have.
const LONGEST_INPUT: usize = 1_000_000;

// The status with which the program ends if it does not know its arguments.
const UNKNOWN_ARGUMENTS: u8 = 2;

// What is written of a run.
#[derive(Clone, Copy, PartialEq, Eq, Debug)]
enum View {
    // The line of each answer.
    Answers,
    // The timeline.
    Timeline,
}

// Why the lines of a text say no calls.
#[derive(Debug, Drop)]
enum CallsError {
    // So many lines come before the first that is no call.
    BadLine(usize),
    Memory(AllocError),
}

impl<T: Drop> From<AllocFailed<T>> for CallsError {
    fn from(failed: AllocFailed<T>) -> CallsError {
        CallsError::Memory(failed.into())
    }
}

// How many bytes of the input are the sheet: those before its first empty line, or all.
fn sheet_length(input: &[u8]) -> usize
    ensures { result ≤ length input.now }
{
    if input.starts_with(b"\n") {
        return 0;
    }
    let before = input.windows(2).position(|pair| pair == b"\n\n".as_slice());
    before.map_or(input.len(), |place| place + 1)
}

// The calls that the lines of a text say.
fn calls_of(heap: Global, text: &[u8]) -> Result<Vec<Call>, CallsError> {
    let mut calls = Vec::new(heap);
    let mut rest = text;
    // lines come off the rest one by one: nothing is counted here
    while !rest.is_empty() {
        let (line, after) = first_line(rest).ok_or(CallsError::BadLine(calls.len()))?;
        let call = call_of(line).ok_or(CallsError::BadLine(calls.len()))?;
        calls.push(call)?;
        rest = after;
    }
    Ok(calls)
}

// An open plan for a sheet to be read into.
fn no_plan() -> Result<OpenPlan<Pair<Rack, Schedule>>, Refusal> {
    let schedule = Schedule::new(1)?;
    Ok(OpenPlan::new(Pair::new(Rack::new(), schedule)))
}

// A plan, and the calls that are to be made on a run of it.
#[derive(Drop)]
struct Rehearsal<'a> {
    plan: OpenPlan<Pair<Rack, Schedule>>,
    calls: &'a [Call],
}

impl Rehearsal<'_> {
    // The answers to the calls.
    fn answers(self, heap: Global) -> Result<Vec<Answer>, AllocError> {
        let mut answers = vec![in heap; Answer::Done; self.calls.len()]?;
        let _ = rehearse(self.plan, self.calls, &mut answers);
        Ok(answers)
    }

    // Writes the line of each answer.
    fn print_answers(self, rt: &HostRuntime) -> anyhow::Result<()> {
        let answers = self.answers(rt.alloc())?;
        for answer in &answers {
            println!(rt; "{}", Line(*answer))?;
        }
        Ok(())
    }

    // Writes the timeline of the run, with a row for each part of the bank and each task of the plan.
    fn print_timeline(self, rt: &HostRuntime) -> anyhow::Result<()> {
        let Rehearsal { plan, calls } = self;
        // an open plan does not tell the parts of its bank: it is judged for them, and opened again
        let Parts { bank, tasks, .. } = plan.judge().into_parts();
        let part_count = bank.count();
        let task_count = tasks.count();
        let plan = OpenPlan::with_tasks(bank, tasks);
        let answers = Rehearsal { plan, calls }.answers(rt.alloc())?;
        let text = draw(
            rt.alloc(),
            part_count,
            task_count,
            &Log::new(calls, &answers),
        )?;
        rt.stdout().write_all(&text)?;
        Ok(())
    }
}

// Rehearses what the input says.
fn print_rehearsal(rt: &HostRuntime, view: View, input: &[u8]) -> anyhow::Result<()> {
    // there always is one: its schedule has a cycle of 1
    let Ok(mut plan) = no_plan() else {
        return Ok(());
    };
    let (sheet, rest) = input.split_at(sheet_length(input));
    let text = rest.strip_prefix(b"\n").unwrap_or(rest);
    if let Err(refusal) = read_plan(sheet, &mut plan) {
        let mut buffer = [0; ROOM];
        if let Ok(count) = write_listing(&mut buffer, &Err(refusal)) {
            rt.stdout().write_all(buffer.get(..count).unwrap_or(&[]))?;
        }
        return Ok(());
    }
    match calls_of(rt.alloc(), text) {
        Ok(calls) => {
            let calls = &calls;
            let rehearsal = Rehearsal { plan, calls };
            match view {
                View::Answers => rehearsal.print_answers(rt),
                View::Timeline => rehearsal.print_timeline(rt),
            }
        }
        Err(CallsError::BadLine(before)) => {
            let lines = sheet.iter().filter(|byte| **byte == b'\n').count();
            let line = lines.saturating_add(before).saturating_add(2);
            println!(rt; "bad call {line}")?;
            Ok(())
        }
        Err(CallsError::Memory(error)) => Err(error.into()),
    }
}

fn run(rt: &HostRuntime, view: View) -> anyhow::Result<()> {
    let mut input: Vec<u8> = Vec::new(rt.alloc());
    // one byte more than the input may have is enough to see that it is too long
    rt.stdin()
        .take(LONGEST_INPUT as u64 + 1)
        .read_to_end(&mut input)?;
    if input.len() > LONGEST_INPUT {
        println!(rt; "input too long")?;
        return Ok(());
    }
    print_rehearsal(rt, view, &input)
}

// What the arguments of the program ask for, if they are known.
fn view_of(rt: &HostRuntime) -> io::Result<Option<View>> {
    // a match: one kind of error is an answer here, and the others are errors
    let mut arguments = match env::args(rt) {
        Ok(arguments) => arguments,
        Err(error) if error.kind() == io::ErrorKind::InvalidData => return Ok(None),
        Err(error) => return Err(error),
    };
    let _program = arguments.next();
    let Some(word) = arguments.next() else {
        return Ok(Some(View::Answers));
    };
    let known = word.as_str() == "timeline" && arguments.next().is_none();
    Ok(known.then_some(View::Timeline))
}

fn main(rt: HostRuntime) -> anyhow::Result<ExitCode> {
    let Some(view) = view_of(&rt)? else {
        eprintln!(rt; "rehearse takes no argument, or the word timeline")?;
        return Ok(ExitCode::from(UNKNOWN_ARGUMENTS));
    };
    run(&rt, view)?;
    Ok(ExitCode::SUCCESS)
}

// From a line to its row.
ghost use Rattle.std.specs.Prelude.{◌≡◌, length, if◌then◌else◌, Some, None, IfSome, IfNone, nat_eq};
ghost use Rattle.std.specs.Result.{result_err};
ghost use Rattle.refusal.specs.Laws.{FirstBroken};
ghost use Rattle.lines.specs.declared.row.Kind.TheVariants.{Cycle, At, Irq, Task};
ghost use Rattle.words.specs.Split.{pieces};
ghost use Rattle.lines.specs.Numbers.{front, numbers_after, Reads};
ghost use Rattle.lines.specs.Rows.{kind_of, said, said_by, costs_said, row_said, read_line, LineRule, LineBreaks, row_told};

use crate::row::{Costs, Kind, Row};
use refusal::Fault;
use words::split::first_word;
use words::token::{Line, Token, check_line, next_token};

// The keyword that a word is, by patterns: a rule of the project.
fn keyword(word: &[u8]) -> Option<Kind>
    ensures { result ≡ kind_of word.now }
{
    match word {
        [b'c', b'y', b'c', b'l', b'e'] => Some(Kind::Cycle),
        [b'a', b't'] => Some(Kind::At),
        [b'i', b'r', b'q'] => Some(Kind::Irq),
        [b't', b'a', b's', b'k'] => Some(Kind::Task),
        _ => None,
    }
}

// A line, and the rest of it that is still to be read.
#[derive(Drop)]
struct Reader<'a> {
    line: Line<'a>,
    rest: &'a [u8],
}

impl<'a> Reader<'a> {
    // The number after the space with which the rest begins.
    fn number(&mut self) -> Option<u32>
        ensures number { IfSome result (λ n. Reads self.old.rest.now n self.new.rest.now) }
        ensures none { IfNone result (front self.old.rest.now ≡ None) }
    {
        let (_, words) = self.rest.split_first()?;
        // an `else`, since one pattern asks for a word and for a number at once
        let Ok((Token::Number { value, .. }, rest)) = next_token(self.line, words) else {
            return None;
        };
        self.rest = rest;
        Some(value)
    }

    // The costs to the end of the line: at least one.
    fn costs(&mut self) -> Option<Costs>
        ensures { result ≡ costs_said (numbers_after self.old.rest.now) }
    {
        let mut costs = Costs::default();
        // costs come off the rest one by one: nothing is counted here
        while !self.rest.is_empty() {
            let cost = self.number()?;
            costs.push(cost);
        }
        (costs.count > 0).then_some(costs)
    }

    // A row, if nothing is left on its line.
    fn ended(&self, row: Row) -> Option<Row>
        ensures { result ≡ (if nat_eq (length self.now.rest.now) 0 then Some row else None) }
    {
        self.rest.is_empty().then_some(row)
    }

    // The row of a `cycle` line.
    fn cycle_row(&mut self) -> Option<Row>
        ensures { result ≡ row_said (said (Some Cycle) (numbers_after self.old.rest.now)) }
    {
        let length = self.number()?;
        self.ended(Row::Cycle { length })
    }

    // The row of an `at` line.
    fn at_row(&mut self) -> Option<Row>
        ensures { result ≡ row_said (said (Some At) (numbers_after self.old.rest.now)) }
    {
        let offset = self.number()?;
        let length = self.number()?;
        self.ended(Row::At { offset, length })
    }

    // The row of an `irq` line.
    fn irq_row(&mut self) -> Option<Row>
        ensures { result ≡ row_said (said (Some Irq) (numbers_after self.old.rest.now)) }
    {
        let period = self.number()?;
        let jitter = self.number()?;
        let costs = self.costs()?;
        Some(Row::Irq {
            period,
            jitter,
            costs,
        })
    }

    // The row of a `task` line.
    fn task_row(&mut self) -> Option<Row>
        ensures { result ≡ row_said (said (Some Task) (numbers_after self.old.rest.now)) }
    {
        let period = self.number()?;
        let jitter = self.number()?;
        let blocking = self.number()?;
        let deadline = self.number()?;
        let hold = self.number()?;
        let costs = self.costs()?;
        Some(Row::Task {
            period,
            jitter,
            blocking,
            deadline,
            hold,
            costs,
        })
    }

    // The row of a keyword, from the part of the line after it. A match, and no table of closures: it shows that no keyword is left
    // out.
    fn row(&mut self, kind: Kind) -> Option<Row>
        ensures { result ≡ row_said (said (Some kind) (numbers_after self.old.rest.now)) }
    {
        match kind {
            Kind::Cycle => self.cycle_row(),
            Kind::At => self.at_row(),
            Kind::Irq => self.irq_row(),
            Kind::Task => self.task_row(),
        }
    }
}

// What a line with good words says, if it is a line.
fn said_by(line: Line) -> Option<Row>
    ensures { result ≡ row_said (said_by (pieces 32 line.entry.bytes.now)) }
{
    let (word, rest) = first_word(line.bytes);
    let kind = keyword(word)?;
    Reader { line, rest }.row(kind)
}

// What a line says, or what is wrong with it: a byte or a word that is none, and only then that it is no line.
#[tactic(auto, using(crate::proofs::Ruling::told_row))]
fn row_or_fault(line: Line) -> Result<Row, Fault>
    ensures { result ≡ row_told (read_line line.entry.bytes.now) }
{
    check_line(line)?;
    said_by(line).ok_or(Fault::BadLine)
}

// What a line says, or what is wrong with it, with the rule that a line says just what spells it.
pub fn row_of(line: Line) -> Result<Row, Fault>
    ensures row { result ≡ row_told (read_line line.entry.bytes.now) }
    ensures rule { LineRule line.entry.bytes.now }
    ensures first { FirstBroken (LineBreaks line.entry.bytes.now) (result_err result) }
{
    row_or_fault(line)
}

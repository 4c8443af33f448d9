// From bytes to a draft, line after line.
ghost use Rattle.std.specs.Prelude.{◌≡◌, ◌<◌, ◌≤◌, [], ◌∷◌, length, Some, None, Ok, Err, IfOk, IfErr, OnOk, OnErr};
ghost use Rattle.refusal.specs.Refusals.{plain};
ghost use Rattle.refusal.specs.declared.Fault.TheVariants.{ForeignByte};
ghost use Rattle.words.specs.Split.{before, onward, pieces};
ghost use Rattle.lines.specs.Rows.{read_line, row_told};
ghost use Rattle.sheet.specs.Reading.{on_line, step, read_on, read as reading};
ghost use Rattle.sheet.specs.Rowing.{next_row};

use crate::draft::Draft;
use lines::reading::row_of;
use refusal::{Fault, Refusal};
use std::marker::Model;
use words::split::first_line;
use words::token::Line;

// How many bytes a sheet may have.
pub const LONGEST_SHEET: usize = 16_384;

const _: () = prove!(LONGEST_SHEET == 16_384);

// What the first line makes.
fn first(line: Line) -> Result<Draft, Refusal>
    ensures { result ≡ next_row None (row_told (read_line line.entry.bytes.now)) }
{
    let row = row_of(line)?;
    Draft::begin(&row)
}

// The same, with the number of the line on a refusal.
#[tactic(auto, using(crate::proofs::Keeping::same_next))]
fn begun(line: Line) -> Result<Draft, Refusal>
    ensures { result ≡ step line.entry.number None line.entry.bytes.now }
{
    first(line).map_err(|refusal| refusal.on_line(line.number))
}

// What a later line makes of the draft, in place: other than the first line, which makes the draft.
fn next(draft: &mut Draft, line: Line) -> Result<(), Refusal>
    ensures read { OnOk result (next_row (Some draft.old) (row_told (read_line line.entry.bytes.now)) ≡ Ok draft.new) }
    ensures refused { IfErr result (λ e. next_row (Some draft.old) (row_told (read_line line.entry.bytes.now)) ≡ Err e) }
{
    let row = row_of(line)?;
    draft.go_on(&row)
}

// The same, with the number of the line on a refusal.
#[tactic(auto, using(crate::proofs::Keeping::same_next))]
fn step(draft: &mut Draft, line: Line) -> Result<(), Refusal>
    ensures read { OnOk result (step line.entry.number (Some draft.old) line.entry.bytes.now ≡ Ok draft.new) }
    ensures refused { IfErr result (λ e. step line.entry.number (Some draft.old) line.entry.bytes.now ≡ Err e) }
{
    next(draft, line).map_err(|refusal| refusal.on_line(line.number))
}

// The line with that number, with which the rest of a sheet begins, and what follows it; or the refusal of a line that does not
// end.
fn cut_line(rest: &[u8], number: u32) -> Result<(&[u8], &[u8]), Refusal>
    ensures line { IfOk result (λ p. p.0.now ≡ before 10 rest.now) }
    ensures after { IfOk result (λ p. (10 ∷ p.1.now) ≡ onward 10 rest.now) }
    ensures shorter { IfOk result (λ p. length p.1.now < length rest.now) }
    ensures unended { OnErr result (onward 10 rest.now ≡ []) }
    ensures refused { IfErr result (λ e. e ≡ on_line number (plain ForeignByte)) }
{
    first_line(rest).ok_or(Refusal::new(Fault::ForeignByte, number, 0))
}

// Reads the lines after the first into the draft, up to the first fault, and says how many lines the sheet has.
fn read_on(draft: &mut Draft, sheet: &[u8]) -> Result<u32, Refusal>
    requires { length sheet.now ≤ 16384 }
    ensures read { IfOk result (λ n. read_on 1 (Some draft.old) (pieces 10 sheet.now) ≡ Ok (record { plan = draft.new; lines = n })) }
    ensures refused { IfErr result (λ e. read_on 1 (Some draft.old) (pieces 10 sheet.now) ≡ Err e) }
{
    // counted by hand: each line comes off the rest with its refusal, and `split_inclusive` would leave its line feed to be cut off and
    // looked for once more
    let mut lines = 1;
    let mut rest = sheet;
    while !rest.is_empty() {
        let number = lines + 1;
        let (bytes, after) = cut_line(rest, number)?;
        step(draft, Line { bytes, number })?;
        lines = number;
        rest = after;
    }
    Ok(lines)
}

// What a sheet says: its draft, and how many lines it has.
#[derive(Drop)]
pub(crate) struct Finished {
    pub(crate) draft: Draft,
    pub(crate) lines: u32,
}

impl Model for Finished {
    ghost use Rattle.sheet.specs.Reading.{Sheet};

    ghost Value = { Sheet };

    ghost view = { λ f. record { plan = f.draft; lines = f.lines } };
}

// Reads a sheet line by line, up to the first fault.
pub(crate) fn read(sheet: &[u8]) -> Result<Finished, Refusal>
    ensures { result ≡ reading sheet.now }
{
    if sheet.len() > LONGEST_SHEET {
        return Err(Refusal::plain(Fault::SheetTooLong));
    }
    if sheet.is_empty() {
        return Err(Refusal::new(Fault::BadLine, 1, 0));
    }
    let (bytes, rest) = cut_line(sheet, 1)?;
    let mut draft = begun(Line { bytes, number: 1 })?;
    let lines = read_on(&mut draft, rest)?;
    Ok(Finished { draft, lines })
}

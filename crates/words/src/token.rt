// The words of a line.
ghost use Rattle.std.specs.Prelude.{◌≡◌, length, None, IfOk, IfErr, OnErr};
ghost use Rattle.std.specs.Result.{result_err};
ghost use Rattle.refusal.specs.Laws.{FirstBroken};
ghost use Rattle.refusal.specs.declared.Fault.TheVariants.{BadWord};
ghost use Rattle.words.specs.Split.{before, behind, OnlyCut};
ghost use Rattle.words.specs.Tokens.{begins_at, word_of, line_fault, told, Taken, WordsBreak};

use crate::bytes::{all_letters, is_clean};
use crate::number::number_of;
use crate::split::first_word;
use refusal::Fault;

// A line of the sheet without its line feed, and its number.
#[derive(Clone, Copy)]
pub struct Line<'a> {
    pub bytes: &'a [u8],
    pub number: u32,
}

// A word: its spelling in the sheet, the number of its line, and the place of its first byte in that line. These three stand in
// both cases, and not in a struct beside a kind: so a pattern names what it wants in one step.
#[derive(Clone, Copy)]
pub enum Token<'a> {
    Keyword {
        spelling: &'a [u8],
        line: u32,
        place: usize,
    },
    Number {
        spelling: &'a [u8],
        line: u32,
        place: usize,
        value: u32,
    },
}

// The first word of the rest of a line, which begins with a word, and what follows it: from a space on, or nothing. Both are parts of
// that very text: the spelling begins where it begins, and what follows just behind the spelling.
pub fn next_token<'a>(line: Line<'a>, rest: &'a [u8]) -> Result<(Token<'a>, &'a [u8]), Fault>
    ensures token { IfOk result (λ p. Taken line.entry.number line.entry.bytes.now rest.now (told p.0) p.1.now) }
    ensures at { IfOk result (λ p. begins_at p.0 ≡ rest.entry.ref_ptr) }
    ensures left_at { IfOk result (λ p. p.1.ref_ptr ≡ behind rest.entry.ref_ptr (length (before 32 rest.now))) }
    ensures no_word { OnErr result (word_of (before 32 rest.now) ≡ None) }
    ensures fault { IfErr result (λ f. f ≡ BadWord) }
{
    let (spelling, after) = first_word(rest);
    let place = line.bytes.len().saturating_sub(rest.len());
    let line = line.number;
    if !spelling.is_empty() && all_letters(spelling) {
        let token = Token::Keyword {
            spelling,
            line,
            place,
        };
        return Ok((token, after));
    }
    let value = number_of(spelling).ok_or(Fault::BadWord)?;
    let token = Token::Number {
        spelling,
        line,
        place,
        value,
    };
    Ok((token, after))
}

// What is wrong with a line: a byte that no sheet has or, if there is none, words that are none.
pub fn check_line(line: Line) -> Result<(), Fault>
    ensures fault { result_err result ≡ line_fault line.entry.bytes.now }
    ensures words { OnlyCut 32 line.entry.bytes.now }
    ensures first { FirstBroken (WordsBreak line.entry.bytes.now) (result_err result) }
{
    if !is_clean(line.bytes) {
        return Err(Fault::ForeignByte);
    }
    let mut rest = line.bytes;
    // words come off the rest one by one: nothing is counted here
    loop {
        let (_, after) = next_token(line, rest)?;
        let Some((_, words)) = after.split_first() else {
            return Ok(());
        };
        rest = words;
    }
}

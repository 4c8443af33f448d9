// From a line to its call.
ghost use Rattle.std.specs.Prelude.{◌≡◌, Some, None, IfSome, IfNone};
ghost use Rattle.lines.specs.Numbers.{front, numbers_after, Reads};
ghost use Rattle.transcript.specs.Calls.{verb_of, one, two, call_with, read_call, CallRule};

use calls::Call;
use words::number::number_of;
use words::split::first_word;

// The keywords with which a line begins.
#[derive(Clone, Copy, PartialEq, Eq, Debug)]
enum Verb {
    Offer,
    Release,
    Hold,
    LetGo,
    End,
    Tick,
}

// The keyword that a word is, by patterns: a rule of the project.
fn verb_of(word: &[u8]) -> Option<Verb>
    ensures { result ≡ verb_of word.now }
{
    match word {
        [b'o', b'f', b'f', b'e', b'r'] => Some(Verb::Offer),
        [b'r', b'e', b'l', b'e', b'a', b's', b'e'] => Some(Verb::Release),
        [b'h', b'o', b'l', b'd'] => Some(Verb::Hold),
        [b'l', b'e', b't', b'g', b'o'] => Some(Verb::LetGo),
        [b'e', b'n', b'd'] => Some(Verb::End),
        [b't', b'i', b'c', b'k'] => Some(Verb::Tick),
        _ => None,
    }
}

// The number after the space with which the rest of a line begins, and what follows it. The reader of a sheet's line does the same with
// words that have a line and a place, which these have not.
fn number(rest: &[u8]) -> Option<(u32, &[u8])>
    ensures number { IfSome result (λ p. Reads rest.now p.0 p.1.now) }
    ensures none { IfNone result (front rest.now ≡ None) }
{
    let (_, text) = rest.split_first()?;
    let (word, after) = first_word(text);
    let number = number_of(word)?;
    Some((number, after))
}

// The one number on the rest of a line.
fn one_number(rest: &[u8]) -> Option<u32>
    ensures { result ≡ one (numbers_after rest.now) }
{
    let (number, rest) = number(rest)?;
    rest.is_empty().then_some(number)
}

// The two numbers on the rest of a line, of which the second counts units.
fn two_numbers(rest: &[u8]) -> Option<(u32, u64)>
    ensures { result ≡ two (numbers_after rest.now) }
{
    let (first, rest) = number(rest)?;
    let (second, rest) = number(rest)?;
    rest.is_empty().then_some((first, u64::from(second)))
}

// The call of a keyword, from the part of the line after it. A match, and no table of closures: the keywords take one number, two
// or none.
fn call_with(verb: Verb, rest: &[u8]) -> Option<Call>
    ensures { result ≡ call_with (Some verb) (numbers_after rest.now) }
{
    match verb {
        Verb::Offer => two_numbers(rest).map(|(part, units)| Call::Offer(part, units)),
        Verb::Release => two_numbers(rest).map(|(task, units)| Call::Release(task, units)),
        Verb::Hold => two_numbers(rest).map(|(task, units)| Call::Hold(task, units)),
        Verb::LetGo => one_number(rest).map(Call::LetGo),
        Verb::End => one_number(rest).map(Call::End),
        Verb::Tick => rest.is_empty().then_some(Call::Tick),
    }
}

// The call on a line, if it is the line of one.
pub fn call_of(line: &[u8]) -> Option<Call>
    ensures call { result ≡ read_call line.now }
    ensures rule { CallRule line.now }
{
    let (word, rest) = first_word(line);
    let verb = verb_of(word)?;
    call_with(verb, rest)
}

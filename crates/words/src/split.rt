// The first part of a text, up to a byte.
ghost use Rattle.std.specs.Prelude.{◌≡◌, ◌+◌, ◌<◌, [], ◌∷◌, length, position, IfSome, IfNone, ◌==◌};
ghost use Rattle.words.specs.Split.{before, onward, behind};

// The place of the first such byte, if there is one.
fn place_of(byte: u8, bytes: &[u8]) -> Option<usize>
    ensures { result ≡ position (λ found. found == byte) bytes.now }
{
    bytes.iter().position(|found| *found == byte)
}

// The first line without its line feed, and what follows the line feed. Nothing if there is no line feed.
pub fn first_line(sheet: &[u8]) -> Option<(&[u8], &[u8])>
    ensures line { IfSome result (λ p. p.0.now ≡ before 10 sheet.now) }
    ensures after { IfSome result (λ p. (10 ∷ p.1.now) ≡ onward 10 sheet.now) }
    ensures line_at { IfSome result (λ p. p.0.ref_ptr ≡ sheet.entry.ref_ptr) }
    ensures after_at { IfSome result (λ p. p.1.ref_ptr ≡ behind sheet.entry.ref_ptr (length p.0.now + 1)) }
    ensures shorter { IfSome result (λ p. length p.1.now < length sheet.now) }
    ensures unended { IfNone result (onward 10 sheet.now ≡ []) }
{
    let end = place_of(b'\n', sheet)?;
    Some((&sheet[..end], &sheet[end + 1..]))
}

// What stands before the first space, or all; and the rest from that space on, or nothing.
#[tactic(auto, using(crate::proofs::Cutting::front_cut, crate::proofs::Cutting::rest_cut))]
pub fn first_word(rest: &[u8]) -> (&[u8], &[u8])
    ensures word { result.0.now ≡ before 32 rest.now }
    ensures rest { result.1.now ≡ onward 32 rest.now }
    ensures word_at { result.0.ref_ptr ≡ rest.entry.ref_ptr }
    ensures rest_at { result.1.ref_ptr ≡ behind rest.entry.ref_ptr (length result.0.now) }
{
    let end = place_of(b' ', rest).unwrap_or(rest.len());
    (&rest[..end], &rest[end..])
}

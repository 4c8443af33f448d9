// The bytes of a sheet.
ghost use Rattle.std.specs.Prelude.{◌≡◌};
ghost use Rattle.words.specs.Bytes.{class_of, clean};
ghost use Rattle.words.specs.Tokens.{all_letters};

#[derive(Clone, Copy, PartialEq, Eq, Debug)]
pub enum Class {
    Letter,
    Digit,
    Space,
    Feed,
    Foreign,
}

// The kind of a byte, by cases of its character: a rule of the project.
pub fn class_of(byte: u8) -> Class
    ensures { result ≡ class_of byte }
{
    match byte as char {
        'a'..='z' => Class::Letter,
        '0'..='9' => Class::Digit,
        ' ' => Class::Space,
        '\n' => Class::Feed,
        _ => Class::Foreign,
    }
}

// Whether no byte is foreign.
pub(crate) fn is_clean(bytes: &[u8]) -> bool
    ensures { result ≡ clean bytes.now }
{
    bytes.iter().all(|byte| class_of(*byte) != Class::Foreign)
}

// Whether every byte is a letter.
pub(crate) fn all_letters(bytes: &[u8]) -> bool
    ensures { result ≡ all_letters bytes.now }
{
    bytes.iter().all(|byte| class_of(*byte) == Class::Letter)
}

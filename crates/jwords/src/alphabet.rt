//! Classes of bytes.

ghost use Rattle.std.specs.Prelude.{◌≡◌, ◌≤◌, length, slice_index};
ghost use Rattle.std.specs.List.{prefix_len};
ghost use Rattle.jwords.specs.Alphabet as classes;
ghost use Rattle.jwords.specs.Runs as runs;

pub const QUOTE: u8 = b'\'';

pub const UNDERSCORE: u8 = b'_';

pub const POINT: u8 = b'.';

pub const COLON: u8 = b':';

#[tactic(auto, using(std::proofs::lemmas::Bool::Decides::nat_tests), unfolding(crate::specs::Alphabet::is_blank))]
pub fn is_blank(byte: u8) -> bool
    ensures { result ≡ classes.is_blank byte }
{
    byte == b' ' || byte == b'\t'
}

#[tactic(auto, using(std::proofs::lemmas::Bool::Decides::nat_tests), unfolding(crate::specs::Alphabet::is_digit))]
pub fn is_digit(byte: u8) -> bool
    ensures { result ≡ classes.is_digit byte }
{
    byte.is_ascii_digit()
}

#[tactic(auto, using(std::proofs::lemmas::Bool::Decides::nat_tests), unfolding(crate::specs::Alphabet::is_letter))]
pub fn is_letter(byte: u8) -> bool
    ensures { result ≡ classes.is_letter byte }
{
    byte.is_ascii_alphabetic()
}

#[tactic(auto, using(std::proofs::lemmas::Bool::Decides::nat_tests), unfolding(crate::specs::Alphabet::is_alphanumeric))]
pub fn is_alphanumeric(byte: u8) -> bool
    ensures { result ≡ classes.is_alphanumeric byte }
{
    is_letter(byte) || is_digit(byte)
}

#[tactic(auto, using(std::proofs::lemmas::Bool::Decides::nat_tests), unfolding(crate::specs::Alphabet::is_name_byte))]
pub fn is_name_byte(byte: u8) -> bool
    ensures { result ≡ classes.is_name_byte byte }
{
    is_alphanumeric(byte) || byte == UNDERSCORE
}

#[tactic(auto, using(std::proofs::lemmas::Bool::Decides::nat_tests), unfolding(crate::specs::Alphabet::is_number_start))]
pub fn is_number_start(byte: u8) -> bool
    ensures { result ≡ classes.is_number_start byte }
{
    is_digit(byte) || byte == UNDERSCORE
}

#[tactic(auto, using(std::proofs::lemmas::Bool::Decides::nat_tests), unfolding(crate::specs::Alphabet::is_number_byte))]
pub fn is_number_byte(byte: u8) -> bool
    ensures { result ≡ classes.is_number_byte byte }
{
    is_name_byte(byte) || byte == POINT
}

#[tactic(auto, using(std::proofs::lemmas::Bool::Decides::nat_tests), unfolding(crate::specs::Alphabet::is_inflection))]
pub fn is_inflection(byte: u8) -> bool
    ensures { result ≡ classes.is_inflection byte }
{
    byte == POINT || byte == COLON
}

/// The byte at a place, or 0 past the end.
pub fn byte_at(bytes: &[u8], at: usize) -> u8
    ensures { result ≡ slice_index bytes.now at }
{
    bytes.get(at).copied().unwrap_or(0)
}

/// How many of the first bytes are of a name.
#[tactic(auto, using(crate::proofs::NumberLists::prefix_bound))]
pub fn name_length(bytes: &[u8]) -> usize
    ensures run { result ≡ prefix_len classes.is_name_byte bytes.now }
    ensures within { result ≤ length bytes.now }
{
    bytes.iter().take_while(|byte| is_name_byte(**byte)).count()
}

/// How many of the first bytes are of a number's run.
#[tactic(auto, using(crate::proofs::NumberLists::prefix_bound))]
pub fn run_length(bytes: &[u8]) -> usize
    ensures run { result ≡ prefix_len classes.is_number_byte bytes.now }
    ensures within { result ≤ length bytes.now }
{
    bytes
        .iter()
        .take_while(|byte| is_number_byte(**byte))
        .count()
}

/// How many of the first bytes are points and colons.
#[tactic(auto, using(crate::proofs::NumberLists::prefix_bound))]
pub fn inflection_length(bytes: &[u8]) -> usize
    ensures run { result ≡ prefix_len classes.is_inflection bytes.now }
    ensures within { result ≤ length bytes.now }
{
    bytes
        .iter()
        .take_while(|byte| is_inflection(**byte))
        .count()
}

/// How many of the first bytes are blanks.
#[tactic(auto, using(crate::proofs::NumberLists::prefix_bound))]
pub fn blank_length(bytes: &[u8]) -> usize
    ensures run { result ≡ prefix_len classes.is_blank bytes.now }
    ensures within { result ≤ length bytes.now }
{
    bytes.iter().take_while(|byte| is_blank(**byte)).count()
}

/// Where the next word would start behind the run with which these bytes begin.
pub fn after_run(bytes: &[u8]) -> usize
    ensures place { result ≡ runs.after_run bytes.now }
    ensures within { result ≤ length bytes.now }
{
    let size = run_length(bytes);
    size + blank_length(&bytes[size..])
}

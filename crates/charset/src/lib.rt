#![tactic(auto)]

ghost use Rattle.std.specs.Prelude.{◌≡◌};
ghost use Rattle.prelude.specs.Choice.{all};
ghost use Rattle.charset.specs.Charset.{letter, digit, name_start, name_byte, free_word, name, spatial_byte, spatial_text};
ghost use Rattle.charset.specs.Named.{named_at};
ghost use Rattle.charset.specs.ClassWords.{class_byte};

// The most bytes of a name.
const NAME_LIMIT: usize = 64;

// The classes of bytes that runs of a text are made of.
#[derive(Clone, Copy)]
pub enum Class {
    Space,
    Name,
    Spatial,
}

#[tactic(auto, unfolding(crate::specs::Charset::letter))]
fn is_letter(b: u8) -> bool
    ensures { result ≡ letter b }
{
    b.is_ascii_alphabetic()
}

#[tactic(auto, unfolding(crate::specs::Charset::digit))]
fn is_digit(b: u8) -> bool
    ensures { result ≡ digit b }
{
    b.is_ascii_digit()
}

#[tactic(auto, unfolding(crate::specs::Charset::name_start))]
pub fn is_name_start(b: u8) -> bool
    ensures { result ≡ name_start b }
{
    is_letter(b) || b == b'_'
}

// Most bytes of names are letters and digits, so the underscore is looked for last. A letter returns at once: as one expression, filters with names
// of 64 letters take an eighth more instructions to lower.
#[tactic(auto, unfolding(crate::specs::Charset::name_start, crate::specs::Charset::name_byte))]
fn is_name_byte(b: u8) -> bool
    ensures { result ≡ name_byte b }
{
    if is_letter(b) {
        return true;
    }
    is_digit(b) || b == b'_'
}

#[tactic(auto, unfolding(crate::specs::Charset::spatial_byte))]
fn is_spatial_byte(b: u8) -> bool
    ensures { result ≡ spatial_byte b }
{
    is_letter(b) || is_digit(b) || matches!(b, b' ' | b'(' | b')' | b','..=b'.')
}

// Whether a byte is of a class.
pub fn is_of(class: Class, b: u8) -> bool
    ensures { result ≡ class_byte class b }
{
    match class {
        Class::Space => b == b' ',
        Class::Name => is_name_byte(b),
        Class::Spatial => is_spatial_byte(b),
    }
}

fn are_name_bytes(s: &[u8]) -> bool
    ensures { result ≡ all name_byte s.now }
{
    s.iter().all(|&b| is_name_byte(b))
}

// Every byte may stand in a Spatial text.
pub fn is_spatial_text(s: &[u8]) -> bool
    ensures { result ≡ spatial_text s.now }
{
    s.iter().all(|&b| is_spatial_byte(b))
}

// What is left of the name rule for a word of name bytes that begins as a name does: its length, and that it is not reserved.
pub fn is_free_word(s: &[u8]) -> bool
    ensures { result ≡ free_word s.now }
{
    s.len() <= NAME_LIMIT && !keyword::is_reserved(s)
}

// A name that the settings, a tree, a row or an SQL text may hold.
#[tactic(auto, using(crate::proofs::Laws::rest_tells), unfolding(crate::specs::Charset::name))]
pub fn is_name(s: &[u8]) -> bool
    ensures { result ≡ name s.now }
{
    !s.is_empty()
        && s.len() <= NAME_LIMIT
        && is_name_start(s[0])
        && are_name_bytes(&s[1..])
        && !keyword::is_reserved(s)
}

// A length byte at i and as many bytes after it that are a name.
pub fn named_at(s: &[u8], i: usize) -> bool
    ensures { result ≡ named_at s.now i }
{
    let Some(&n) = s.get(i) else {
        return false;
    };
    match s[i + 1..].get(..usize::from(n)) {
        Some(word) => is_name(word),
        None => false,
    }
}

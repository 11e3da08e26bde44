// The sequences of bytes that UTF-8 has for characters: the Unicode Standard, Table 3-7.
ghost use Rattle.std.specs.Prelude.{◌≡◌, false, length, get_or, ◌<◌};
ghost use Rattle.prelude.specs.Choice.{between};
ghost use Rattle.string.specs.SequenceWords.{plain, more, lowest, highest, Heads};

// A byte that is a character by itself.
pub(crate) fn is_plain(b: u8) -> bool
    ensures { result ≡ plain b }
{
    matches!(b, b' '..=b'~')
}

// How many bytes follow the first byte b of a longer sequence; 0 if none begins with b.
#[tactic(auto, unfolding(crate::specs::SequenceWords::more))]
fn more_after(b: u8) -> usize
    ensures { (result ≡ more b) × (b < 256) }
{
    match b {
        0..=0xC1 => 0,
        0xC2..=0xDF => 1,
        0xE0..=0xEF => 2,
        0xF0..=0xF4 => 3,
        _ => 0,
    }
}

fn is_tail(b: u8) -> bool
    ensures { result ≡ between 0x80 b 0xBF }
{
    matches!(b, 0x80..=0xBF)
}

// The byte that may follow a first byte b: after four of them the range is smaller, which leaves out the overlong forms, the surrogates and what
// lies above U+10FFFF.
#[tactic(auto, unfolding(crate::specs::SequenceWords::lowest, crate::specs::SequenceWords::highest))]
fn is_second(b: u8, second: u8) -> bool
    ensures { result ≡ between (lowest b) second (highest b) }
{
    match b {
        0xE0 => matches!(second, 0xA0..=0xBF),
        0xED => matches!(second, 0x80..=0x9F),
        0xF0 => matches!(second, 0x90..=0xBF),
        0xF4 => matches!(second, 0x80..=0x8F),
        _ => is_tail(second),
    }
}

// How many bytes the sequence of two or more at the place i has, if one stands there.
pub(crate) fn sequence_at(s: &[u8], i: usize) -> Option<usize>
    requires { (i < length s.now) × (plain (get_or s.now i 0) ≡ false) }
    ensures { Heads s.now i result }
{
    let b = s[i];
    let more = more_after(b);
    if more == 0 || s.len() - i <= more || !is_second(b, s[i + 1]) {
        return None;
    }
    if more == 1 {
        return Some(2);
    }
    if !is_tail(s[i + 2]) {
        return None;
    }
    if more == 2 {
        return Some(3);
    }
    if !is_tail(s[i + 3]) {
        return None;
    }
    Some(4)
}

// Strings: which ones are valid, and where a quoted one ends in a SQL text. Each is told in one pass.
#![tactic(auto)]

mod sequence;

ghost use Rattle.std.specs.Prelude.{◌≡◌, eqb, length, get_or, ◌+◌, ◌<◌};
ghost use Rattle.prelude.specs.Bytes.{apostrophe};
ghost use Rattle.string.specs.Utf8.{valid};
ghost use Rattle.string.specs.Quote.{quoted_size};
ghost use Rattle.string.specs.SequenceWords.{plain, Reaches};
ghost use Rattle.prelude.specs.Choice.{pick, both, negated};

use sequence::{is_plain, sequence_at};

// The byte after the place i is an apostrophe.
fn is_doubled(s: &[u8], i: usize) -> bool
    requires { i < length s.now }
    ensures { result ≡ eqb (get_or s.now (i + 1) 0) apostrophe }
{
    s.get(i + 1) == Some(&b'\'')
}

// A byte that is a character by itself; in a quoted text, no apostrophe. The apostrophe is asked for first: as `is_plain(b) && !(quoted && ..)` the
// walk over accents takes up to 7 in 100 more instructions.
fn is_simple(b: u8, quoted: bool) -> bool
    ensures { result ≡ both (plain b) (negated (both quoted (eqb b apostrophe))) }
{
    if b == b'\'' { !quoted } else { is_plain(b) }
}

// The end of such bytes at the head of s. Most texts end there.
fn past_simple(s: &[u8], quoted: bool) -> usize
    ensures { Reaches quoted s.now result }
{
    s.iter()
        .position(|&b| !is_simple(b, quoted))
        .unwrap_or(s.len())
}

// The rest from the place `from` on. Of a quoted text: its size as below. Of any other string: 1 if it is valid, 0 if it is not. One function for both:
// as a const parameter, so with a copy for each, reading takes 3 to 5 in 100 more instructions (small texts 1.014 of the older form for 0.982, a text of
// 2 KB 1.019 for 0.970), though lowering of strings up to 5 fewer. The place goes on by one, two or a whole sequence, so no `for` counts it.
fn past_sequences(s: &[u8], quoted: bool, from: usize) -> usize
    requires { Reaches quoted s.now from }
    ensures { result ≡ pick quoted (quoted_size s.now) (pick (valid s.now) 1 0) }
{
    let mut i = from;
    while i < s.len() {
        let b = s[i];
        if is_simple(b, quoted) {
            i += 1;
        } else if b == b'\'' {
            if !is_doubled(s, i) {
                return i + 1;
            }
            i += 2;
        } else if let Some(n) = sequence_at(s, i) {
            i += n;
        } else {
            return 0;
        }
    }
    if quoted { 0 } else { 1 }
}

// What a Str text and a row's value may hold.
pub fn is_valid(s: &[u8]) -> bool
    ensures { result ≡ valid s.now }
{
    let i = past_simple(s, false);
    i == s.len() || past_sequences(s, false, i) == 1
}

// How many bytes a quoted text takes of s, which stands after its first mark; 0 if it is no text.
pub fn quoted_size(s: &[u8]) -> usize
    ensures { result ≡ quoted_size s.now }
{
    let i = past_simple(s, true);
    if i == s.len() {
        return 0;
    }
    if s[i] == b'\'' && !is_doubled(s, i) {
        return i + 1;
    }
    past_sequences(s, true, i)
}

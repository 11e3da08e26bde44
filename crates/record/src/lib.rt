#![tactic(auto)]

ghost use Rattle.std.specs.Prelude.{◌≡◌, true, ◌+◌, ◌≤◌, ◌<◌, length, get_or};
ghost use Rattle.record.specs.Record.{le16, le32, le64, signed, frame};

// Where a record's kind and its body begin; before the kind stands the length, which counts what comes after its own four bytes.
pub const KIND: usize = 4;

pub const BODY: usize = 6;

// A record: its kind, and where it ends. Its body lies from 6 to `end`.
#[derive(Clone, Copy, PartialEq, Eq)]
pub struct Frame {
    pub kind: usize,
    pub end: usize,
}

fn word_in(s: &[u8], at: usize) -> usize
    requires { at + 2 ≤ length s.now }
    ensures { (result ≡ le16 s.now at) × (result < 65536) }
{
    usize::from(s[at]) + usize::from(s[at + 1]) * 256
}

fn dword_in(s: &[u8], at: usize) -> usize
    requires { at + 4 ≤ length s.now }
    ensures { (result ≡ le32 s.now at) × (result < 4294967296) }
{
    word_in(s, at) + word_in(s, at + 2) * 65536
}

// The record at the front of s: none where s has fewer than 6 bytes, or where the length is below 2 or passes the end.
#[tactic(auto, unfolding(crate::specs::Record::frame))]
pub fn frame_at(s: &[u8]) -> Option<Frame>
    ensures { result ≡ frame s.now }
{
    if s.len() < BODY {
        return None;
    }
    let n = dword_in(s, 0);
    if n < 2 || s.len() - KIND < n {
        return None;
    }
    Some(Frame {
        kind: word_in(s, KIND),
        end: n + KIND,
    })
}

fn qword_in(s: &[u8], at: usize) -> usize
    requires { at + 8 ≤ length s.now }
    ensures { (result ≡ le64 s.now at) × (result < 18446744073709551616) }
{
    dword_in(s, at) + dword_in(s, at + 4) * 4294967296
}

// The reads below take any place: a byte past the end counts as 0.

pub fn byte_at(s: &[u8], at: usize) -> usize
    ensures { (result ≡ get_or s.now at 0) × (result < 256) }
{
    usize::from(s.get(at).copied().unwrap_or(0))
}

// n bytes from `at` lie in `len` bytes. No sum is made, so `at` may be any number. By two tests with early returns, here and in `dword_past`: one
// expression with && costs reducing 2 % and lowering up to 2 % more instructions, and so does `from_le_bytes` for the words.
fn lies(len: usize, at: usize, n: usize) -> bool
    ensures { result ≡ true → at + n ≤ len }
{
    if len < n {
        return false;
    }
    if len - n < at {
        return false;
    }
    true
}

// A word of which a part may lie past the end.
fn word_past(s: &[u8], at: usize) -> usize
    ensures { (result ≡ le16 s.now at) × (result < 65536) }
{
    if at < s.len() {
        byte_at(s, at) + byte_at(s, at + 1) * 256
    } else {
        0
    }
}

pub fn word_at(s: &[u8], at: usize) -> usize
    ensures { (result ≡ le16 s.now at) × (result < 65536) }
{
    if lies(s.len(), at, 2) {
        return word_in(s, at);
    }
    word_past(s, at)
}

fn dword_past(s: &[u8], at: usize) -> usize
    ensures { (result ≡ le32 s.now at) × (result < 4294967296) }
{
    if s.len() < 2 {
        return word_past(s, at);
    }
    if s.len() - 2 < at {
        return word_past(s, at);
    }
    word_past(s, at) + word_past(s, at + 2) * 65536
}

pub fn dword_at(s: &[u8], at: usize) -> usize
    ensures { (result ≡ le32 s.now at) × (result < 4294967296) }
{
    if lies(s.len(), at, 4) {
        return dword_in(s, at);
    }
    dword_past(s, at)
}

pub fn qword_at(s: &[u8], at: usize) -> usize
    ensures { (result ≡ le64 s.now at) × (result < 18446744073709551616) }
{
    if lies(s.len(), at, 8) {
        return qword_in(s, at);
    }
    if s.len() <= at {
        return 0;
    }
    dword_past(s, at) + dword_past(s, at + 4) * 4294967296
}

// Two's complement without a wrapping step: n less 2^64 is −1 less what n lacks of 2^64 − 1, and that fits.
fn signed_of(n: usize) -> i64
    ensures { result ≡ signed n }
{
    if n < 9223372036854775808 {
        n as i64
    } else {
        -1 - ((18446744073709551615 - n) as i64)
    }
}

// The eight bytes at `at` as a signed number.
pub fn signed_at(s: &[u8], at: usize) -> i64
    ensures { result ≡ signed (le64 s.now at) }
{
    signed_of(qword_at(s, at))
}

// Laying texts over lent bytes and counting where each ends: the one way in which every writer writes.
#![tactic(auto)]

ghost use Rattle.std.specs.Prelude.{◌≡◌, ◌+◌, ◌≤◌, min, length, flat_map};
ghost use Rattle.std.proofs.lemmas.List.Edits.{sets};
ghost use Rattle.prelude.specs.Choice.{pick};
ghost use Rattle.emit.specs.Emit.{count_limit, ended, lacks, Puts};

// Places are counted no further than this, and no byte at or past it is written: one more than the longest text.
pub const COUNT_LIMIT: usize = 65536;

// The place n bytes after `at`.
pub fn ended(at: usize, n: usize) -> usize
    ensures { result ≡ ended count_limit at n }
{
    at.saturating_add(n).min(COUNT_LIMIT)
}

// A buffer of this length lacks room for n bytes from `at`, whatever numbers these are.
pub fn lacks_room(len: usize, at: usize, n: usize) -> bool
    ensures { result ≡ lacks count_limit len at n }
{
    len.min(COUNT_LIMIT) < at.saturating_add(n)
}

// How many bytes the texts have together, as far as a number goes.
fn len_of(texts: &[&[u8]]) -> usize
    ensures { result ≡ min (length (flat_map (λ t. t.now) texts.now)) usize.MAX }
{
    texts
        .iter()
        .fold(0, |n: usize, text| n.saturating_add(text.len()))
}

// Lays s over out from `at`, where it has room. No `copy_from_slice`, which is a memmove: include/wenduulig.h says that the calls need memcpy and memset alone.
fn copy(s: &[u8], out: &mut [u8], at: usize)
    requires { at + length s.now ≤ length out.old }
    ensures { out.new ≡ sets out.old at s.now }
{
    for (i, b) in s.iter().enumerate() {
        out[at + i] = *b;
    }
}

// Lays texts over out from `at`, one after the other, all of them or none; answers the place after the last.
pub fn put_all(texts: &[&[u8]], out: &mut [u8], at: usize) -> usize
    ensures { Puts count_limit at (flat_map (λ t. t.now) texts.now) out.old out.new result }
{
    let n = len_of(texts);
    if lacks_room(out.len(), at, n) {
        return ended(at, n);
    }
    let mut here = at;
    for text in texts {
        copy(text, out, here);
        here += text.len();
    }
    here
}

// One text.
pub fn put(s: &[u8], out: &mut [u8], at: usize) -> usize
    ensures { Puts count_limit at s.now out.old out.new result }
{
    put_all(&[s], out, at)
}

// One of two texts, each by a `put` of its own: so its length is known where it is named.
pub fn put_either(first: bool, a: &[u8], b: &[u8], out: &mut [u8], at: usize) -> usize
    ensures { Puts count_limit at (pick first a.now b.now) out.old out.new result }
{
    if first {
        put(a, out, at)
    } else {
        put(b, out, at)
    }
}

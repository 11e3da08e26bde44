// The order of byte strings: whether two are the same, and how the values of two stand, of which each may be written with its apostrophes doubled.
#![tactic(auto)]

ghost use Rattle.std.specs.Prelude.{◌≡◌, ◌<◌, length};
ghost use Rattle.std.specs.Ordering.{is_eq};
ghost use Rattle.string.specs.Quote.{value_of};
ghost use Rattle.order.specs.Order.{order};
ghost use Rattle.order.specs.ValueWords.{Alike, next_at};

use std::cmp::Ordering;

// Whether a is b. Std's `==` on slices is a call for four bytes and more: with it small texts cost 2 to 3 % more instructions.
#[tactic(auto, using(crate::specs::OrderLaws::other_length))]
pub fn is_same(a: &[u8], b: &[u8]) -> bool
    ensures { result ≡ is_eq (order a.now b.now) }
{
    if a.len() != b.len() {
        return false;
    }
    for (x, y) in a.iter().zip(b) {
        if *x != *y {
            return false;
        }
    }
    true
}

// The place after the byte of value at i: if s is written with its apostrophes doubled, two of them are one byte.
fn after(s: &[u8], written: bool, i: usize) -> usize
    requires { i < length s.now }
    ensures { result ≡ next_at written s.now i }
{
    if written && s[i..].starts_with(b"''") {
        i + 2
    } else {
        i + 1
    }
}

// What `compare_values` says of strings that are alike up to a place.
fn compare_from(a: &[u8], a_written: bool, b: &[u8], b_written: bool, from: usize) -> Ordering
    requires { Alike a_written b_written a.now b.now from from }
    ensures { result ≡ order (value_of a_written a.now) (value_of b_written b.now) }
{
    let mut i = from;
    let mut j = from;
    while i < a.len() && j < b.len() {
        if a[i] != b[j] {
            return a[i].cmp(&b[j]);
        }
        i = after(a, a_written, i);
        j = after(b, b_written, j);
    }
    (i < a.len()).cmp(&(j < b.len()))
}

// How the value of a stands to the value of b; each says whether it is written with its apostrophes doubled.
// Up to the first apostrophe the values are the strings, and most are told there.
pub fn compare_values(a: &[u8], a_written: bool, b: &[u8], b_written: bool) -> Ordering
    ensures { result ≡ order (value_of a_written a.now) (value_of b_written b.now) }
{
    for i in 0..a.len().min(b.len()) {
        if a[i] != b[i] {
            return a[i].cmp(&b[i]);
        }
        if a[i] == b'\'' {
            return compare_from(a, a_written, b, b_written, i);
        }
    }
    a.len().cmp(&b.len())
}

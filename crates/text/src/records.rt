// How the walk reads a record: where it ends, which kind it is, what is literal in it.
ghost use Rattle.std.specs.Prelude.{◌≡◌, true, false, ◌+◌, ◌-◌, ◌≤◌, ◌<◌, min, length, take, drop, eqb};
ghost use Rattle.record.specs.Record.{le16};
ghost use Rattle.prelude.specs.Choice.{between};
ghost use Rattle.tree.specs.Tests.{is_literal, is_literal_or_id};
ghost use Rattle.text.specs.RecordWords.{EndOf};
ghost use Rattle.tree.specs.Tree.{Tree, encode};
ghost use Rattle.tree.specs.Limits.{tree_limit};

use record::{BODY, KIND};
use tree::{ARRAY, BOOL, ID, SPATIAL};

// Where the first operand of a node starts, past its operator.
pub(crate) const OPERAND: usize = 8;

// Where that operand's kind and body stand.
pub(crate) const OPERAND_KIND: usize = OPERAND + KIND;

pub(crate) const OPERAND_BODY: usize = OPERAND + BODY;

// Where that operand's own operand starts, if it is a node of one.
pub(crate) const TWIN_OPERAND: usize = OPERAND + OPERAND;

// Where a Function's name starts, past its length byte.
pub(crate) const NAME: usize = 7;

// What stands in s after its first n bytes.
pub(crate) fn rest(s: &[u8], n: usize) -> &[u8]
    ensures { result.now ≡ drop n s.now }
{
    &s[n.min(s.len())..]
}

// Where the record at p ends, kept inside s. Its length counts from its kind on.
pub(crate) fn end_of(s: &[u8], p: usize) -> usize
    requires { (p ≤ length s.now) × (length s.now ≤ tree_limit) }
    ensures { EndOf s.now p result }
{
    let left = s.len() - p;
    if left < KIND {
        return s.len();
    }
    let n = record::dword_at(s, p);
    if left - KIND < n {
        return s.len();
    }
    p + (KIND + n)
}

pub(crate) fn is_kind(s: &[u8], kind: usize) -> bool
    ensures { result ≡ eqb (le16 s.now 4) kind }
{
    record::word_at(s, KIND) == kind
}

// The range a..z is a part of n bytes that does not start at 0.
pub(crate) fn inside(a: usize, z: usize, n: usize) -> bool
    ensures yes { result ≡ true → (0 < a) × (a ≤ z) × (z ≤ n) }
    ensures no { result ≡ false → 0 < a → a ≤ z → z ≤ n → ⊥ }
{
    0 < a && a <= z && z <= n
}

// A kind that is literal by itself.
#[tactic(auto, using(crate::proofs::Tests::tests))]
fn is_value(kind: usize) -> bool
    ensures { result ≡ between 2 kind 7 }
{
    matches!(kind, BOOL..=SPATIAL)
}

#[tactic(auto, using(crate::proofs::Tests::tests))]
fn is_value_or_id(kind: usize) -> bool
    ensures { result ≡ between 2 kind 8 }
{
    matches!(kind, BOOL..=ID)
}

// `is_literal` without recursion: the records of nested arrays lie one after the other.
fn is_literal(s: &[u8]) -> bool
    requires { length s.now ≤ tree_limit }
    ensures { (t : Tree) → s.now ≡ encode t → result ≡ is_literal t }
{
    let mut p = 0;
    while p < s.len() {
        // No record has fewer bytes.
        if s.len() - p < BODY {
            return false;
        }
        let kind = record::word_at(s, p + KIND);
        if kind == ARRAY {
            p += BODY;
        } else if is_value(kind) {
            p = end_of(s, p);
        } else {
            return false;
        }
    }
    true
}

pub(crate) fn is_literal_or_id(s: &[u8]) -> bool
    requires { length s.now ≤ tree_limit }
    ensures { (t : Tree) → s.now ≡ encode t → result ≡ is_literal_or_id t }
{
    let kind = record::word_at(s, KIND);
    // An array is literal as its items are; of all others the kind says.
    if kind == ARRAY {
        is_literal(s)
    } else {
        is_value_or_id(kind)
    }
}

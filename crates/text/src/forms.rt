// What stands around the operands of a node: an operator between its sides, a call, a collation, a list.
ghost use Rattle.std.specs.Prelude.{◌≡◌, [], true, false, ◌+◌, ◌≤◌, min, length, get_or, eqb};
ghost use Rattle.record.specs.Record.{le16};
ghost use Rattle.prelude.specs.Bytes.{bytes};
ghost use Rattle.prelude.specs.Choice.{pick, negated, between, either};
ghost use Rattle.emit.specs.Emit.{count_limit};
ghost use Rattle.emit.specs.LaysWords.{Lays};
ghost use Rattle.spelling.specs.Spelling.{word};
ghost use Rattle.text.specs.FormWords.{precise, twin_of, infix_text, reduced_text, before_text, behind_text, left_bare, right_bare};
ghost use Rattle.tree.specs.Accepted.{settings_in};
ghost use Rattle.tree.specs.Tree.{Tree, encode};
ghost use Rattle.op.specs.declared.Op.{Op};
ghost use Rattle.op.specs.Op.{op_number};
ghost use Rattle.tree.specs.Limits.{tree_limit};
ghost use Rattle.tree.specs.Kinds.{ARRAY};
ghost use Rattle.class.specs.ClassWords.{between_number, sign_number, spatial_number};

use crate::classes::{is_array, is_between, is_like, is_nullable, is_sign, is_spatial};
use crate::leaves::name_of;
use crate::records::{NAME, OPERAND, TWIN_OPERAND, is_literal_or_id};
use op::{ACCENT_I, CASE_I, S_INTERSECTS};
use record::{BODY, KIND};
use settings::PRECISION_AT;
use tree::{ARRAY, MONADIC};

// What is written of an operator: its spelling (`Op::to_sql`), nothing where it has none.
fn word_of(op: usize) -> &'static [u8]
    ensures { (o : Op) → op ≡ op_number o → result.now ≡ word o }
{
    spelling::of_number(op).unwrap_or(b"")
}

pub(crate) fn put_word(op: usize, out: &mut [u8], at: usize) -> usize
    ensures { (o : Op) → op ≡ op_number o → Lays count_limit at (word o) out.old out.new result }
{
    emit::put(word_of(op), out, at)
}

// An operator between its sides, with the brackets that close the left and open the right one.
pub(crate) fn put_infix(a: bool, op: usize, b: bool, out: &mut [u8], at: usize) -> usize
    ensures { (o : Op) → op ≡ op_number o → Lays count_limit at (infix_text a (word o) b) out.old out.new result }
{
    // One call over two chosen texts took 1 to 3 % more instructions of the walk than these four.
    let word = word_of(op);
    if a {
        if b {
            return emit::put_all(&[b" ", word, b" "], out, at);
        }
        return emit::put_all(&[b" ", word, b" ("], out, at);
    }
    if b {
        return emit::put_all(&[b") ", word, b" "], out, at);
    }
    emit::put_all(&[b") ", word, b" ("], out, at)
}

// An operator of two sides stands between them unless it is spatial or BETWEEN.
#[tactic(auto, using(crate::proofs::Tests::tests))]
pub(crate) fn is_infix(op: usize) -> bool
    ensures { result ≡ negated (either (spatial_number op) (between_number op)) }
{
    // Most operators stand before these in the enum: without the first test the walk took 1 % more instructions.
    op < S_INTERSECTS || !is_spatial(op) && !is_between(op)
}

// The left side is written without brackets.
#[tactic(auto, using(crate::proofs::Tests::tests), unfolding(crate::specs::FormWords::left_bare))]
pub(crate) fn is_left_bare(op: usize, x: &[u8]) -> bool
    requires { length x.now ≤ tree_limit }
    ensures { (t : Tree) → x.now ≡ encode t → result ≡ left_bare op t }
{
    is_array(op) || is_literal_or_id(x)
}

// The right side is written without brackets.
#[tactic(auto, using(crate::proofs::Tests::tests), unfolding(crate::specs::FormWords::right_bare))]
pub(crate) fn is_right_bare(op: usize, y: &[u8]) -> bool
    requires { length y.now ≤ tree_limit }
    ensures { (u : Tree) → y.now ≡ encode u → result ≡ right_bare op u }
{
    is_array(op) || !is_like(op) && is_literal_or_id(y)
}

// CaseI over AccentI, or AccentI over CaseI.
#[tactic(auto, using(crate::proofs::Tests::tests))]
pub(crate) fn is_twin(op: usize, kind: usize, inner: usize) -> bool
    ensures { result ≡ twin_of op kind inner }
{
    if is_nullable(op) || is_sign(op) {
        return false;
    }
    let other = if op == CASE_I { ACCENT_I } else { CASE_I };
    kind == MONADIC && inner == other
}

// What stands before the operand of a node that has one, which is bare or in brackets.
pub(crate) fn put_before(op: usize, bare: bool, out: &mut [u8], at: usize) -> usize
    ensures { (o : Op) → op ≡ op_number o → Lays count_limit at (before_text op (word o) bare) out.old out.new result }
{
    if is_nullable(op) {
        return emit::put_either(bare, b"", b"(", out, at);
    }
    if is_sign(op) {
        let word = put_word(op, out, at);
        return emit::put_either(bare, b" ", b" (", out, word);
    }
    emit::ended(at, 0)
}

// What stands after the operand of a node that has one.
pub(crate) fn put_behind(
    op: usize,
    bare: bool,
    twin: bool,
    set: &[u8],
    out: &mut [u8],
    at: usize,
) -> usize
    ensures { (o : Op) → op ≡ op_number o → Lays count_limit at (behind_text (settings_in set.now) op (word o) bare twin) out.old out.new result }
{
    if is_nullable(op) {
        let word = emit::put_either(bare, b" ", b") ", out, at);
        return put_word(op, out, word);
    }
    if is_sign(op) {
        return emit::put_either(bare, b"", b")", out, at);
    }
    let name = emit::put(b" COLLATE ", out, at);
    emit::put(name_of(settings::collation_flags(op, twin), set), out, name)
}

// Where the operand of a node that has one starts: its own, or its twin's.
pub(crate) fn operand_from(twin: bool, n: usize) -> usize
    ensures { result ≡ pick twin (min 16 n) 8 }
{
    // With `min` the walk took up to 0.8 % more instructions.
    if !twin {
        OPERAND
    } else if TWIN_OPERAND <= n {
        TWIN_OPERAND
    } else {
        n
    }
}

// Where BETWEEN's bounds start: at the first item of the array at m, or at the end if none stands there.
#[tactic(auto, using(crate::proofs::Tests::tests))]
pub(crate) fn bounds_at(s: &[u8], m: usize) -> usize
    requires { (length s.now ≤ tree_limit) × (m ≤ length s.now) }
    ensures { result ≡ pick (eqb (le16 s.now (m + 4)) ARRAY) (min (m + 6) (length s.now)) (length s.now) }
{
    if record::word_at(s, m + KIND) == ARRAY {
        (m + BODY).min(s.len())
    } else {
        s.len()
    }
}

// 1E-p
fn put_precision(set: &[u8], out: &mut [u8], at: usize) -> usize
    ensures { Lays count_limit at (precise (settings_in set.now).precision) out.old out.new result }
{
    let here = emit::put(b"1E-", out, at);
    number::put_decimal(record::byte_at(set, PRECISION_AT), out, here)
}

// What closes a side with its precision reduced.
pub(crate) fn put_reduced(reduced: bool, set: &[u8], out: &mut [u8], at: usize) -> usize
    ensures { Lays count_limit at (pick reduced (reduced_text (settings_in set.now).precision) []) out.old out.new result }
{
    if reduced {
        let comma = emit::put(b", ", out, at);
        let close = put_precision(set, out, comma);
        return emit::put(b")", out, close);
    }
    emit::ended(at, 0)
}

#[tactic(auto, using(crate::proofs::Tests::tests))]
pub(crate) fn put_comma(p: usize, out: &mut [u8], at: usize) -> usize
    ensures { Lays count_limit at (pick (eqb p 0) [] (bytes ", ")) out.old out.new result }
{
    emit::put_either(p == 0, b"", b", ", out, at)
}

// Where a list's items start: after a Function's name, or at an Array's body.
#[tactic(auto, using(crate::proofs::Tests::tests))]
pub(crate) fn items_at(s: &[u8], kind: usize) -> usize
    requires { 6 ≤ length s.now }
    ensures { (6 ≤ result) × (result ≤ length s.now) × (result ≡ min (pick (eqb kind ARRAY) 6 (7 + get_or s.now 6 0)) (length s.now)) }
{
    if kind == ARRAY {
        BODY
    } else {
        (NAME + record::byte_at(s, BODY)).min(s.len())
    }
}

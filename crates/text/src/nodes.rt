// `to_sql_impl`: a node and the items of its list are written by turns, each inside the other.
ghost use Rattle.std.specs.Prelude.{◌≡◌, true, false, ℕ, ◌≤◌, ◌<◌, length};
ghost use Rattle.record.specs.Record.{le16};
ghost use Rattle.emit.specs.Emit.{count_limit};
ghost use Rattle.emit.specs.LaysWords.{Lays};
ghost use Rattle.text.specs.Text.{text, texts, joined};
ghost use Rattle.text.specs.EndWords.{temporal_of};
ghost use Rattle.text.specs.NodeWords.{Bound, Node};
ghost use Rattle.text.specs.RecordWords.{sound, sounds};
ghost use Rattle.tree.specs.Accepted.{settings_in};
ghost use Rattle.tree.specs.Tree.{Tree, Trees, encode, encodes};
ghost use Rattle.tree.specs.Limits.{tree_limit};
ghost use Rattle.tree.specs.Kinds.{DYADIC, MONADIC};
ghost use Rattle.class.specs.ClassWords.{temporal_number, spatial_number, between_number};

use crate::Style;
use crate::classes::is_spatial;
use crate::ends::{is_temporal, template_of, temporal_ends};
use crate::forms::{
    bounds_at, is_infix, is_left_bare, is_right_bare, is_twin, items_at, operand_from, put_before,
    put_behind, put_comma, put_infix, put_reduced, put_word,
};
use crate::leaves::{put_date, put_leaf};
use crate::records::{
    NAME, OPERAND, OPERAND_BODY, OPERAND_KIND, end_of, inside, is_kind, is_literal_or_id, rest,
};
use class::reduce_precision;
use emit::COUNT_LIMIT;
use part::{Piece, piece_of, put_flat};
use record::{BODY, KIND};
use tree::{ARRAY, DATE, FUNCTION, ID, MONADIC};

// The items of a list, one after the other, with a comma between.
#[cycle(nodes)]
fn write_items(s: &[u8], style: Style<'_>, out: &mut [u8], at: usize) -> usize
    requires { (length s.now ≤ tree_limit) }
    ensures { (ts : Trees) → s.now ≡ encodes ts → sounds ts ≡ true → Lays count_limit at (joined (texts style.entry.writing (settings_in style.entry.set.now) ts)) out.old out.new result }
{
    let mut here = emit::ended(at, 0);
    let mut p = 0;
    while p < s.len() {
        let comma = put_comma(p, out, here);
        let z = end_of(s, p);
        here = to_sql_impl(&s[p..z], style, out, comma);
        p = z;
    }
    here
}

// An operator between its sides, each in brackets unless it is bare.
#[cycle(nodes)]
fn write_infix(s: &[u8], op: usize, m: usize, style: Style<'_>, out: &mut [u8], at: usize) -> usize
    requires { (length s.now ≤ tree_limit) × (8 ≤ m) × (m ≤ length s.now) }
    ensures { (t : Tree) → Node s.now DYADIC op m t → temporal_number op ≡ false → spatial_number op ≡ false → between_number op ≡ false → Lays count_limit at (text style.entry.writing (settings_in style.entry.set.now) t) out.old out.new result }
{
    let a = is_left_bare(op, &s[OPERAND..m]);
    let b = is_right_bare(op, &s[m..]);
    let open = emit::put_either(a, b"", b"(", out, at);
    let left = to_sql_impl(&s[OPERAND..m], style, out, open);
    let here = put_infix(a, op, b, out, left);
    let right = to_sql_impl(&s[m..], style, out, here);
    emit::put_either(b, b"", b")", out, right)
}

// A node of one operand.
#[cycle(nodes)]
fn write_monadic(s: &[u8], op: usize, style: Style<'_>, out: &mut [u8], at: usize) -> usize
    requires { (length s.now ≤ tree_limit) × (14 ≤ length s.now) }
    ensures { (m : ℕ) (t : Tree) → Node s.now MONADIC op m t → Lays count_limit at (text style.entry.writing (settings_in style.entry.set.now) t) out.old out.new result }
{
    let bare = is_literal_or_id(&s[OPERAND..]);
    let twin = is_twin(
        op,
        record::word_at(s, OPERAND_KIND),
        record::word_at(s, OPERAND_BODY),
    );
    let from = operand_from(twin, s.len());
    let before = put_before(op, bare, out, at);
    let here = to_sql_impl(&s[from..], style, out, before);
    put_behind(op, bare, twin, style.set, out, here)
}

// A bound of BETWEEN, or NULL where there is none.
#[cycle(nodes)]
fn write_bound(s: &[u8], a: usize, z: usize, style: Style<'_>, out: &mut [u8], at: usize) -> usize
    requires { (length s.now ≤ tree_limit) × (8 ≤ a) × (a ≤ z) × (z ≤ length s.now) }
    ensures { (x : Tree) → Bound s.now a z x → Lays count_limit at (text style.entry.writing (settings_in style.entry.set.now) x) out.old out.new result }
{
    if a == z {
        return emit::put(b"NULL", out, at);
    }
    to_sql_impl(&s[a..z], style, out, at)
}

// BETWEEN, whose right side is an array of its bounds.
#[cycle(nodes)]
fn write_between(
    s: &[u8],
    op: usize,
    m: usize,
    style: Style<'_>,
    out: &mut [u8],
    at: usize,
) -> usize
    requires { (length s.now ≤ tree_limit) × (8 ≤ m) × (m ≤ length s.now) }
    ensures { (t : Tree) → Node s.now DYADIC op m t → between_number op ≡ true → Lays count_limit at (text style.entry.writing (settings_in style.entry.set.now) t) out.old out.new result }
{
    let p = bounds_at(s, m);
    let q = end_of(s, p);
    let z = end_of(s, q);
    let left = to_sql_impl(&s[OPERAND..m], style, out, at);
    let word = put_infix(true, op, true, out, left);
    let low = write_bound(s, p, q, style, out, word);
    let upto = emit::put(b" AND ", out, low);
    write_bound(s, q, z, style, out, upto)
}

// A spatial operator: a call, of whose sides one may have its precision reduced.
#[cycle(nodes)]
fn write_spatial(
    s: &[u8],
    op: usize,
    m: usize,
    style: Style<'_>,
    out: &mut [u8],
    at: usize,
) -> usize
    requires { (length s.now ≤ tree_limit) × (8 ≤ m) × (m ≤ length s.now) }
    ensures { (t : Tree) → Node s.now DYADIC op m t → spatial_number op ≡ true → Lays count_limit at (text style.entry.writing (settings_in style.entry.set.now) t) out.old out.new result }
{
    let x = is_kind(&s[OPERAND..m], ID);
    let y = is_kind(&s[m..], ID);
    let a = reduce_precision(op, x, y);
    let b = reduce_precision(op, y, x);
    let word = put_word(op, out, at);
    let open = emit::put_either(a, b"(ST_ReducePrecision(", b"(", out, word);
    let left = to_sql_impl(&s[OPERAND..m], style, out, open);
    let comma = put_reduced(a, style.set, out, left);
    let next = emit::put_either(b, b", ST_ReducePrecision(", b", ", out, comma);
    let right = to_sql_impl(&s[m..], style, out, next);
    let close = put_reduced(b, style.set, out, right);
    emit::put(b")", out, close)
}

// The text of a node with operands that is not temporal.
#[cycle(nodes)]
fn write_others(
    s: &[u8],
    kind: usize,
    op: usize,
    m: usize,
    style: Style<'_>,
    out: &mut [u8],
    at: usize,
) -> usize
    requires { (length s.now ≤ tree_limit) × (14 ≤ length s.now) × (8 ≤ m) × (m ≤ length s.now) }
    ensures { (t : Tree) → Node s.now kind op m t → temporal_of kind op ≡ false → Lays count_limit at (text style.entry.writing (settings_in style.entry.set.now) t) out.old out.new result }
{
    if kind == MONADIC {
        return write_monadic(s, op, style, out, at);
    }
    if is_infix(op) {
        return write_infix(s, op, m, style, out, at);
    }
    if is_spatial(op) {
        return write_spatial(s, op, m, style, out, at);
    }
    write_between(s, op, m, style, out, at)
}

// An end that is no column. Most are dates, which are written where they are met, without a visit to the node.
#[cycle(nodes)]
fn write_end(s: &[u8], style: Style<'_>, out: &mut [u8], at: usize) -> usize
    requires { (length s.now ≤ tree_limit) }
    ensures { (t : Tree) → s.now ≡ encode t → sound t ≡ true → Lays count_limit at (text style.entry.writing (settings_in style.entry.set.now) t) out.old out.new result }
{
    if record::word_at(s, KIND) == DATE {
        return put_date(s, out, at);
    }
    to_sql_impl(s, style, out, at)
}

// The text of a node with operands: of a temporal one its template filled.
#[cycle(nodes)]
fn write_operands(s: &[u8], style: Style<'_>, out: &mut [u8], at: usize) -> usize
    requires { (length s.now ≤ tree_limit) × (14 ≤ length s.now) }
    ensures { (t : Tree) → s.now ≡ encode t → sound t ≡ true → 9 ≤ le16 s.now 4 → le16 s.now 4 < 11 → Lays count_limit at (text style.entry.writing (settings_in style.entry.set.now) t) out.old out.new result }
{
    let kind = record::word_at(s, KIND);
    let op = record::word_at(s, BODY);
    let m = end_of(s, OPERAND);
    if !is_temporal(kind, op) {
        return write_others(s, kind, op, m, style, out, at);
    }
    let e = temporal_ends(s, m);
    let t = template_of(s, op, m, e);
    let parts = t.as_slice();
    let mut here = emit::ended(at, 0);
    for &part in parts {
        match piece_of(part, &e) {
            Piece::Plain(flat) => {
                here = put_flat(flat, style.writing, out, here);
            }
            Piece::Node(a, z) => {
                if !inside(a, z, s.len()) {
                    return here;
                }
                here = write_end(&s[a..z], style, out, here);
            }
            Piece::Name(a, z) => {
                if !inside(a, z, s.len()) {
                    return here;
                }
                here = emit::put(rest(&s[a..z], BODY), out, here);
            }
        }
    }
    here
}

// The text of a tree. A node and the items of its list are written by turns, each inside the other.
#[cycle(nodes)]
pub(crate) fn to_sql_impl(s: &[u8], style: Style<'_>, out: &mut [u8], at: usize) -> usize
    requires { (length s.now ≤ tree_limit) }
    ensures { (t : Tree) → s.now ≡ encode t → sound t ≡ true → Lays count_limit at (text style.entry.writing (settings_in style.entry.set.now) t) out.old out.new result }
{
    // Past the limit nothing is counted or written any more.
    if COUNT_LIMIT <= at {
        return COUNT_LIMIT;
    }
    let kind = record::word_at(s, KIND);
    if kind < MONADIC {
        return put_leaf(s, style, out, at);
    }
    if ARRAY < kind {
        return emit::ended(at, 0);
    }
    if s.len() < BODY {
        return emit::ended(at, 0);
    }
    if kind < FUNCTION {
        if s.len() < OPERAND_BODY {
            return emit::ended(at, 0);
        }
        return write_operands(s, style, out, at);
    }
    let to = items_at(s, kind);
    let name = emit::put(&s[NAME.min(to)..to], out, at);
    let open = emit::put(b"(", out, name);
    let here = write_items(&s[to..], style, out, open);
    emit::put(b")", out, here)
}

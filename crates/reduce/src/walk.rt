// The walk: each record is reduced and written once, its head last. A node and its operands are reduced by turns, each inside the other.
// A kind stays its number here: it is read from a record and written into the next as it is, and `match` names it by tree's constants.
ghost use Rattle.std.specs.Prelude.{◌≡◌, ℕ, Ok, ◌+◌, ◌≤◌, ◌<◌, length};
ghost use Rattle.record.specs.Record.{le16};
ghost use Rattle.op.specs.declared.Op.{Op};
ghost use Rattle.tree.specs.Tree.{Tree, Trees, encode, encodes, monadic};
ghost use Rattle.tree.specs.GoodWords.{AllGood, Good};
ghost use Rattle.tree.specs.Kinds.{DYADIC, FUNCTION, MONADIC};
ghost use Rattle.reduce.specs.declared.Chain.TheVariants.{Other};
ghost use Rattle.reduce.specs.Reduced.{reduceds};
ghost use Rattle.reduce.specs.WalkWords.{Folds, Lists, Placed, Row, name_of, way_of};

use crate::chains::{chain, op_at};
use crate::leaves::leaf_sort;
use crate::records::{OPERAND, put, put_frame, put_meet, put_str, put_turn};
use crate::rules::{meet, turn};
use crate::{Chain, Operand, Sort};
use record::{BODY, KIND};
use refusal::Refusal;
use tree::{DYADIC, FUNCTION, MONADIC};

// Where a Function's name starts, past its length byte.
const NAME: usize = 7;

// A leaf stays as it is.
fn fold_leaf(s: &[u8], kind: usize, room: &mut [u8], at: usize) -> Operand
    requires { Placed s.now at room.old }
    ensures { (t : Tree) (n : ℕ) → s.now ≡ encode t → Good t n → kind ≡ le16 s.now 4 → kind < 9 → Folds at t room.old room.new (Ok result) }
{
    let end = put(s, room, at);
    Operand {
        end,
        sort: leaf_sort(s, kind),
    }
}

// A Monadic whose operand decides.
#[cycle(folds)]
fn fold_operand(s: &[u8], room: &mut [u8], at: usize) -> Result<Operand, Refusal>
    requires { Placed s.now at room.old × (le16 s.now 4 ≡ MONADIC) }
    ensures { (o : Op) (t : Tree) (n : ℕ) → s.now ≡ encode (monadic o t) → Good t n → way_of o t ≡ Other → Folds at (monadic o t) room.old room.new result }
{
    let op = op_at(s);
    let v = fold(&s[OPERAND..], room, at + OPERAND)?;
    Ok(put_turn(turn(op, v.sort), op, v.end, room, at))
}

#[cycle(folds)]
fn fold_monadic(s: &[u8], room: &mut [u8], at: usize) -> Result<Operand, Refusal>
    requires { Placed s.now at room.old × (le16 s.now 4 ≡ MONADIC) }
    ensures { (t : Tree) (n : ℕ) → s.now ≡ encode t → Good t n → Folds at t room.old room.new result }
{
    match chain(s) {
        Chain::Text { len, flags } => Ok(put_str(&s[s.len() - len..], flags, room, at)),
        Chain::Twin => fold(&s[OPERAND..], room, at),
        Chain::Other => fold_operand(s, room, at),
    }
}

#[cycle(folds)]
fn fold_dyadic(s: &[u8], room: &mut [u8], at: usize) -> Result<Operand, Refusal>
    requires { Placed s.now at room.old × (le16 s.now 4 ≡ DYADIC) }
    ensures { (t : Tree) (n : ℕ) → s.now ≡ encode t → Good t n → Folds at t room.old room.new result }
{
    let op = op_at(s);
    let m = OPERAND + KIND + record::dword_at(s, OPERAND);
    let a = fold(&s[OPERAND..m], room, at + OPERAND)?;
    let b = fold(&s[m..], room, a.end)?;
    put_meet(meet(op, a.sort, b.sort), op, b.end, room, at)
}

// Where the items of a Function, Array or Interval start.
fn items_at(s: &[u8], kind: usize) -> usize
    ensures { (t : Tree) → s.now ≡ encode t → kind ≡ le16 s.now 4 → FUNCTION ≤ kind → result ≡ 6 + length (name_of t) }
{
    if kind == FUNCTION {
        NAME + record::byte_at(s, BODY)
    } else {
        BODY
    }
}

// Records one after the other; answers the place after them.
#[cycle(folds)]
fn fold_list(s: &[u8], room: &mut [u8], at: usize) -> Result<usize, Refusal>
    requires { Row s.now at room.old }
    ensures { (ts : Trees) (n : ℕ) → s.now ≡ encodes ts → AllGood ts n → Lists at (reduceds ts) room.old room.new result }
{
    let mut here = at;
    // A record says where it ends, so no iterator gives the next one.
    let mut p = 0;
    while p < s.len() {
        let z = p + KIND + record::dword_at(s, p);
        here = fold(&s[p..z], room, here)?.end;
        p = z;
    }
    Ok(here)
}

// A Function, Array or Interval: its items, and then its length and kind.
#[cycle(folds)]
fn fold_items(s: &[u8], kind: usize, room: &mut [u8], at: usize) -> Result<Operand, Refusal>
    requires { Placed s.now at room.old × (kind ≡ le16 s.now 4) × (FUNCTION ≤ kind) × (kind < 65536) }
    ensures { (t : Tree) (n : ℕ) → s.now ≡ encode t → Good t n → Folds at t room.old room.new result }
{
    let p = items_at(s, kind);
    let from = put(&s[BODY..p], room, at + BODY);
    let end = fold_list(&s[p..], room, from)?;
    put_frame(kind, end - at - BODY, room, at);
    Ok(Operand {
        end,
        sort: Sort::Other,
    })
}

// Reduces the record s and writes what comes of it at `at`, unless that is refused.
#[cycle(folds)]
pub(crate) fn fold(s: &[u8], room: &mut [u8], at: usize) -> Result<Operand, Refusal>
    requires { Placed s.now at room.old }
    ensures { (t : Tree) (n : ℕ) → s.now ≡ encode t → Good t n → Folds at t room.old room.new result }
{
    let kind = record::word_at(s, KIND);
    if kind < MONADIC {
        return Ok(fold_leaf(s, kind, room, at));
    }
    match kind {
        MONADIC => fold_monadic(s, room, at),
        DYADIC => fold_dyadic(s, room, at),
        _ => fold_items(s, kind, room, at),
    }
}

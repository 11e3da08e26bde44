// How reduced records are written into a room that the caller does not see. The room and the place stay two parameters: a head is written before operands
// that stand already, or something over them, so a writer that stands at the end of what is written is no plainer.
ghost use Rattle.std.specs.Prelude.{◌≡◌, true, List, ℕ, ◌+◌, ◌%◌, ◌≤◌, ◌<◌, ℤ, nat_abs, neg_ℤ, length};
ghost use Rattle.std.proofs.lemmas.List.Edits.{sets};
ghost use Rattle.op.specs.Op.{op_number};
ghost use Rattle.tree.specs.Limits.{mantissa_limit, tree_limit};
ghost use Rattle.tree.specs.Tree.{Tree, encode, null, bool, monadic, num, str, twos};
ghost use Rattle.tree.specs.GoodWords.{Good};
ghost use Rattle.reduce.specs.declared.Turn.TheVariants.{Negate};
ghost use Rattle.reduce.specs.declared.Sort.TheVariants.{Num};
ghost use Rattle.reduce.specs.Sort.{sort_number, sort_of};
ghost use Rattle.reduce.specs.Rules.{turn};
ghost use Rattle.reduce.specs.Reduced.{met, minus, turned};
ghost use Rattle.reduce.specs.WalkWords.{Holds, Kept, Meets, Pair, Writes, done_at, frame_of, head_of, num_of, operand, written};

use crate::{Meet, Operand, Sort, Turn};
use op::Op;
use record::BODY;
use refusal::Refusal;
use tree::{DYADIC, MONADIC};

// Where the first operand of a node starts, past its operator.
pub(crate) const OPERAND: usize = 8;

// Where a Str's text starts, past its flags.
const TEXT: usize = 7;

// Lays s at `at`; answers the place after it.
pub(crate) fn put(s: &[u8], room: &mut [u8], at: usize) -> usize
    requires { (at + length s.now ≤ length room.old) × (length room.old ≤ tree_limit) }
    ensures { (result ≡ at + length s.now) × (room.new ≡ sets room.old at s.now) }
{
    emit::put(s, room, at)
}

// Length and kind, before a body of n bytes.
pub(crate) fn put_frame(kind: usize, n: usize, room: &mut [u8], at: usize)
    requires { (at + 6 ≤ length room.old) × (length room.old ≤ tree_limit) × (n ≤ tree_limit) × (kind < 65536) }
    ensures { room.new ≡ sets room.old at (frame_of kind n) }
{
    let [a, b, c, d] = ((n + 2) as u32).to_le_bytes();
    let [e, f] = (kind as u16).to_le_bytes();
    put(&[a, b, c, d, e, f], room, at);
}

// Length, kind and operator, before operands of n bytes.
fn put_head(kind: usize, op: Op, n: usize, room: &mut [u8], at: usize)
    requires { (at + 8 ≤ length room.old) × (length room.old ≤ tree_limit) × (n ≤ tree_limit) × (kind < 65536) }
    ensures { room.new ≡ sets room.old at (head_of kind (op_number op) n) }
{
    let [a, b, c, d] = ((n + 4) as u32).to_le_bytes();
    let [e, f] = (kind as u16).to_le_bytes();
    let [g, h] = (op as u16).to_le_bytes();
    put(&[a, b, c, d, e, f, g, h], room, at);
}

fn put_null(room: &mut [u8], at: usize) -> Operand
    requires { (at + 6 ≤ length room.old) × (length room.old ≤ tree_limit) }
    ensures { (result ≡ done_at at null) × (room.new ≡ sets room.old at (encode null)) }
{
    let end = put(b"\x02\x00\x00\x00\x00\x00", room, at);
    Operand {
        end,
        sort: Sort::Null,
    }
}

fn put_bool(b: bool, room: &mut [u8], at: usize) -> Operand
    requires { (at + 7 ≤ length room.old) × (length room.old ≤ tree_limit) }
    ensures { (result ≡ done_at at (bool b)) × (room.new ≡ sets room.old at (encode (bool b))) }
{
    let end = put(&[3, 0, 0, 0, 2, 0, u8::from(b)], room, at);
    Operand {
        end,
        sort: Sort::Bool(b),
    }
}

// A Num of these eight bytes and this scale.
fn put_num(n: usize, scale: usize, room: &mut [u8], at: usize) -> Operand
    requires { (at + 15 ≤ length room.old) × (length room.old ≤ tree_limit) × (scale < 256) }
    ensures { (result ≡ operand (at + 15) Num) × (room.new ≡ sets room.old at (num_of n scale)) }
{
    let [a, b, c, d, e, f, g, h] = n.to_le_bytes();
    let record = [11, 0, 0, 0, 3, 0, a, b, c, d, e, f, g, h, scale as u8];
    let end = put(&record, room, at);
    Operand {
        end,
        sort: Sort::Num,
    }
}

// The Num that stands eight bytes behind `at`, with its sign changed.
fn negate(room: &mut [u8], at: usize) -> Operand
    requires { (at + 23 ≤ length room.old) × (length room.old ≤ tree_limit) }
    ensures { (v : Tree) (k : ℕ) (l : List ℕ) → Holds (at + 8) (encode v) l room.old → Good v k → sort_number (sort_of v) ≡ 4 → Writes at (minus v) l room.new result }
{
    let n = record::qword_at(room, at + 14).wrapping_neg();
    let scale = record::byte_at(room, at + 22);
    put_num(n, scale, room, at)
}

// A Str's record with other flags.
pub(crate) fn put_str(s: &[u8], flags: usize, room: &mut [u8], at: usize) -> Operand
    requires { (7 ≤ length s.now) × (at + length s.now ≤ length room.old) × (length room.old ≤ tree_limit) × (flags < 256) }
    ensures { (f : ℕ) (x : List ℕ) → s.now ≡ encode (str f x) → (result ≡ done_at at (str flags x)) × (room.new ≡ sets room.old at (encode (str flags x))) }
{
    let end = emit::put_all(&[&s[0..BODY], &[flags as u8], &s[TEXT..]], room, at);
    Operand {
        end,
        sort: Sort::Str,
    }
}

// The sort of a Monadic that is kept.
fn kept_sort(op: Op) -> Sort
    ensures { (v : Tree) → result ≡ sort_of (monadic op v) }
{
    match op {
        Op::CaseI => Sort::CaseI,
        Op::AccentI => Sort::AccentI,
        _ => Sort::Other,
    }
}

// Writes what a Monadic becomes, its reduced operand standing eight bytes behind `at`, up to `end`.
pub(crate) fn put_turn(c: Turn, op: Op, end: usize, room: &mut [u8], at: usize) -> Operand
    requires { (at + 14 ≤ end) × (end ≤ length room.old) × (length room.old ≤ tree_limit) × (c ≡ Negate → at + 23 ≤ end) }
    ensures { (v : Tree) (k : ℕ) (l : List ℕ) → Kept at end v l room.old → Good v k → c ≡ turn op (sort_of v) → written c ≡ true → Writes at (turned c op v) l room.new result }
{
    match c {
        Turn::ToNull => put_null(room, at),
        Turn::ToBool(b) => put_bool(b, room, at),
        Turn::Negate => negate(room, at),
        // It stays. What CaseI and AccentI make of a Str and of themselves was seen before anything was written (chains.rt).
        _ => {
            put_head(MONADIC, op, end - at - OPERAND, room, at);
            Operand {
                end,
                sort: kept_sort(op),
            }
        }
    }
}

// Writes what a Dyadic becomes, its reduced operands standing eight bytes behind `at`, up to `end`.
pub(crate) fn put_meet(
    c: Meet,
    op: Op,
    end: usize,
    room: &mut [u8],
    at: usize,
) -> Result<Operand, Refusal>
    requires { (at + 20 ≤ end) × (end ≤ length room.old) × (length room.old ≤ tree_limit) }
    ensures { (a b : Tree) (l : List ℕ) → Pair at end a b l room.old → Meets at (met c op a b) l room.new result }
{
    match c {
        Meet::Clash => Err(Refusal::ConstantOperands),
        Meet::MeetNull => Ok(put_null(room, at)),
        Meet::MeetBool(b) => Ok(put_bool(b, room, at)),
        Meet::Keeps => {
            put_head(DYADIC, op, end - at - OPERAND, room, at);
            Ok(Operand {
                end,
                sort: Sort::Other,
            })
        }
    }
}

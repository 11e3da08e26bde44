// Reducing a tree before it is lowered: document 02, slip 8; `E::reduce` of src/expr.rs.
#![tactic(auto)]

ghost use Rattle.std.specs.Prelude.{◌≡◌, ℕ, ◌≤◌, length};
ghost use Rattle.tree.specs.Limits.{tree_limit};
ghost use Rattle.tree.specs.GoodWords.{Good};
ghost use Rattle.tree.specs.Tree.{Tree, encode};
ghost use Rattle.tree.specs.Parse.{also};
ghost use Rattle.tree.specs.Written.{leaves, said};
ghost use Rattle.reduce.specs.Sort.{is_constant, is_logic};
ghost use Rattle.reduce.specs.Reduced.{reduced};
ghost use Rattle.reduce.specs.Reducing.{answer, fitted, heard, reducing};
ghost use Rattle.reduce.specs.WalkWords.{Answers, Placed, Recorded};

use crate::walk::fold;
use refusal::Refusal;
use tree::PLANNER;

mod chains;
mod leaves;
mod records;
mod rules;
mod walk;

// As long as most filters are.
const SMALL: usize = 1024;

// What a reduced operand is to the node above it.
#[derive(Clone, Copy)]
enum Sort {
    Null,
    Bool(bool),
    // Date, Timestamp, Unbounded, at its place in time
    Instant(usize),
    Num,
    Str,
    Spatial,
    // Monadic CaseI, Monadic AccentI
    CaseI,
    AccentI,
    Other,
}

impl Sort {
    // What And and Or join.
    fn is_logic(self) -> bool
        ensures { result ≡ is_logic self }
    {
        matches!(self, Sort::Null | Sort::Bool(_))
    }

    // What `as_literal` accepts.
    fn is_constant(self) -> bool
        ensures { result ≡ is_constant self }
    {
        !matches!(self, Sort::CaseI | Sort::AccentI | Sort::Other)
    }
}

// A reduced tree in the room: where it ends, and what it is to the node above it.
#[derive(Clone, Copy)]
struct Operand {
    end: usize,
    sort: Sort,
}

// What a Monadic becomes, its operand being reduced.
#[derive(Clone, Copy)]
enum Turn {
    Keep,
    ToNull,
    ToBool(bool),
    // the operand itself: CaseI of CaseI
    Stay,
    // of a Num
    Negate,
    // of a Str
    NoCase,
    NoAccent,
}

// What a Dyadic becomes, its operands being reduced.
#[derive(Clone, Copy)]
enum Meet {
    Keeps,
    MeetNull,
    MeetBool(bool),
    // 14
    Clash,
}

// What stands below a Monadic, looked at before anything is written.
#[derive(Clone, Copy)]
enum Chain {
    // Only CaseI and AccentI down to a Str, whose record has so many bytes; and its flags, joined with theirs.
    Text { len: usize, flags: usize },
    // The same CaseI or AccentI again.
    Twin,
    Other,
}

// Reduces an accepted tree in a room that is long enough, and copies what came of it.
fn reduce_in(tree: &[u8], room: &mut [u8], out: &mut [u8]) -> Result<usize, Refusal>
    requires { Placed tree.now 0 room.old }
    ensures { (t : Tree) (n : ℕ) → tree.now ≡ encode t → Good t n → Answers (also (reduced t) (λ u. fitted (length out.old) (encode u))) out.old out.new result }
{
    let end = fold(tree, room, 0)?.end;
    if out.len() < end {
        return Err(Refusal::BufferTooShort);
    }
    emit::put(&room[..end], out, 0);
    Ok(end)
}

// Reduces an accepted tree. A room has to be filled with something before it is used, so most filters get a small one.
fn reduce_accepted(tree: &[u8], out: &mut [u8]) -> Result<usize, Refusal>
    requires { Recorded tree.now × (length tree.now ≤ tree_limit) }
    ensures { (t : Tree) (n : ℕ) → tree.now ≡ encode t → Good t n → Answers (also (reduced t) (λ u. fitted (length out.old) (encode u))) out.old out.new result }
{
    if tree.len() <= SMALL {
        let mut room = [0u8; SMALL];
        return reduce_in(tree, &mut room, out);
    }
    let mut room = [0u8; PLANNER.tree];
    reduce_in(tree, &mut room, out)
}

// Reduces a tree: what comes of it as a record at the front of `out`, and its length, or the refusal that comes first, 2 to 7, then 14, then 9; a
// refusal writes nothing.
pub fn reduce(tree: &[u8], out: &mut [u8]) -> Result<usize, Refusal>
    ensures says { result ≡ answer (reducing tree.now (length out.old)) }
    ensures bytes { out.new ≡ leaves out.old (reducing tree.now (length out.old)) }
    ensures hears { heard result ≡ said (reducing tree.now (length out.old)) }
{
    tree::check_tree(PLANNER, tree)?;
    reduce_accepted(tree, out)
}

// What stands below a Monadic, seen before anything is written, so that no text is moved: CaseI and AccentI of a Str, and of themselves.
ghost use Rattle.std.specs.Prelude.{◌≡◌, [], ◌∷◌};
ghost use Rattle.record.specs.Record.{le16};
ghost use Rattle.op.specs.declared.Op.{Op};
ghost use Rattle.op.specs.declared.Op.TheVariants.{CaseI, AccentI};
ghost use Rattle.op.specs.Op.{one_of, op_number};
ghost use Rattle.tree.specs.Tree.{Tree, encode, monadic};
ghost use Rattle.reduce.specs.WalkWords.{Operated, Recorded, chain_of, joined, twin, way_of};
ghost use Rattle.reduce.specs.Reduced.{and_accent, and_case};

use crate::Chain;
use crate::records::OPERAND;
use op::{ACCENT_I, CASE_I, Op};
use record::{BODY, KIND};
use tree::{MONADIC, STR};

// The operator of a Monadic or Dyadic.
pub(crate) fn op_at(s: &[u8]) -> Op
    requires { Operated s.now }
    ensures { (o : Op) → le16 s.now 6 ≡ op_number o → result ≡ o }
{
    op::op_of(record::word_at(s, BODY)).unwrap()
}

// A chain below one more CaseI or AccentI.
fn joined(c: Chain, op: Op) -> Chain
    ensures case { op ≡ CaseI → result ≡ joined and_case c }
    ensures accent { op ≡ AccentI → result ≡ joined and_accent c }
{
    match c {
        Chain::Text { len, flags } => match op {
            Op::CaseI => Chain::Text {
                len,
                flags: flags / 2 * 2 + 1,
            },
            _ => Chain::Text {
                len,
                flags: 2 + flags % 2,
            },
        },
        Chain::Twin | Chain::Other => Chain::Other,
    }
}

// CaseI and AccentI down to a Str, or Other. The number is looked at as it is: with `op_at` a deep chain took a quarter more instructions.
fn text_below(s: &[u8]) -> Chain
    requires { Recorded s.now }
    ensures { (t : Tree) → s.now ≡ encode t → result ≡ chain_of t }
{
    let kind = record::word_at(s, KIND);
    if kind == STR {
        let flags = record::byte_at(s, BODY);
        return Chain::Text {
            len: s.len(),
            flags,
        };
    }
    if kind != MONADIC {
        return Chain::Other;
    }
    let op = record::word_at(s, BODY);
    match op {
        CASE_I => joined(text_below(&s[OPERAND..]), Op::CaseI),
        ACCENT_I => joined(text_below(&s[OPERAND..]), Op::AccentI),
        _ => Chain::Other,
    }
}

// Those of which a second one changes nothing.
#[tactic(auto, using(op::specs::OpLaws::one_of_lem, op::specs::OpLaws::none_of_lem))]
fn folds(op: Op) -> bool
    ensures { result ≡ one_of op (CaseI ∷ AccentI ∷ []) }
{
    matches!(op, Op::CaseI | Op::AccentI)
}

// CaseI of CaseI, or AccentI of AccentI.
fn is_twin(s: &[u8]) -> bool
    requires { Operated s.now }
    ensures { (o : Op) (t : Tree) → s.now ≡ encode (monadic o t) → result ≡ twin o t }
{
    if !folds(op_at(s)) {
        return false;
    }
    record::word_at(s, OPERAND + KIND) == MONADIC
        && record::word_at(s, OPERAND + BODY) == record::word_at(s, BODY)
}

// How a Monadic is to be reduced.
pub(crate) fn chain(s: &[u8]) -> Chain
    requires { Recorded s.now × (le16 s.now 4 ≡ 9) }
    ensures { (o : Op) (t : Tree) → s.now ≡ encode (monadic o t) → result ≡ way_of o t }
{
    if is_twin(s) {
        Chain::Twin
    } else {
        text_below(s)
    }
}

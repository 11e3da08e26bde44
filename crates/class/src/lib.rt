// The class tests of src/op.rs, and which side of a spatial operator is reduced.
#![tactic(auto, using(op::specs::OpLaws::one_of_lem, op::specs::OpLaws::none_of_lem), unfolding(op::specs::Op::is_arithmetic, op::specs::Op::is_array, op::specs::Op::is_comparison, op::specs::Op::is_xtd_comparison, op::specs::Op::is_spatial, op::specs::Op::is_temporal, op::specs::Op::is_instant_or_interval, op::specs::Op::is_nullable))]

ghost use Rattle.std.specs.Prelude.{◌≡◌};
ghost use Rattle.prelude.specs.Choice.{both, negated};
ghost use Rattle.op.specs.Op.{is_arithmetic, is_array, is_comparison, is_xtd_comparison, is_spatial, is_temporal, is_instant_or_interval, is_nullable};
ghost use Rattle.class.specs.ClassWords.{reduced_number};

use op::{Op, S_OVERLAPS, S_TOUCHES};

pub fn arithmetic(op: Op) -> bool
    ensures { result ≡ is_arithmetic op }
{
    matches!(
        op,
        Op::Plus | Op::Minus | Op::Mult | Op::Div | Op::Mod | Op::IntDiv | Op::Exp
    )
}

pub fn array(op: Op) -> bool
    ensures { result ≡ is_array op }
{
    matches!(
        op,
        Op::AContainedBy | Op::AContains | Op::AEquals | Op::AOverlaps
    )
}

pub fn comparison(op: Op) -> bool
    ensures { result ≡ is_comparison op }
{
    matches!(
        op,
        Op::Eq | Op::Neq | Op::Lt | Op::Lte | Op::Gt | Op::Gte | Op::IsNull | Op::IsNotNull
    )
}

pub fn xtd_comparison(op: Op) -> bool
    ensures { result ≡ is_xtd_comparison op }
{
    matches!(
        op,
        Op::IsLike
            | Op::IsNotLike
            | Op::IsBetween
            | Op::IsNotBetween
            | Op::IsInList
            | Op::IsNotInList
    )
}

pub fn spatial(op: Op) -> bool
    ensures { result ≡ is_spatial op }
{
    matches!(
        op,
        Op::SIntersects
            | Op::SContains
            | Op::SCrosses
            | Op::SDisjoint
            | Op::SEquals
            | Op::SOverlaps
            | Op::STouches
            | Op::SWithin
    )
}

pub fn temporal(op: Op) -> bool
    ensures { result ≡ is_temporal op }
{
    matches!(
        op,
        Op::TAfter
            | Op::TBefore
            | Op::TContains
            | Op::TDisjoint
            | Op::TDuring
            | Op::TEquals
            | Op::TFinishedBy
            | Op::TFinishes
            | Op::TIntersects
            | Op::TMeets
            | Op::TMetBy
            | Op::TOverlappedBy
            | Op::TOverlaps
            | Op::TStartedBy
            | Op::TStarts
    )
}

pub fn instant_or_interval(op: Op) -> bool
    ensures { result ≡ is_instant_or_interval op }
{
    matches!(
        op,
        Op::TAfter | Op::TBefore | Op::TDisjoint | Op::TEquals | Op::TIntersects
    )
}

pub fn nullable(op: Op) -> bool
    ensures { result ≡ is_nullable op }
{
    matches!(op, Op::IsNull | Op::IsNotNull)
}

// `reduce_precision`: exactly one side a column, and only STouches, SWithin, SOverlaps.
#[tactic(auto, using(crate::proofs::Tests::tests))]
pub fn reduce_precision(op: usize, column: bool, other: bool) -> bool
    ensures { result ≡ both (reduced_number op) (both column (negated other)) }
{
    matches!(op, S_TOUCHES..=S_OVERLAPS) && column && !other
}

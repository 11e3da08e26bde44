// The classes of operators, by the number that stands in a record. They stay numbers on the walk: with `op::Op` in their place it took 3 to 4 % more
// instructions (callgrind, the loads of docs/COST.md), since the node writer then no longer takes its callees in.
ghost use Rattle.std.specs.Prelude.{◌≡◌};
ghost use Rattle.class.specs.ClassWords.{array_number, between_number, like_number, nullable_number, sign_number, spatial_number, temporal_number};

use op::{
    A_EQUALS, A_OVERLAPS, IS_BETWEEN, IS_LIKE, IS_NOT_BETWEEN, IS_NOT_LIKE, IS_NOT_NULL, IS_NULL,
    MINUS, NEG, S_CONTAINS, S_INTERSECTS, T_AFTER, T_STARTS,
};

#[tactic(auto, using(crate::proofs::Tests::tests))]
pub(crate) fn is_array(op: usize) -> bool
    ensures { result ≡ array_number op }
{
    matches!(op, A_EQUALS..=A_OVERLAPS)
}

#[tactic(auto, using(crate::proofs::Tests::tests))]
pub(crate) fn is_between(op: usize) -> bool
    ensures { result ≡ between_number op }
{
    matches!(op, IS_BETWEEN..=IS_NOT_BETWEEN)
}

#[tactic(auto, using(crate::proofs::Tests::tests))]
pub(crate) fn is_like(op: usize) -> bool
    ensures { result ≡ like_number op }
{
    matches!(op, IS_LIKE..=IS_NOT_LIKE)
}

#[tactic(auto, using(crate::proofs::Tests::tests))]
pub(crate) fn is_nullable(op: usize) -> bool
    ensures { result ≡ nullable_number op }
{
    matches!(op, IS_NULL..=IS_NOT_NULL)
}

// Written before its operand.
#[tactic(auto, using(crate::proofs::Tests::tests))]
pub(crate) fn is_sign(op: usize) -> bool
    ensures { result ≡ sign_number op }
{
    op == NEG || op == MINUS
}

#[tactic(auto, using(crate::proofs::Tests::tests))]
pub(crate) fn is_spatial(op: usize) -> bool
    ensures { result ≡ spatial_number op }
{
    matches!(op, S_INTERSECTS..=S_CONTAINS)
}

#[tactic(auto, using(crate::proofs::Tests::tests))]
pub(crate) fn is_temporal_number(op: usize) -> bool
    ensures { result ≡ temporal_number op }
{
    matches!(op, T_AFTER..=T_STARTS)
}

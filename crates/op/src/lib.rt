#![tactic(auto)]

ghost use Rattle.std.specs.Prelude.{◌≡◌};
ghost use Rattle.op.specs.Op.{op_number, op_of};

// The operators of src/op.rs, in its order.
#[derive(Clone, Copy, PartialEq, Eq)]
pub enum Op {
    Plus,
    Minus,
    Mult,
    Div,
    IntDiv,
    Mod,
    Exp,
    Neg,
    Eq,
    Neq,
    Lt,
    Gt,
    Lte,
    Gte,
    And,
    Or,
    CaseI,
    AccentI,
    SIntersects,
    SEquals,
    SDisjoint,
    STouches,
    SWithin,
    SOverlaps,
    SCrosses,
    SContains,
    TAfter,
    TBefore,
    TContains,
    TDisjoint,
    TDuring,
    TEquals,
    TFinishedBy,
    TFinishes,
    TIntersects,
    TMeets,
    TMetBy,
    TOverlappedBy,
    TOverlaps,
    TStartedBy,
    TStarts,
    AEquals,
    AContains,
    AContainedBy,
    AOverlaps,
    IsLike,
    IsNotLike,
    IsBetween,
    IsNotBetween,
    IsInList,
    IsNotInList,
    IsNull,
    IsNotNull,
}

// The numbers of the operators, their places in the enum. Records hold these, and the walk of text compares them, with class and settings: the operator
// itself in their place costs lowering 1 to 4 % more instructions.
pub const PLUS: usize = Op::Plus as usize;

pub const MINUS: usize = Op::Minus as usize;

pub const MULT: usize = Op::Mult as usize;

pub const DIV: usize = Op::Div as usize;

pub const INT_DIV: usize = Op::IntDiv as usize;

pub const MOD: usize = Op::Mod as usize;

pub const EXP: usize = Op::Exp as usize;

pub const NEG: usize = Op::Neg as usize;

pub const EQ: usize = Op::Eq as usize;

pub const NEQ: usize = Op::Neq as usize;

pub const LT: usize = Op::Lt as usize;

pub const GT: usize = Op::Gt as usize;

pub const LTE: usize = Op::Lte as usize;

pub const GTE: usize = Op::Gte as usize;

pub const AND: usize = Op::And as usize;

pub const OR: usize = Op::Or as usize;

pub const CASE_I: usize = Op::CaseI as usize;

pub const ACCENT_I: usize = Op::AccentI as usize;

pub const S_INTERSECTS: usize = Op::SIntersects as usize;

pub const S_EQUALS: usize = Op::SEquals as usize;

pub const S_DISJOINT: usize = Op::SDisjoint as usize;

pub const S_TOUCHES: usize = Op::STouches as usize;

pub const S_WITHIN: usize = Op::SWithin as usize;

pub const S_OVERLAPS: usize = Op::SOverlaps as usize;

pub const S_CROSSES: usize = Op::SCrosses as usize;

pub const S_CONTAINS: usize = Op::SContains as usize;

pub const T_AFTER: usize = Op::TAfter as usize;

pub const T_BEFORE: usize = Op::TBefore as usize;

pub const T_CONTAINS: usize = Op::TContains as usize;

pub const T_DISJOINT: usize = Op::TDisjoint as usize;

pub const T_DURING: usize = Op::TDuring as usize;

pub const T_EQUALS: usize = Op::TEquals as usize;

pub const T_FINISHED_BY: usize = Op::TFinishedBy as usize;

pub const T_FINISHES: usize = Op::TFinishes as usize;

pub const T_INTERSECTS: usize = Op::TIntersects as usize;

pub const T_MEETS: usize = Op::TMeets as usize;

pub const T_MET_BY: usize = Op::TMetBy as usize;

pub const T_OVERLAPPED_BY: usize = Op::TOverlappedBy as usize;

pub const T_OVERLAPS: usize = Op::TOverlaps as usize;

pub const T_STARTED_BY: usize = Op::TStartedBy as usize;

pub const T_STARTS: usize = Op::TStarts as usize;

pub const A_EQUALS: usize = Op::AEquals as usize;

pub const A_CONTAINS: usize = Op::AContains as usize;

pub const A_CONTAINED_BY: usize = Op::AContainedBy as usize;

pub const A_OVERLAPS: usize = Op::AOverlaps as usize;

pub const IS_LIKE: usize = Op::IsLike as usize;

pub const IS_NOT_LIKE: usize = Op::IsNotLike as usize;

pub const IS_BETWEEN: usize = Op::IsBetween as usize;

pub const IS_NOT_BETWEEN: usize = Op::IsNotBetween as usize;

pub const IS_IN_LIST: usize = Op::IsInList as usize;

pub const IS_NOT_IN_LIST: usize = Op::IsNotInList as usize;

pub const IS_NULL: usize = Op::IsNull as usize;

pub const IS_NOT_NULL: usize = Op::IsNotNull as usize;

// The operator's place in the enum, 0 (Plus) to 52 (IsNotNull).
pub fn op_number(op: Op) -> usize
    ensures { result ≡ op_number op }
{
    op as usize
}

// The operator at a place of the enum; none past its end.
#[tactic(auto, using(crate::proofs::Laws::past_all), unfolding(crate::specs::Op::op_at))]
pub fn op_of(n: usize) -> Option<Op>
    ensures { result ≡ op_of n }
{
    let op = match n {
        PLUS => Op::Plus,
        MINUS => Op::Minus,
        MULT => Op::Mult,
        DIV => Op::Div,
        INT_DIV => Op::IntDiv,
        MOD => Op::Mod,
        EXP => Op::Exp,
        NEG => Op::Neg,
        EQ => Op::Eq,
        NEQ => Op::Neq,
        LT => Op::Lt,
        GT => Op::Gt,
        LTE => Op::Lte,
        GTE => Op::Gte,
        AND => Op::And,
        OR => Op::Or,
        CASE_I => Op::CaseI,
        ACCENT_I => Op::AccentI,
        S_INTERSECTS => Op::SIntersects,
        S_EQUALS => Op::SEquals,
        S_DISJOINT => Op::SDisjoint,
        S_TOUCHES => Op::STouches,
        S_WITHIN => Op::SWithin,
        S_OVERLAPS => Op::SOverlaps,
        S_CROSSES => Op::SCrosses,
        S_CONTAINS => Op::SContains,
        T_AFTER => Op::TAfter,
        T_BEFORE => Op::TBefore,
        T_CONTAINS => Op::TContains,
        T_DISJOINT => Op::TDisjoint,
        T_DURING => Op::TDuring,
        T_EQUALS => Op::TEquals,
        T_FINISHED_BY => Op::TFinishedBy,
        T_FINISHES => Op::TFinishes,
        T_INTERSECTS => Op::TIntersects,
        T_MEETS => Op::TMeets,
        T_MET_BY => Op::TMetBy,
        T_OVERLAPPED_BY => Op::TOverlappedBy,
        T_OVERLAPS => Op::TOverlaps,
        T_STARTED_BY => Op::TStartedBy,
        T_STARTS => Op::TStarts,
        A_EQUALS => Op::AEquals,
        A_CONTAINS => Op::AContains,
        A_CONTAINED_BY => Op::AContainedBy,
        A_OVERLAPS => Op::AOverlaps,
        IS_LIKE => Op::IsLike,
        IS_NOT_LIKE => Op::IsNotLike,
        IS_BETWEEN => Op::IsBetween,
        IS_NOT_BETWEEN => Op::IsNotBetween,
        IS_IN_LIST => Op::IsInList,
        IS_NOT_IN_LIST => Op::IsNotInList,
        IS_NULL => Op::IsNull,
        IS_NOT_NULL => Op::IsNotNull,
        _ => {
            return None;
        }
    };
    Some(op)
}

// What a node with operands becomes, these being reduced: `E::reduce` of src/expr.rs.
ghost use Rattle.std.specs.Prelude.{◌≡◌};
ghost use Rattle.reduce.specs.declared.Sort.TheVariants.{Instant};
ghost use Rattle.reduce.specs.Rules.{happens, meet, meet_and, meet_or, meet_other, turn};

use crate::{Meet, Sort, Turn};
use op::Op;

// What a Monadic becomes, its reduced operand being of the sort a.
pub(crate) fn turn(op: Op, a: Sort) -> Turn
    ensures { result ≡ turn op a }
{
    match op {
        Op::Minus => match a {
            Sort::Null => Turn::ToNull,
            Sort::Num => Turn::Negate,
            _ => Turn::Keep,
        },
        Op::Neg => match a {
            Sort::Null => Turn::ToNull,
            Sort::Bool(b) => Turn::ToBool(!b),
            _ => Turn::Keep,
        },
        Op::IsNull => match a {
            Sort::Null => Turn::ToBool(true),
            _ => Turn::Keep,
        },
        Op::IsNotNull => match a {
            Sort::Null => Turn::ToBool(false),
            _ => Turn::Keep,
        },
        Op::CaseI => match a {
            Sort::Str => Turn::NoCase,
            Sort::CaseI => Turn::Stay,
            _ => Turn::Keep,
        },
        Op::AccentI => match a {
            Sort::Str => Turn::NoAccent,
            Sort::AccentI => Turn::Stay,
            _ => Turn::Keep,
        },
        _ => Turn::Keep,
    }
}

#[tactic(auto, unfolding(crate::specs::Rules::meet_and))]
fn meet_and(a: Sort, b: Sort) -> Meet
    ensures { result ≡ meet_and a b }
{
    if !a.is_logic() || !b.is_logic() {
        return Meet::Keeps;
    }
    match (a, b) {
        (Sort::Bool(false), _) | (_, Sort::Bool(false)) => Meet::MeetBool(false),
        (Sort::Bool(true), Sort::Bool(true)) => Meet::MeetBool(true),
        _ => Meet::MeetNull,
    }
}

#[tactic(auto, unfolding(crate::specs::Rules::meet_or))]
fn meet_or(a: Sort, b: Sort) -> Meet
    ensures { result ≡ meet_or a b }
{
    if !a.is_logic() || !b.is_logic() {
        return Meet::Keeps;
    }
    match (a, b) {
        (Sort::Bool(true), _) | (_, Sort::Bool(true)) => Meet::MeetBool(true),
        (Sort::Bool(false), Sort::Bool(false)) => Meet::MeetBool(false),
        _ => Meet::MeetNull,
    }
}

// What one of the five that take instants and intervals says of instants at these places in time.
fn happens(op: Op, x: usize, y: usize) -> bool
    ensures { result ≡ happens op x y }
{
    match op {
        Op::TAfter => y < x,
        Op::TBefore => x < y,
        Op::TDisjoint => x != y,
        _ => x == y,
    }
}

fn meet_instants(op: Op, x: usize, y: usize) -> Meet
    ensures { result ≡ meet_other op (Instant x) (Instant y) }
{
    if class::instant_or_interval(op) {
        Meet::MeetBool(happens(op, x, y))
    } else {
        Meet::Clash
    }
}

// Any operator but And and Or.
#[tactic(auto, unfolding(crate::specs::Rules::meet_other))]
fn meet_other(op: Op, a: Sort, b: Sort) -> Meet
    ensures { result ≡ meet_other op a b }
{
    match (a, b) {
        (Sort::Null, _) | (_, Sort::Null) => Meet::MeetNull,
        (Sort::Instant(x), Sort::Instant(y)) => meet_instants(op, x, y),
        _ if a.is_constant() && b.is_constant() => Meet::Clash,
        _ => Meet::Keeps,
    }
}

// What a Dyadic becomes, its reduced operands being of the sorts a and b.
pub(crate) fn meet(op: Op, a: Sort, b: Sort) -> Meet
    ensures { result ≡ meet op a b }
{
    match op {
        Op::And => meet_and(a, b),
        Op::Or => meet_or(a, b),
        _ => meet_other(op, a, b),
    }
}

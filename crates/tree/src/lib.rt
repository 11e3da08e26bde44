#![tactic(auto)]

ghost use Rattle.std.specs.Prelude.{◌≡◌, nat_abs, leb, eqb};
ghost use Rattle.prelude.specs.Choice.{pick, both};
ghost use Rattle.record.specs.Record.{signed};
ghost use Rattle.tree.specs.Limits.{mantissa_limit};
ghost use Rattle.tree.specs.LimitWords.{up_to_planner};
ghost use Rattle.tree.specs.Parse.{bool_body, num_body, str_body, date_body, timestamp_body, spatial_body, takes_one, takes_two, read_monadic, read_dyadic, read_function, node, exactly, items};
ghost use Rattle.tree.specs.Placed.{is_between};
ghost use Rattle.tree.specs.Accepted.{accepted, accepted_tree, verdict, said, heard};
ghost use Rattle.tree.specs.declared.Shape.TheVariants.{Pair, Other};
ghost use Rattle.tree.specs.WalkWords.{seen, seen_one, seen_two, seen_all, first_of, taken, plain_shape, pair_shape, interval_shape, sound_shape, fits, or_misplaced, leaf_one};

use op::Op;
use record::Frame;
use refusal::Refusal;
use settings::CAI;

// The kinds of a record, as the number that stands in it: the walks of text and reduce compare it as it was read.
pub const NULL: usize = 0;

pub const UNBOUNDED: usize = 1;

pub const BOOL: usize = 2;

pub const NUM: usize = 3;

pub const STR: usize = 4;

pub const DATE: usize = 5;

pub const TIMESTAMP: usize = 6;

pub const SPATIAL: usize = 7;

pub const ID: usize = 8;

pub const MONADIC: usize = 9;

pub const DYADIC: usize = 10;

pub const FUNCTION: usize = 11;

pub const ARRAY: usize = 12;

pub const INTERVAL: usize = 13;

// Document 01's limits of fields.
const MANTISSA_LIMIT: usize = 999999999999999;

const SCALE_LIMIT: usize = 9;

const FLAGS_LIMIT: usize = CAI;

const TEXT_LIMIT: usize = 4096;

// What a caller allows: the bytes of a tree, its levels, the root being 1, and the bytes of the SQL text.
#[derive(Clone, Copy)]
pub struct Limits {
    pub tree: usize,
    pub depth: usize,
    pub text: usize,
}

// The planner's, those of document 01.
pub const PLANNER: Limits = Limits {
    tree: 32768,
    depth: 32,
    text: 65535,
};

// What the record above has to know of a tree to decide refusal 7: an Interval, an Array of exactly two, any other tree,
// or a tree with something out of its place in it.
#[derive(Clone, Copy)]
enum Shape {
    Interval,
    Pair,
    Other,
    Misplaced,
}

// Records to the end: whether each may stand where no Interval may, and how many there are.
#[derive(Clone, Copy)]
struct Items {
    plain: bool,
    count: usize,
}

#[tactic(auto, using(crate::proofs::Tests::tests), unfolding(crate::specs::Parse::bool_body))]
fn bool_body(s: &[u8]) -> bool
    ensures { result ≡ bool_body s.now }
{
    s.len() == 1 && usize::from(s[0]) <= 1
}

// The bytes of a mantissa as a number: at most the limit, or the complement of a negative one.
#[tactic(auto, using(crate::proofs::Laws::limit_low, crate::proofs::Laws::limit_high))]
fn within_limit(n: usize) -> bool
    ensures { result ≡ leb (nat_abs (signed n)) mantissa_limit }
{
    n <= MANTISSA_LIMIT || 18446744073709551615 - MANTISSA_LIMIT < n
}

#[tactic(auto, using(crate::proofs::Tests::tests), unfolding(crate::specs::Parse::num_body))]
fn num_body(s: &[u8]) -> bool
    ensures { result ≡ num_body s.now }
{
    s.len() == 9 && within_limit(record::qword_at(s, 0)) && usize::from(s[8]) <= SCALE_LIMIT
}

#[tactic(auto, using(crate::proofs::Tests::tests), unfolding(crate::specs::Parse::str_body))]
fn str_body(s: &[u8]) -> bool
    ensures { result ≡ str_body s.now }
{
    1 <= s.len()
        && s.len() <= 1 + TEXT_LIMIT
        && usize::from(s[0]) <= FLAGS_LIMIT
        && string::is_valid(&s[1..])
}

#[tactic(auto, using(crate::proofs::Tests::tests), unfolding(crate::specs::Parse::date_body))]
fn date_body(s: &[u8]) -> bool
    ensures { result ≡ date_body s.now }
{
    s.len() == 4 && civil::valid_date(record::word_at(s, 0), usize::from(s[2]), usize::from(s[3]))
}

#[tactic(auto, using(crate::proofs::Tests::tests), unfolding(crate::specs::Parse::timestamp_body))]
fn timestamp_body(s: &[u8]) -> bool
    ensures { result ≡ timestamp_body s.now }
{
    s.len() == 7
        && civil::valid_date(record::word_at(s, 0), usize::from(s[2]), usize::from(s[3]))
        && civil::valid_time(usize::from(s[4]), usize::from(s[5]), usize::from(s[6]))
}

#[tactic(auto, using(crate::proofs::Tests::tests), unfolding(crate::specs::Parse::spatial_body))]
fn spatial_body(s: &[u8]) -> bool
    ensures { result ≡ spatial_body s.now }
{
    5 <= s.len() && s.len() <= 4 + TEXT_LIMIT && charset::is_spatial_text(&s[4..])
}

#[tactic(auto, using(op::specs::OpLaws::one_of_lem, op::specs::OpLaws::none_of_lem), unfolding(crate::specs::Parse::takes_one))]
fn takes_one(op: Op) -> bool
    ensures { result ≡ takes_one op }
{
    matches!(
        op,
        Op::Minus | Op::Neg | Op::CaseI | Op::AccentI | Op::IsNull | Op::IsNotNull
    )
}

// All operators but those of one operand, and Minus, which has either.
#[tactic(auto, using(op::specs::OpLaws::one_of_lem, op::specs::OpLaws::none_of_lem), unfolding(crate::specs::Parse::takes_two))]
fn takes_two(op: Op) -> bool
    ensures { result ≡ takes_two op }
{
    !takes_one(op) || matches!(op, Op::Minus)
}

#[tactic(auto, using(op::specs::OpLaws::one_of_lem, op::specs::OpLaws::none_of_lem), unfolding(crate::specs::Placed::is_between))]
fn is_between(op: Op) -> bool
    ensures { result ≡ is_between op }
{
    matches!(op, Op::IsBetween | Op::IsNotBetween)
}

fn takes(two: bool, o: Op) -> bool
    ensures { result ≡ pick two (takes_two o) (takes_one o) }
{
    if two { takes_two(o) } else { takes_one(o) }
}

// The operator of a Dyadic (`two`) or of a Monadic. A body too short for it is 6, an operator that the kind does not take 5.
#[tactic(auto, using(crate::proofs::Tests::tests), unfolding(crate::specs::WalkWords::taken, crate::specs::WalkWords::taken_by))]
fn operator_in(two: bool, s: &[u8]) -> Result<Op, Refusal>
    ensures { result ≡ taken (λ o. pick two (takes_two o) (takes_one o)) s.now }
{
    if s.len() < 2 {
        return Err(Refusal::BadField);
    }
    match op::op_of(record::word_at(s, 0)) {
        Some(op) if takes(two, op) => Ok(op),
        _ => Err(Refusal::BadKindOrOperator),
    }
}

fn plain_shape(a: Shape) -> bool
    ensures { result ≡ plain_shape a }
{
    matches!(a, Shape::Pair | Shape::Other)
}

fn pair_shape(a: Shape) -> bool
    ensures { result ≡ pair_shape a }
{
    matches!(a, Shape::Pair)
}

fn interval_shape(a: Shape) -> bool
    ensures { result ≡ interval_shape a }
{
    matches!(a, Shape::Interval)
}

fn sound_shape(a: Shape) -> bool
    ensures { result ≡ sound_shape a }
{
    !matches!(a, Shape::Misplaced)
}

fn are_plain(a: Shape, b: Shape) -> bool
    ensures { result ≡ both (plain_shape a) (plain_shape b) }
{
    plain_shape(a) && plain_shape(b)
}

// Whether an operator may have these two sides: what refusal 7 asks.
#[tactic(auto, using(crate::proofs::Tests::tests), unfolding(crate::specs::WalkWords::fits))]
fn fit(o: Op, a: Shape, b: Shape) -> bool
    ensures { result ≡ fits o a b }
{
    if class::temporal(o) {
        if class::instant_or_interval(o) {
            return sound_shape(a) && sound_shape(b);
        }
        return interval_shape(a) && interval_shape(b);
    }
    if is_between(o) {
        return plain_shape(a) && pair_shape(b);
    }
    are_plain(a, b)
}

fn or_misplaced(placed: bool, a: Shape) -> Shape
    ensures { result ≡ or_misplaced placed a }
{
    if placed { a } else { Shape::Misplaced }
}

#[tactic(auto, using(crate::proofs::Tests::tests))]
fn array_shape(count: usize) -> Shape
    ensures { result ≡ pick (eqb count 2) Pair Other }
{
    if count == 2 {
        Shape::Pair
    } else {
        Shape::Other
    }
}

// A record without records below it: its body's test decides.
fn leaf(right: bool) -> Result<Shape, Refusal>
    ensures { result ≡ leaf_one right }
{
    if right {
        Ok(Shape::Other)
    } else {
        Err(Refusal::BadField)
    }
}

// An operator of one operand, and one record.
#[cycle(checks)]
fn check_monadic(s: &[u8], levels: usize) -> Result<Shape, Refusal>
    ensures { result ≡ seen (read_monadic (node levels) s.now) }
{
    operator_in(false, s)?;
    let a = check_one(&s[2..], levels)?;
    Ok(or_misplaced(plain_shape(a), Shape::Other))
}

// An operator of two operands, and two records.
#[cycle(checks)]
fn check_dyadic(s: &[u8], levels: usize) -> Result<Shape, Refusal>
    ensures { result ≡ seen (read_dyadic (node levels) s.now) }
{
    let op = operator_in(true, s)?;
    let (a, b) = check_two(&s[2..], levels)?;
    Ok(or_misplaced(fit(op, a, b), Shape::Other))
}

// A name after its length byte, and records to the end.
#[cycle(checks)]
fn check_function(s: &[u8], levels: usize) -> Result<Shape, Refusal>
    ensures { result ≡ seen (read_function (node levels) s.now) }
{
    if !charset::named_at(s, 0) {
        return Err(Refusal::BadField);
    }
    let start = 1 + usize::from(s[0]);
    let items = check_many(&s[start..], levels)?;
    Ok(or_misplaced(items.plain, Shape::Other))
}

// What a record of this kind with the body s is; it and what is below it may be `levels` deep. What an Array and an Interval are stands here: a
// function of its own for each costs the check of a tree a tenth of its instructions.
#[cycle(checks)]
fn check_node(kind: usize, s: &[u8], levels: usize) -> Result<Shape, Refusal>
    ensures { result ≡ seen (node levels kind s.now) }
{
    if levels == 0 {
        return Err(Refusal::TooDeep);
    }
    match kind {
        NULL => leaf(s.len() == 0),
        UNBOUNDED => leaf(s.len() == 0),
        BOOL => leaf(bool_body(s)),
        NUM => leaf(num_body(s)),
        STR => leaf(str_body(s)),
        DATE => leaf(date_body(s)),
        TIMESTAMP => leaf(timestamp_body(s)),
        SPATIAL => leaf(spatial_body(s)),
        ID => leaf(charset::is_name(s)),
        MONADIC => check_monadic(s, levels - 1),
        DYADIC => check_dyadic(s, levels - 1),
        FUNCTION => check_function(s, levels - 1),
        ARRAY => {
            let items = check_many(s, levels - 1)?;
            Ok(or_misplaced(items.plain, array_shape(items.count)))
        }
        INTERVAL => {
            let (a, b) = check_two(s, levels - 1)?;
            Ok(or_misplaced(are_plain(a, b), Shape::Interval))
        }
        _ => Err(Refusal::BadKindOrOperator),
    }
}

// The record at the front of s: where it ends, and what it is. Taken into its callers, as is `check_one`: so the function that calls itself is
// `check_node`, whose answer fits registers; else a check of a 32 KB tree takes 8 % more instructions.
#[cycle(checks)]
#[inline(always)]
fn check_first(s: &[u8], levels: usize) -> Result<(usize, Shape), Refusal>
    ensures { result ≡ first_of (node levels) s.now }
{
    let Some(Frame { kind, end }) = record::frame_at(s) else {
        return Err(Refusal::BadFrame);
    };
    let shape = check_node(kind, &s[record::BODY..end], levels)?;
    Ok((end, shape))
}

// One record and no more.
#[cycle(checks)]
#[inline(always)]
fn check_one(s: &[u8], levels: usize) -> Result<Shape, Refusal>
    ensures { result ≡ seen_one (exactly (node levels) 1 s.now) }
{
    let (n, shape) = check_first(s, levels)?;
    if n == s.len() {
        Ok(shape)
    } else {
        Err(Refusal::BadFrame)
    }
}

// Two records and no more. Taken into its callers, as a check of a 32 KB tree else takes 7 % more instructions.
#[cycle(checks)]
#[inline(always)]
fn check_two(s: &[u8], levels: usize) -> Result<(Shape, Shape), Refusal>
    ensures { result ≡ seen_two (exactly (node levels) 2 s.now) }
{
    let (n, a) = check_first(s, levels)?;
    let b = check_one(&s[n..], levels)?;
    Ok((a, b))
}

// One record more, behind some that are plain or not. A function of its own, so that the loop below has no branch to prove.
fn still_plain(plain: bool, a: Shape) -> bool
    ensures { result ≡ both plain (plain_shape a) }
{
    plain && plain_shape(a)
}

// Records to the end.
#[cycle(checks)]
fn check_many(s: &[u8], levels: usize) -> Result<Items, Refusal>
    ensures { result ≡ seen_all (items (node levels) s.now) }
{
    // No `for`: a record's own length is the step.
    let mut at = 0;
    let mut plain = true;
    let mut count = 0;
    while at < s.len() {
        let (n, a) = check_first(&s[at..], levels)?;
        at += n;
        plain = still_plain(plain, a);
        count += 1;
    }
    Ok(Items { plain, count })
}

// A caller's limits as far as the planner's reach: so far the walks over a tree are proved.
pub fn up_to_planner(limits: Limits) -> Limits
    ensures { result ≡ up_to_planner limits }
{
    Limits {
        tree: limits.tree.min(PLANNER.tree),
        depth: limits.depth.min(PLANNER.depth),
        text: limits.text.min(PLANNER.text),
    }
}

// Whether the tree is accepted within a caller's limits; else the refusal that comes first.
pub fn check_tree(limits: Limits, tree: &[u8]) -> Result<(), Refusal>
    ensures says { result ≡ verdict (accepted_tree limits tree.now) }
    ensures hears { heard result ≡ said (accepted_tree limits tree.now) }
{
    if limits.tree < tree.len() {
        return Err(Refusal::TreeTooLong);
    }
    let shape = check_one(tree, limits.depth)?;
    if plain_shape(shape) {
        Ok(())
    } else {
        Err(Refusal::BadOperand)
    }
}

// Whether the settings and the tree are accepted within a caller's limits; else the refusal that comes first.
pub fn check(limits: Limits, settings: &[u8], tree: &[u8]) -> Result<(), Refusal>
    ensures says { result ≡ verdict (accepted limits settings.now tree.now) }
    ensures hears { heard result ≡ said (accepted limits settings.now tree.now) }
{
    if settings::is_settings(settings) {
        check_tree(limits, tree)
    } else {
        Err(Refusal::BadSettings)
    }
}

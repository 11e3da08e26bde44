// The conditions of the temporal operators over their four ends (src/ds/sql.rs and the fifteen `t_…_sql` of src/ds/gpkg.rs).
#![tactic(auto)]

ghost use Rattle.std.specs.Prelude.{◌≡◌, [], ◌∷◌, ◌++◌, ◌+◌, ◌≤◌, ◌<◌, length};
ghost use Rattle.op.specs.Op.{op_number};
ghost use Rattle.operand.specs.Ends.{columns};
ghost use Rattle.sql.specs.Template.{items, held, spelt, part_of, place, template_of, guarded_text, guarded_both_text, check_id_text, check_ids_text, both_text, neither_text, either_text};
ghost use Rattle.sql.specs.Translators.{t_after, t_before, t_contains, t_disjoint, t_during, t_equals, t_finished_by, t_finishes, t_intersects, t_meets, t_met_by, t_overlapped_by, t_overlaps, t_started_by, t_starts, translate};

use Part::{
    And, Close, CloseBoth, E0, E1, E2, E3, Equal, Greater, IsNotNull, IsNotNullQuote, Less, Not,
    NotNull, Open, Or, Quote, Unequal,
};
use op::Op;
use operand::End;

// A part of a condition's text: an end, or words (specs/Template.antt has them). The ends stand first, at their places.
#[derive(Clone, Copy, Default, PartialEq, Eq)]
pub enum Part {
    #[default]
    E0,
    E1,
    E2,
    E3,
    // `(`
    Open,
    // `)`
    Close,
    // `))`
    CloseBoth,
    // ` > `
    Greater,
    // ` < `
    Less,
    // ` = `
    Equal,
    // ` != `
    Unequal,
    // `"`
    Quote,
    // `" IS NOT NULL AND (`
    IsNotNull,
    // `" IS NOT NULL AND "`
    IsNotNullQuote,
    // `" NOT NULL AND (`
    NotNull,
    // `) OR (`
    Or,
    // `) AND (`
    And,
    // `NOT((`
    Not,
    // No words: no template has it.
    Blank,
}

// A condition's text in parts, of which none has more than 21: the first `len` of `parts`.
#[derive(Clone, Copy)]
pub struct Template {
    pub parts: [Part; 24],
    pub len: usize,
}

impl Template {
    // The parts that it has.
    pub fn as_slice(&self) -> &[Part]
        ensures value { result.now ≡ items self.now }
    {
        &self.parts[..self.len.min(self.parts.len())]
    }

    fn push(&mut self, part: Part)
        requires { self.old.len < 24 }
        ensures items { items self.new ≡ items self.old ++ part ∷ [] }
        ensures len { self.new.len ≡ self.old.len + 1 }
    {
        self.parts[self.len] = part;
        self.len += 1;
    }
}

// A template with some parts after it.
fn append(t: &mut Template, parts: &[Part])
    requires { t.old.len + length parts.now ≤ 24 }
    ensures items { items t.new ≡ items t.old ++ parts.now }
    ensures len { t.new.len ≡ t.old.len + length parts.now }
{
    for &part in parts {
        t.push(part);
    }
}

// The template of some parts.
fn sql(parts: &[Part]) -> Template
    requires { length parts.now ≤ 24 }
    ensures items { items result ≡ parts.now }
    ensures len { result.len ≡ length parts.now }
{
    let mut t = Template {
        parts: [E0; 24],
        len: 0,
    };
    append(&mut t, parts);
    t
}

// `"i" IS NOT NULL AND (base)`
fn guarded(i: Part, base: [Part; 3]) -> Template
    ensures text { held result ≡ guarded_text (part_of i) (spelt base) }
    ensures len { result.len ≤ 9 }
{
    let [x, sign, y] = base;
    sql(&[Quote, i, IsNotNull, x, sign, y, Close])
}

// `"i" IS NOT NULL AND "j" NOT NULL AND (base)`
fn guarded_both(i: Part, j: Part, base: [Part; 3]) -> Template
    ensures text { held result ≡ guarded_both_text (part_of i) (part_of j) (spelt base) }
    ensures len { result.len ≤ 9 }
{
    let [x, sign, y] = base;
    sql(&[Quote, i, IsNotNullQuote, j, NotNull, x, sign, y, Close])
}

// Whether a part is an end that is a column.
fn is_column(i: Part, e: [End; 4]) -> bool
    ensures { result ≡ columns e (place i) }
{
    let n = i as usize;
    n < 4 && operand::is_column(e[n])
}

// Guards the base by an end that is a column.
fn check_id(i: Part, e: [End; 4], base: [Part; 3]) -> Template
    ensures text { held result ≡ check_id_text (columns e (place i)) (part_of i) (spelt base) }
    ensures len { result.len ≤ 9 }
{
    if is_column(i, e) {
        guarded(i, base)
    } else {
        sql(&base)
    }
}

// Guards the base by two ends, in argument order.
fn check_ids(i: Part, j: Part, e: [End; 4], base: [Part; 3]) -> Template
    ensures text { held result ≡ check_ids_text (columns e (place i)) (columns e (place j)) (part_of i) (part_of j) (spelt base) }
    ensures len { result.len ≤ 9 }
{
    match (is_column(i, e), is_column(j, e)) {
        (true, true) => guarded_both(i, j, base),
        (true, false) => guarded(i, base),
        (false, _) => check_id(j, e, base),
    }
}

// `(x) AND (y)`
fn both(x: [Part; 3], y: [Part; 3]) -> Template
    ensures text { held result ≡ both_text (spelt x) (spelt y) }
    ensures len { result.len ≤ 24 }
{
    let [i, s, j] = x;
    let [k, t, l] = y;
    sql(&[Open, i, s, j, And, k, t, l, Close])
}

// `NOT((x) OR (y))`
fn neither(x: [Part; 3], y: [Part; 3]) -> Template
    ensures text { held result ≡ neither_text (spelt x) (spelt y) }
    ensures len { result.len ≤ 24 }
{
    let [i, s, j] = x;
    let [k, t, l] = y;
    sql(&[Not, i, s, j, Or, k, t, l, CloseBoth])
}

// `(t) OR (u)`
fn either(t: Template, u: Template) -> Template
    requires { (t.len ≤ 9) × (u.len ≤ 9) }
    ensures text { held result ≡ either_text (held t) (held u) }
    ensures len { result.len ≤ 24 }
{
    let mut both = sql(&[Open]);
    append(&mut both, t.as_slice());
    both.push(Or);
    append(&mut both, u.as_slice());
    both.push(Close);
    both
}

// Mixed (instant and interval) arguments.

fn t_after_sql(a: bool, b: bool, e: [End; 4]) -> Template
    ensures text { held result ≡ template_of (t_after a b (columns e)) }
    ensures len { result.len ≤ 24 }
{
    match (a, b) {
        (true, true) => check_ids(E1, E2, e, [E0, Greater, E3]),
        (true, false) => check_id(E1, e, [E0, Greater, E2]),
        (false, true) => check_id(E2, e, [E0, Greater, E3]),
        (false, false) => sql(&[E0, Greater, E2]),
    }
}

fn t_before_sql(a: bool, b: bool, e: [End; 4]) -> Template
    ensures text { held result ≡ template_of (t_before a b (columns e)) }
    ensures len { result.len ≤ 24 }
{
    match (a, b) {
        (true, true) => check_ids(E0, E3, e, [E1, Less, E2]),
        (true, false) => check_id(E0, e, [E1, Less, E2]),
        (false, true) => check_id(E3, e, [E0, Less, E2]),
        (false, false) => sql(&[E0, Less, E2]),
    }
}

fn t_disjoint_sql(a: bool, b: bool, e: [End; 4]) -> Template
    ensures text { held result ≡ template_of (t_disjoint a b (columns e)) }
    ensures len { result.len ≤ 24 }
{
    match (a, b) {
        (true, true) => {
            let before = check_ids(E0, E3, e, [E1, Less, E2]);
            either(before, check_ids(E1, E2, e, [E0, Greater, E3]))
        }
        (true, false) => {
            let before = check_id(E0, e, [E1, Less, E2]);
            either(before, check_id(E1, e, [E0, Greater, E2]))
        }
        (false, true) => {
            let before = check_id(E3, e, [E0, Less, E2]);
            either(before, check_id(E2, e, [E0, Greater, E3]))
        }
        (false, false) => sql(&[E0, Unequal, E2]),
    }
}

#[tactic(auto, unfolding(crate::specs::Translators::t_equals, crate::specs::Condition::print, crate::specs::Template::both_text, crate::specs::Template::spelt, crate::specs::Template::part_of))]
fn t_equals_sql(a: bool, b: bool, e: [End; 4]) -> Template
    ensures text { held result ≡ template_of (t_equals a b (columns e)) }
    ensures len { result.len ≤ 24 }
{
    match (a, b) {
        (true, true) => both([E0, Equal, E2], [E1, Equal, E3]),
        (true, false) => both([E0, Equal, E2], [E1, Equal, E2]),
        (false, true) => both([E0, Equal, E2], [E0, Equal, E3]),
        (false, false) => sql(&[E0, Equal, E2]),
    }
}

#[tactic(auto, unfolding(crate::specs::Translators::t_intersects, crate::specs::Condition::print, crate::specs::Template::neither_text, crate::specs::Template::spelt, crate::specs::Template::part_of))]
fn t_intersects_sql(a: bool, b: bool, e: [End; 4]) -> Template
    ensures text { held result ≡ template_of (t_intersects a b (columns e)) }
    ensures len { result.len ≤ 24 }
{
    match (a, b) {
        (true, true) => neither([E1, Less, E2], [E0, Greater, E3]),
        (true, false) => neither([E1, Less, E2], [E0, Greater, E2]),
        (false, true) => neither([E0, Less, E2], [E0, Greater, E3]),
        (false, false) => sql(&[E0, Equal, E2]),
    }
}

// Intervals only.

#[tactic(auto, unfolding(crate::specs::Translators::t_contains, crate::specs::Condition::print, crate::specs::Template::both_text, crate::specs::Template::spelt, crate::specs::Template::part_of))]
fn t_contains_sql(a: bool, b: bool, e: [End; 4]) -> Template
    ensures text { held result ≡ template_of (t_contains a b (columns e)) }
    ensures len { result.len ≤ 24 }
{
    both([E0, Less, E2], [E1, Greater, E3])
}

#[tactic(auto, unfolding(crate::specs::Translators::t_during, crate::specs::Condition::print, crate::specs::Template::both_text, crate::specs::Template::spelt, crate::specs::Template::part_of))]
fn t_during_sql(a: bool, b: bool, e: [End; 4]) -> Template
    ensures text { held result ≡ template_of (t_during a b (columns e)) }
    ensures len { result.len ≤ 24 }
{
    both([E0, Greater, E2], [E1, Less, E3])
}

#[tactic(auto, unfolding(crate::specs::Translators::t_finished_by, crate::specs::Condition::print, crate::specs::Template::both_text, crate::specs::Template::spelt, crate::specs::Template::part_of))]
fn t_finished_by_sql(a: bool, b: bool, e: [End; 4]) -> Template
    ensures text { held result ≡ template_of (t_finished_by a b (columns e)) }
    ensures len { result.len ≤ 24 }
{
    both([E0, Less, E2], [E1, Equal, E3])
}

#[tactic(auto, unfolding(crate::specs::Translators::t_finishes, crate::specs::Condition::print, crate::specs::Template::both_text, crate::specs::Template::spelt, crate::specs::Template::part_of))]
fn t_finishes_sql(a: bool, b: bool, e: [End; 4]) -> Template
    ensures text { held result ≡ template_of (t_finishes a b (columns e)) }
    ensures len { result.len ≤ 24 }
{
    both([E0, Greater, E2], [E1, Equal, E3])
}

fn t_meets_sql(a: bool, b: bool, e: [End; 4]) -> Template
    ensures text { held result ≡ template_of (t_meets a b (columns e)) }
    ensures len { result.len ≤ 24 }
{
    check_ids(E0, E3, e, [E1, Equal, E2])
}

fn t_met_by_sql(a: bool, b: bool, e: [End; 4]) -> Template
    ensures text { held result ≡ template_of (t_met_by a b (columns e)) }
    ensures len { result.len ≤ 24 }
{
    check_ids(E1, E2, e, [E0, Equal, E3])
}

#[tactic(auto, unfolding(crate::specs::Translators::t_overlapped_by, crate::specs::Condition::print, crate::specs::Template::spelt, crate::specs::Template::part_of))]
fn t_overlapped_by_sql(a: bool, b: bool, e: [End; 4]) -> Template
    ensures text { held result ≡ template_of (t_overlapped_by a b (columns e)) }
    ensures len { result.len ≤ 24 }
{
    sql(&[
        Open, E0, Greater, E2, And, E0, Less, E3, And, E1, Greater, E3, Close,
    ])
}

#[tactic(auto, unfolding(crate::specs::Translators::t_overlaps, crate::specs::Condition::print, crate::specs::Template::spelt, crate::specs::Template::part_of))]
fn t_overlaps_sql(a: bool, b: bool, e: [End; 4]) -> Template
    ensures text { held result ≡ template_of (t_overlaps a b (columns e)) }
    ensures len { result.len ≤ 24 }
{
    sql(&[
        Open, E0, Less, E2, And, E1, Greater, E2, And, E1, Less, E3, Close,
    ])
}

#[tactic(auto, unfolding(crate::specs::Translators::t_started_by, crate::specs::Condition::print, crate::specs::Template::both_text, crate::specs::Template::spelt, crate::specs::Template::part_of))]
fn t_started_by_sql(a: bool, b: bool, e: [End; 4]) -> Template
    ensures text { held result ≡ template_of (t_started_by a b (columns e)) }
    ensures len { result.len ≤ 24 }
{
    both([E0, Equal, E2], [E1, Greater, E3])
}

#[tactic(auto, unfolding(crate::specs::Translators::t_starts, crate::specs::Condition::print, crate::specs::Template::both_text, crate::specs::Template::spelt, crate::specs::Template::part_of))]
fn t_starts_sql(a: bool, b: bool, e: [End; 4]) -> Template
    ensures text { held result ≡ template_of (t_starts a b (columns e)) }
    ensures len { result.len ≤ 24 }
{
    both([E0, Equal, E2], [E1, Less, E3])
}

// The template of a temporal operator; any other has that of TStarts.
#[tactic(auto, unfolding(crate::specs::Translators::translate))]
fn of_operator(op: Op, a: bool, b: bool, e: [End; 4]) -> Template
    ensures text { held result ≡ template_of (translate (op_number op) a b (columns e)) }
    ensures len { result.len ≤ 24 }
{
    match op {
        Op::TAfter => t_after_sql(a, b, e),
        Op::TBefore => t_before_sql(a, b, e),
        Op::TContains => t_contains_sql(a, b, e),
        Op::TDisjoint => t_disjoint_sql(a, b, e),
        Op::TDuring => t_during_sql(a, b, e),
        Op::TEquals => t_equals_sql(a, b, e),
        Op::TFinishedBy => t_finished_by_sql(a, b, e),
        Op::TFinishes => t_finishes_sql(a, b, e),
        Op::TIntersects => t_intersects_sql(a, b, e),
        Op::TMeets => t_meets_sql(a, b, e),
        Op::TMetBy => t_met_by_sql(a, b, e),
        Op::TOverlappedBy => t_overlapped_by_sql(a, b, e),
        Op::TOverlaps => t_overlaps_sql(a, b, e),
        Op::TStartedBy => t_started_by_sql(a, b, e),
        _ => t_starts_sql(a, b, e),
    }
}

// That of the operator with a number; of a number that is no temporal operator's, that of TStarts.
pub fn temporal_sql(op: usize, a: bool, b: bool, e: [End; 4]) -> Template
    ensures text { held result ≡ template_of (translate op a b (columns e)) }
    ensures len { result.len ≤ 24 }
{
    match op::op_of(op) {
        Some(op) => of_operator(op, a, b, e),
        None => t_starts_sql(a, b, e),
    }
}

// The operands of a temporal operator and their four ends (src/ds/sql.rs).
#![tactic(auto)]

ghost use Rattle.std.specs.Prelude.{◌≡◌};
ghost use Rattle.operand.specs.Ends.{is_column, start_of, stop_of, unfold_expressions};

// An end of an operand: the record that holds it lies from the first offset to the second, counted from the start of the operator's own record
// in the tree, which has at most 32,768 bytes.
#[derive(Clone, Copy)]
pub enum End {
    Column(u16, u16),
    // A date or a timestamp.
    Instant(u16, u16),
    // Any other tree.
    Other(u16, u16),
    // An open end, `..`.
    Open,
    Null,
}

// An operand of a temporal operator.
#[derive(Clone, Copy)]
pub enum Operand {
    Single(End),
    Interval(End, End),
}

pub fn is_column(e: End) -> bool
    ensures { result ≡ is_column e }
{
    matches!(e, End::Column(_, _))
}

fn start(a: Operand) -> End
    ensures { result ≡ start_of a }
{
    match a {
        Operand::Single(e) => e,
        Operand::Interval(e, _) => e,
    }
}

fn stop(a: Operand) -> End
    ensures { result ≡ stop_of a }
{
    match a {
        Operand::Single(_) => End::Null,
        Operand::Interval(_, f) => f,
    }
}

// The four ends in order; an instant fills e0 or e2, and Null its partner.
#[tactic(auto, unfolding(crate::specs::Ends::unfold_expressions))]
pub fn unfold_expressions(a: Operand, b: Operand) -> [End; 4]
    ensures { result ≡ unfold_expressions a b }
{
    [start(a), stop(a), start(b), stop(b)]
}

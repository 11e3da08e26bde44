#![tactic(auto)]

ghost use Rattle.std.specs.Prelude.{◌≡◌, Some};
ghost use Rattle.std.specs.Fmt.{decimal};
ghost use Rattle.refusal.specs.Number.{number_of};

use std::fmt;

// The refusals of document 01, "What a caller hears", in its order, and that of document 02, slip 8.
#[derive(Clone, Copy, Debug, PartialEq, Eq)]
pub enum Refusal {
    // 1: the settings are not exactly one settings record.
    BadSettings,
    // 2: the tree is longer than the caller allows, the planner 32,768 bytes.
    TreeTooLong,
    // 3: a record's frame is broken, or bytes remain after the last record due.
    BadFrame,
    // 4: a record lies deeper than the caller allows, the planner 32.
    TooDeep,
    // 5: the kind is unknown, or the operator is not one that the kind takes.
    BadKindOrOperator,
    // 6: a field, a fixed body size, a name or a text breaks its rule.
    BadField,
    // 7: an Interval, an interval operator's operand or a BETWEEN list is out of place.
    BadOperand,
    // 8: the text is longer than the caller allows, the planner 65,535 bytes.
    TextTooLong,
    // 9: the text, or the reduced tree, is longer than the buffer.
    BufferTooShort,
    // 10: the SQL text exceeds 65,535 bytes or the row 32,768.
    InputTooLong,
    // 11: the row breaks its form, or two of its names are equal in any letter case.
    BadRow,
    // 12: the text is outside the grammar or nests more than 64 brackets.
    BadText,
    // 13: a name in the text is absent from the row.
    MissingColumn,
    // 14: once reduced, both operands of an operator are literals for which reducing has no rule.
    ConstantOperands,
}

// The number by which the papers name a refusal.
impl From<Refusal> for u8 {
    ghost from_gives = { λ r n. n ≡ number_of r };

    fn from(r: Refusal) -> u8 {
        match r {
            Refusal::BadSettings => 1,
            Refusal::TreeTooLong => 2,
            Refusal::BadFrame => 3,
            Refusal::TooDeep => 4,
            Refusal::BadKindOrOperator => 5,
            Refusal::BadField => 6,
            Refusal::BadOperand => 7,
            Refusal::TextTooLong => 8,
            Refusal::BufferTooShort => 9,
            Refusal::InputTooLong => 10,
            Refusal::BadRow => 11,
            Refusal::BadText => 12,
            Refusal::MissingColumn => 13,
            Refusal::ConstantOperands => 14,
        }
    }
}

// A refusal is printed as its number.
impl fmt::Display for Refusal {
    ghost output = { λ r. Some (decimal (number_of r)) };

    fn fmt<W: fmt::Write>(&self, f: &mut fmt::Formatter<W>) -> fmt::Result {
        write!(f, "{}", u8::from(*self))
    }
}

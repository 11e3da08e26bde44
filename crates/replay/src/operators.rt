// The list that the Rust itself printed of its operators. A case is a line of it: number, name, spelling, class bits.
// A line is right if the crates `op`, `class` and `spelling` say the same of that number. The name is for the reader alone.
use input::Part;
use op::Op;
use replay_cases::{Case, Kind, Tally};
use std::io;

pub(crate) struct Operators;

const TAB: u8 = 9;

// A digit for each class test, 1 where it holds.
fn class_bits(op: Op) -> [u8; 8] {
    [
        class::arithmetic(op),
        class::array(op),
        class::comparison(op),
        class::xtd_comparison(op),
        class::spatial(op),
        class::temporal(op),
        class::instant_or_interval(op),
        class::nullable(op),
    ]
    .map(|holds| if holds { b'1' } else { b'0' })
}

// The Rust panics where an operator has no spelling, and its list says so.
fn is_right(line: &[u8], number: usize) -> bool {
    let mut digits = itoa::Buffer::new();
    let mut fields = line.splitn(4, |&b| b == TAB);
    let (Some(first), Some(_), Some(spelled), Some(bits)) = (
        fields.next(),
        fields.next(),
        fields.next(),
        fields.next(),
    ) else {
        return false;
    };
    let Some(op) = op::op_of(number) else {
        return false;
    };
    first == digits.format(number as u64).as_bytes()
        && op as usize == number
        && spelled == spelling::to_sql(op).unwrap_or(b"PANIC")
        && bits == class_bits(op).as_slice()
}

impl Kind<1> for Operators {
    fn judged(&self, place: u64, parts: &[Part; 1]) -> Option<Case> {
        crate::of_right(is_right(parts[0].bytes(), place as usize))
    }

    fn report<P: Print>(&self, rt: &P, name: &str, tally: &Tally) -> io::Result<()> {
        println!(rt; "{name}: {} lines right of {}", tally.counts[1], tally.done)
    }
}

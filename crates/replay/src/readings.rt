// The reader's answers. A case: the text, the row, the answer, which is a byte: 0 false, 1 true, 2 unknown, or a refusal's number.
use input::Part;
use replay_cases::{Case, Kind, Tally};
use std::io;

pub(crate) struct Readings;

impl Kind<3> for Readings {
    fn judged(&self, _place: u64, parts: &[Part; 3]) -> Option<Case> {
        let [text, row, answer] = parts;
        let found = match truth::read(text.bytes(), row.bytes()) {
            Ok(Some(false)) => 0,
            Ok(Some(true)) => 1,
            Ok(None) => 2,
            Err(r) => u8::from(r),
        };
        crate::of_byte(answer.bytes(), found)
    }

    fn report<P: Print>(&self, rt: &P, name: &str, tally: &Tally) -> io::Result<()> {
        let [no, yes, unknown, ..] = tally.counts;
        let [.., r10, r11, r12, r13, _, _] = tally.counts;
        println!(rt;
            "{name}: cases {}, right: true {yes}, false {no}, unknown {unknown}, refused 10 {r10}, 11 {r11}, 12 {r12}, 13 {r13}",
            tally.done
        )
    }
}

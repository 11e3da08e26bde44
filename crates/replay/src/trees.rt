// The checker's answers, compared with those that document 01 gives. A case: the settings, the tree, the answer, which is a byte: 0 for accepted,
// else the refusal's number.
use input::Part;
use replay_cases::{Case, Kind, Tally};
use std::io;

pub(crate) struct Trees;

impl Kind<3> for Trees {
    fn judged(&self, _place: u64, parts: &[Part; 3]) -> Option<Case> {
        let [settings, tree, answer] = parts;
        let found = match tree::check(tree::PLANNER, settings.bytes(), tree.bytes()) {
            Ok(()) => 0,
            Err(r) => u8::from(r),
        };
        crate::of_byte(answer.bytes(), found)
    }

    fn report<P: Print>(&self, rt: &P, name: &str, tally: &Tally) -> io::Result<()> {
        let [accepted, r1, r2, r3, r4, r5, r6, r7, ..] = tally.counts;
        let expected = tally.counts[..8]
            .iter()
            .fold(0u64, |sum, n| sum.wrapping_add(*n));
        println!(rt;
            "{name}: {} cases, {expected} as expected; accepted {accepted}, refusals 1 to 7: {r1} {r2} {r3} {r4} {r5} {r6} {r7}",
            tally.done
        )
    }
}

// Replays the stored trees of data/ and what each is reduced to, and compares the proved code's answers with the stored ones. A line counts the
// cases whose answer is as stored; a line more for each case with another answer, and for a file that is broken.
#![tactic(auto)]

use crate::reductions::Reductions;
use replay_cases::Kind;
use std::rt::Files;
use std::{fs, io};

mod reductions;

// The file of cases, whose name begins each line.
const NAME: &str = "reductions";

fn main(rt: HostRuntime) -> io::Result<()> {
    let mut file = fs::open(&rt, NAME)?;
    let tally = replay_cases::replay(&rt, NAME, &mut file, &Reductions)?;
    Reductions.report(&rt, NAME, &tally)
}

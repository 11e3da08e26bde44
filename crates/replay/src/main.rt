// Replays the stored cases of data/, a file for each kind, and compares the proved code's answers with the stored ones. A line for each file
// counts the cases whose answer is as stored; a line more for each case with another answer, and for a file that is broken.
#![tactic(auto)]

ghost use Rattle.std.specs.Prelude.{◌≤◌};

use crate::leaves::Leaves;
use crate::lowerings::Lowerings;
use crate::operators::Operators;
use crate::readings::Readings;
use crate::trees::Trees;
use calls::{Call, Caller};
use literal::Writing;
use replay_cases::{Case, Kind};
use std::rt::Files;
use std::{fs, io};

mod leaves;
mod lowerings;
mod operators;
mod readings;
mod trees;

// The case whose stored answer is one byte.
fn of_byte(answer: &[u8], found: u8) -> Option<Case> {
    let &[want] = answer else { return None };
    Some(Case { want, found })
}

// The case that is right or not, which 1 stands for.
fn of_right(right: bool) -> Option<Case> {
    Some(Case {
        want: 1,
        found: u8::from(right),
    })
}

// Replays the file of this name; a line on standard error says why where it can't be opened.
fn replay<R: Files + Print + Eprint, K: Kind<N>, const N: usize>(
    rt: &R,
    name: &str,
    kind: &K,
) -> io::Result<()>
    requires { N ≤ 4 }
{
    match fs::open(rt, name) {
        Ok(mut file) => {
            let tally = replay_cases::replay(rt, name, &mut file, kind)?;
            kind.report(rt, name, &tally)
        }
        Err(e) => eprintln!(rt; "{name}: {e}"),
    }
}

fn main(rt: HostRuntime) -> io::Result<()> {
    replay(&rt, "operators", &Operators)?;
    for name in ["trees", "keyword_trees", "text_trees"] {
        replay(&rt, name, &Trees)?;
    }
    replay(&rt, "leaves", &Leaves)?;
    for (name, caller, writing) in [
        ("lowerings", Caller::Planner, Writing::Rust),
        ("text_lowerings", Caller::Planner, Writing::Rust),
        ("geopackage_lowerings", Caller::Planner, Writing::GeoPackage),
        ("controller_lowerings", Caller::Controller, Writing::Rust),
        (
            "controller_geopackage_lowerings",
            Caller::Controller,
            Writing::GeoPackage,
        ),
    ] {
        replay(&rt, name, &Lowerings(Call { caller, writing }))?;
    }
    for name in [
        "readings",
        "keyword_readings",
        "text_readings",
        "geopackage_readings",
    ] {
        replay(&rt, name, &Readings)?;
    }
    Ok(())
}

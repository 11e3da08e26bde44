// The writing calls as values: the programs choose one by their arguments, and the replays go through all four.
#![tactic(auto)]

ghost use Rattle.std.specs.Prelude.{◌≡◌, ℕ, List, Option, None, IfSome, OnOk, length};
ghost use Rattle.std.specs.Io.KnownBytes.{Appends};
ghost use Rattle.tree.specs.Written.{leaves};
ghost use Rattle.text.specs.Lowered.{answer, lowering_within};
ghost use Rattle.calls.specs.Callers.{limits_of};
ghost use Rattle.calls.specs.Words.{is_there, is_arg, call_named, line_of};

use literal::Writing;
use refusal::Refusal;
use std::env::FillError;
use std::fmt::{InlineText, Write as _};
use std::io;
use std::io::Write;
use std::rt::Env;

// Whose limits a tree is lowered within: crate gpkg has the planner's calls, crate controller the controller's.
#[derive(Clone, Copy)]
pub enum Caller {
    Planner,
    Controller,
}

#[derive(Clone, Copy)]
pub struct Call {
    pub caller: Caller,
    pub writing: Writing,
}

impl Call {
    pub fn lower(self, settings: &[u8], tree: &[u8], out: &mut [u8]) -> Result<usize, Refusal>
        ensures says { result ≡ answer (lowering_within (limits_of self.caller) self.writing settings.now tree.now (length out.old)) }
        ensures bytes { out.new ≡ leaves out.old (lowering_within (limits_of self.caller) self.writing settings.now tree.now (length out.old)) }
    {
        match (self.caller, self.writing) {
            (Caller::Planner, Writing::Rust) => gpkg::to_sql(settings, tree, out),
            (Caller::Planner, Writing::GeoPackage) => gpkg::to_geopackage_sql(settings, tree, out),
            (Caller::Controller, Writing::Rust) => controller::to_sql(settings, tree, out),
            (Caller::Controller, Writing::GeoPackage) => {
                controller::to_geopackage_sql(settings, tree, out)
            }
        }
    }

    // What `lower` answers with a buffer of this size; nothing is written.
    pub fn preview(self, settings: &[u8], tree: &[u8], size: usize) -> Result<usize, Refusal>
        ensures { result ≡ answer (lowering_within (limits_of self.caller) self.writing settings.now tree.now size) }
    {
        match self.caller {
            Caller::Planner => gpkg::preview(self.writing, settings, tree, size),
            Caller::Controller => controller::preview(self.writing, settings, tree, size),
        }
    }
}

// What a program is called with, from its own name on, at place 0.
pub trait Arguments {
    // The arguments, where they are known. No contract of the kit says which a program has.
    ghost arguments: { Self → Option (List (List ℕ)) } = { λ _. None };

    fn is_there(&self, place: usize) -> bool
        ensures { IfSome (arguments self.now) (λ args. result ≡ is_there args place) };

    // Whether the argument at this place is the word.
    fn is_arg(&self, place: usize, word: &[u8]) -> bool
        ensures { IfSome (arguments self.now) (λ args. result ≡ is_arg args place word.now) };
}

impl<E: Env> Arguments for E {
    fn is_there(&self, place: usize) -> bool {
        !matches!(self.arg(place, &mut []), Err(FillError::NotPresent))
    }

    fn is_arg(&self, place: usize, word: &[u8]) -> bool {
        let mut found = [0u8; 16];
        match self.arg(place, &mut found) {
            Ok(n) => &found[..n] == word,
            Err(_) => false,
        }
    }
}

// The call that a program's arguments name, `[controller] [geopackage]`; None if there are others.
pub fn from_args<A: Arguments>(given: &A) -> Option<Call>
    ensures { IfSome (A.arguments given.now) (λ args. result ≡ call_named args) }
{
    let mut place = 1;
    let mut call = Call {
        caller: Caller::Planner,
        writing: Writing::Rust,
    };
    if given.is_arg(place, b"controller") {
        call.caller = Caller::Controller;
        place += 1;
    }
    if given.is_arg(place, b"geopackage") {
        call.writing = Writing::GeoPackage;
        place += 1;
    }
    if given.is_there(place) {
        None
    } else {
        Some(call)
    }
}

// Prints what was lowered into the buffer: the text or `refused N`, on a line.
#[tactic(auto, using(crate::proofs::LineLaws::two_pieces), unfolding(crate::specs::Words::line_of))]
pub fn print_line<W: Write>(
    to: &mut W,
    lowered: Result<usize, Refusal>,
    out: &[u8],
) -> io::Result<()>
    ensures { OnOk result (Appends (W.contents to.old) (W.contents to.new) (line_of lowered out.now)) }
{
    match lowered {
        Ok(n) => {
            to.write_all(input::first(out, n))?;
            to.write_all(b"\n")
        }
        Err(r) => {
            // The line goes out in one piece.
            let mut line = InlineText::<16>::new();
            line.write_fmt(format_args!("refused {r}\n"))?;
            to.write_all(line.as_str().as_bytes())
        }
    }
}

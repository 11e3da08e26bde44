// What the replays of stored answers share: the cases of a file, judged and counted, and what a call left in a buffer that it was lent.
#![tactic(auto)]

ghost use Rattle.std.specs.Prelude.{◌≡◌, ℕ, ◌+◌, ◌%◌, ◌^◌, ◌≤◌, List, Option, IfOk, ⊤, replicate};
ghost use Rattle.input.specs.declared.Part.{Part};
ghost use Rattle.replay_cases.specs.declared.Case.{Case};
ghost use Rattle.replay_cases.specs.TallyWords.{tallied};
ghost use Rattle.replay_cases.specs.Found.{found, are_blank};
ghost use Rattle.replay_cases.specs.Counted.{IsCountOf};

use input::{Cut, Part};
use refusal::Refusal;
use std::io;
use std::io::Read;

// A lent buffer is full of it before the call. No text has such a byte.
const BLANK: u8 = 7;

// What is found instead of an answer: bytes that are not the stored ones; a byte changed that is not among them. An answer stands in a file as one byte,
// so what is found is one too.
const OTHER_TEXT: u8 = 100;

const BYTE_CHANGED: u8 = 101;

// More cases than any file has.
const MOST: u64 = 1000000;

// The answer of a case that is stored, and the one that is found.
#[derive(Clone, Copy)]
pub struct Case {
    pub want: u8,
    pub found: u8,
}

// How many cases there are, and how many of each answer are as stored, at the answer's number.
#[derive(Clone, Copy)]
pub struct Tally {
    pub done: u64,
    pub counts: [u64; 16],
}

// What the cases of a file are about, each of N parts.
pub trait Kind<const N: usize> {
    // What may be judged of the parts at a place, where a kind says it.
    ghost judges: { Self → ℕ → List Part → Option Case → Type 0 } = { λ _ _ _ _. ⊤ };

    // The case of these parts; None if a part has another size than is due.
    fn judged(&self, place: u64, parts: &[Part; N]) -> Option<Case>
        ensures { judges self.now place parts.now result };

    // The line that tells the counts.
    fn report<P: Print>(&self, rt: &P, name: &str, tally: &Tally) -> io::Result<()>;
}

impl Tally {
    // Counts the case, at its answer where that is as stored.
    #[tactic(auto, unfolding(crate::specs::TallyWords::tallied))]
    pub fn count(&mut self, case: Case)
        ensures counts { self.new.counts ≡ tallied self.old.counts case.want case.found }
        ensures done { self.new.done ≡ (self.old.done + 1) % 2 ^ 64 }
    {
        self.done = self.done.wrapping_add(1);
        let i = usize::from(case.found);
        if case.want == case.found && i < self.counts.len() {
            self.counts[i] = self.counts[i].wrapping_add(1);
        }
    }
}

// A buffer to lend.
pub fn blank_buffer() -> [u8; 65536]
    ensures { result ≡ replicate 65536 7 }
{
    [BLANK; 65536]
}

// Whether these bytes are as they were lent: the first is, and each other one as the one before it, which is compared by many bytes at a time.
#[tactic(auto, using(crate::proofs::BlankLaws::blank_by_steps, crate::proofs::BlankLaws::none_changed))]
fn are_blank(s: &[u8]) -> bool
    ensures { result ≡ are_blank s.now }
{
    match s.split_first() {
        Some((&first, rest)) => first == BLANK && rest == &s[..rest.len()],
        None => true,
    }
}

// What a call was found to answer: 0 if the stored bytes stand in the buffer, or a refusal's number; every other byte is to be as it was lent.
#[tactic(auto, unfolding(crate::specs::Found::found))]
pub fn found(answer: Result<usize, Refusal>, stored: &[u8], out: &[u8]) -> u8
    ensures { result ≡ found answer stored.now out.now }
{
    match answer {
        Ok(n) if out.len() < n || &out[..n] != stored => OTHER_TEXT,
        Ok(n) if !are_blank(&out[n..]) => BYTE_CHANGED,
        Ok(_) => 0,
        Err(_) if !are_blank(out) => BYTE_CHANGED,
        Err(r) => u8::from(r),
    }
}

// Replays the cases of a file, of four parts at most, and counts them: a line for each whose answer is not the stored one, and one if the file breaks off
// inside a case.
pub fn replay<P: Print, R: Read, K: Kind<N>, const N: usize>(
    rt: &P,
    name: &str,
    file: &mut R,
    kind: &K,
) -> io::Result<Tally>
    requires { N ≤ 4 }
    ensures { IfOk result (IsCountOf (K.judges kind.now)) }
{
    let mut parts = [Part::new(); N];
    let mut tally = Tally {
        done: 0,
        counts: [0; 16],
    };
    for _ in 0..MOST {
        let place = tally.done;
        let case = match input::read_case(file, &mut parts) {
            Ok(true) => kind.judged(place, &parts),
            Ok(false) => return Ok(tally),
            Err(Cut) => None,
        };
        let Some(Case { want, found }) = case else {
            println!(rt; "{name}: the file of cases is broken")?;
            return Ok(tally);
        };
        if want != found {
            println!(rt; "{name}: case {place}: stored {want}, found {found}")?;
        }
        tally.count(Case { want, found });
    }
    Ok(tally)
}

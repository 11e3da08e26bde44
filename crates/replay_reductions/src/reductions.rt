// Trees and what they are reduced to, as the model has it and the Rust's texts confirm. A case: the tree, the answer, which is a byte 0 and the
// reduced tree, or the refusal's number. Each is tried with a buffer that is exactly long enough, with a longer one, and one byte short, where 9 is due.
use input::Part;
use refusal::Refusal;
use replay_cases::{Case, Kind, Tally, blank_buffer, found};
use std::io;

pub(crate) struct Reductions;

// What is found instead of an answer: another one with a buffer of another size.
const OTHER_SIZE: u8 = 104;

const TOO_SHORT: u8 = 9;

const LARGE: usize = 65536;

// A part of the buffer is lent. Where there is less than that, the refusal is one that reducing never gives, and so no stored one.
fn reduce_part(tree: &[u8], out: &mut [u8], size: usize) -> Result<usize, Refusal> {
    if out.len() < size {
        return Err(Refusal::InputTooLong);
    }
    reduce::reduce(tree, &mut out[..size])
}

// The whole buffer is compared.
fn reduced(tree: &[u8], record: &[u8], size: usize) -> u8 {
    let mut out = blank_buffer();
    let answer = reduce_part(tree, &mut out, size);
    found(answer, record, &out)
}

// A refused tree has no record: it is tried with no bytes.
fn at_all_sizes(tree: &[u8], record: &[u8]) -> u8 {
    let n = record.len();
    let found = reduced(tree, record, n);
    if reduced(tree, record, LARGE) != found || 0 < n && reduced(tree, record, n - 1) != TOO_SHORT {
        return OTHER_SIZE;
    }
    found
}

impl Kind<2> for Reductions {
    fn judged(&self, _place: u64, parts: &[Part; 2]) -> Option<Case> {
        let [tree, answer] = parts;
        let (&want, record) = answer.bytes().split_first()?;
        let found = at_all_sizes(tree.bytes(), record);
        Some(Case { want, found })
    }

    fn report<P: Print>(&self, rt: &P, name: &str, tally: &Tally) -> io::Result<()> {
        let [trees, _, r2, r3, r4, r5, r6, r7, ..] = tally.counts;
        println!(rt;
            "{name}: cases {}, as stored: trees {trees}, refused 2 {r2}, 3 {r3}, 4 {r4}, 5 {r5}, 6 {r6}, 7 {r7}, 14 {}",
            tally.done, tally.counts[14]
        )
    }
}

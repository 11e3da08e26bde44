// The cases of the programs: each a run of parts, each part after its length in four bytes, little-endian. No contract of the kit says which bytes
// a call of the system's reads. So what is read and what it is stand apart: `read_part` fills the buffers and counts, and `part_of` says what was read.
#![tactic(auto)]

ghost use Rattle.std.specs.Prelude.{◌≡◌, ◌+◌, ◌≤◌, length, take, replicate, true, Ok, OnOk, [], ◌∷◌};
ghost use Rattle.std.specs.Fn.{CalledAtTwo};
ghost use Rattle.record.specs.Record.{le32};
ghost use Rattle.input.specs.Part.{part_of, held, IsRead, AreRead};
ghost use Rattle.input.specs.Answered.{texts, AnswersCases};

use std::io;
use std::io::Read;

// How many bytes hold a part's length.
const LENGTH_SIZE: usize = 4;

// The input ended inside a case.
#[derive(Clone, Copy, Debug, PartialEq, Eq)]
pub struct Cut;

// A part of a case, in the first bytes of its buffer. A part that is longer than the buffer is reported as long as the buffer, whose bytes then say
// nothing: the buffer passes every limit, so such a part is refused for its length.
#[derive(Clone, Copy)]
pub struct Part {
    buffer: [u8; 65536],
    len: usize,
}

// 65,536 zeros: room for each part that is within the limits.
pub fn large_buffer() -> [u8; 65536]
    ensures { result ≡ replicate 65536 0 }
{
    [0; 65536]
}

// Reads until the buffer is full or the input ends, as it does where a read fails: how many bytes there were.
fn read_full<R: Read>(file: &mut R, buffer: &mut [u8]) -> usize
    ensures { result ≤ length buffer.new }
{
    let mut done = 0;
    while done < buffer.len() {
        let got = file.read(&mut buffer[done..]).unwrap_or(0);
        if got == 0 {
            return done;
        }
        done += got;
    }
    done
}

// Reads n bytes by way of the buffer: how many there were.
fn pass<R: Read>(file: &mut R, buffer: &mut [u8], n: usize) -> usize
    ensures { result ≤ n }
{
    let mut left = n;
    while buffer.len() < left {
        let got = read_full(file, buffer);
        if got == 0 {
            return n - left;
        }
        left -= got;
    }
    let got = read_full(file, &mut buffer[..left]);
    n - left + got
}

// Reads the next part, its length into head and what follows into the buffer: how many bytes there were.
pub fn read_part<R: Read>(file: &mut R, head: &mut [u8; 4], buffer: &mut [u8]) -> usize
    ensures { result ≤ 4 + le32 head.new 0 }
{
    let had = read_full(file, head);
    if had < LENGTH_SIZE {
        return had;
    }
    LENGTH_SIZE + pass(file, buffer, record::dword_at(head, 0))
}

// How long the part is, if that many bytes were read: head holds the length, and the buffer has this much room. None if the input ended before it.
#[tactic(auto, unfolding(crate::specs::Part::part_of))]
pub fn part_of(head: &[u8; 4], read: usize, room: usize) -> Result<Option<usize>, Cut>
    ensures { result ≡ part_of head.now read room }
{
    if read == 0 {
        return Ok(None);
    }
    let n = record::dword_at(head, 0);
    if read < LENGTH_SIZE + n {
        return Err(Cut);
    }
    Ok(Some(n.min(room)))
}

// The first n bytes, or all.
pub fn first(s: &[u8], n: usize) -> &[u8]
    ensures { result.now ≡ take n s.now }
{
    &s[..n.min(s.len())]
}

impl Part {
    // A part of no bytes, with room for one that is read.
    pub fn new() -> Part
        ensures { held result ≡ [] }
    {
        Part {
            buffer: large_buffer(),
            len: 0,
        }
    }

    pub fn bytes(&self) -> &[u8]
        ensures { result.now ≡ held self.now }
    {
        first(&self.buffer, self.len)
    }

    // Reads the next part; false if the input ended before it.
    fn read<R: Read>(&mut self, file: &mut R) -> Result<bool, Cut>
        ensures { result ≡ Ok true → IsRead self.new }
    {
        let mut head = [0u8; 4];
        let read = read_part(file, &mut head, &mut self.buffer);
        let Some(n) = part_of(&head, read, self.buffer.len())? else {
            return Ok(false);
        };
        self.len = n;
        Ok(true)
    }
}

// Reads the next case; false if the input ended before it.
pub fn read_case<R: Read, const N: usize>(file: &mut R, parts: &mut [Part; N]) -> Result<bool, Cut>
    ensures { result ≡ Ok true → AreRead parts.new }
{
    for i in 0..N {
        if !parts[i].read(file)? {
            return if i == 0 { Ok(false) } else { Err(Cut) };
        }
    }
    Ok(true)
}

// The bytes of the two parts of a case, as they are handed over.
pub fn texts(parts: &[Part; 2]) -> (&[u8], &[u8])
    ensures { texts parts.now ≡ result.0.now ∷ result.1.now ∷ [] }
{
    (parts[0].bytes(), parts[1].bytes())
}

// Has each case of the input answered, which has two parts; a line says so if the input ends inside one.
pub fn answer_all<H: Input + Print, F: FnMut(&[u8], &[u8]) -> io::Result<()>>(
    rt: &H,
    mut answer: F,
) -> io::Result<()>
    requires { F.IsAlwaysCallable answer }
    ensures { OnOk result ((last : F) × AnswersCases (λ f x y g. CalledAtTwo F.FnMut f x y (Ok tt) g) answer last) }
{
    let mut file = rt.reader();
    let mut parts = [Part::new(); 2];
    // A proved loop has to end, and nothing says that the input does: no run uses up so many turns.
    for _ in 0..u64::MAX {
        match read_case(&mut file, &mut parts) {
            Ok(true) => {
                let (first, second) = texts(&parts);
                answer(first, second)?;
            }
            Ok(false) => return Ok(()),
            Err(Cut) => return println!(rt; "incomplete"),
        }
    }
    Ok(())
}

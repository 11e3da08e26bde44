// Records of the leaf kinds, each with the text that the Rust itself wrote. A case: the record, the text.
// A case is right if the crate `literal` writes that text into a buffer that just holds it, changes no byte beside it,
// and changes nothing where the buffer is one byte short.
use input::Part;
use instant::{Clock, Date};
use literal::Writing;
use record::{BODY, KIND, byte_at, dword_at, word_at};
use replay_cases::{Case, Kind, Tally};
use settings::{AI, CI, PLAIN};
use std::io;
use tree::{BOOL, DATE, NULL, NUM, SPATIAL, STR, TIMESTAMP, UNBOUNDED};

pub(crate) struct Leaves;

// What every byte of a buffer is before a text is written.
const BLANK: u8 = 238;

// Where the texts are written, so that bytes before them can be watched.
const START: usize = 3;

// The bytes from i on, none past the end.
fn from(s: &[u8], i: usize) -> &[u8] {
    s.get(i..).unwrap_or(&[])
}

// A Str is its text in quotes, apostrophes doubled, and then the collation that its flags ask for.
fn write_str(body: &[u8], out: &mut [u8]) -> usize {
    let end = literal::put_str(from(body, 1), out, START);
    match byte_at(body, 0) {
        PLAIN => end,
        CI => literal::put_collate(b"NC", out, end),
        AI => literal::put_collate(b"NA", out, end),
        _ => literal::put_collate(b"NCA", out, end),
    }
}

fn date_at(body: &[u8]) -> Date {
    Date {
        year: word_at(body, 0),
        month: byte_at(body, 2),
        day: byte_at(body, 3),
    }
}

fn write_timestamp(body: &[u8], out: &mut [u8]) -> usize {
    let time = Clock {
        hour: byte_at(body, 4),
        minute: byte_at(body, 5),
        second: byte_at(body, 6),
    };
    instant::put_timestamp(Writing::Rust, date_at(body), time, out, START)
}

fn write_leaf(kind: usize, body: &[u8], out: &mut [u8]) -> usize {
    match kind {
        NULL => emit::put(b"NULL", out, START),
        UNBOUNDED => instant::put_unbounded(Writing::Rust, false, out, START),
        BOOL => literal::put_bool(byte_at(body, 0) != 0, out, START),
        NUM => number::put_num(
            record::signed_at(body, 0),
            byte_at(body, 8) as u8,
            out,
            START,
        ),
        STR => write_str(body, out),
        DATE => instant::put_date(date_at(body), out, START),
        TIMESTAMP => write_timestamp(body, out),
        SPATIAL => number::put_spatial(dword_at(body, 0), from(body, 4), out, START),
        _ => START,
    }
}

fn are_blank(s: &[u8]) -> bool {
    s.iter().all(|&b| b == BLANK)
}

// Into a part of the buffer that just holds the text.
fn fits(kind: usize, body: &[u8], text: &[u8]) -> bool {
    let mut out = [BLANK; 1024];
    let end = START + text.len();
    end <= out.len()
        && write_leaf(kind, body, &mut out[..end]) == end
        && &out[START..end] == text
        && are_blank(&out[..START])
        && are_blank(&out[end..])
}

// Into a part of the buffer that is one byte short: the text is counted, and nothing is written (of a Str with a collation its quoted text may be).
fn falls_short(kind: usize, body: &[u8], text: &[u8]) -> bool {
    let mut out = [BLANK; 1024];
    let short = START - 1 + text.len();
    short <= out.len()
        && write_leaf(kind, body, &mut out[..short]) == START + text.len()
        && (kind == STR && byte_at(body, 0) != PLAIN || are_blank(&out))
}

impl Kind<2> for Leaves {
    fn judged(&self, _place: u64, parts: &[Part; 2]) -> Option<Case> {
        let record = parts[0].bytes();
        let text = parts[1].bytes();
        let kind = word_at(record, KIND);
        let body = from(record, BODY);
        crate::of_right(fits(kind, body, text) && falls_short(kind, body, text))
    }

    fn report<P: Print>(&self, rt: &P, name: &str, tally: &Tally) -> io::Result<()> {
        println!(rt;
            "{name}: {} leaves right of {}",
            tally.counts[1], tally.done
        )
    }
}

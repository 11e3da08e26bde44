// The texts of nodes without operands, from their records.
ghost use Rattle.std.specs.Prelude.{◌≡◌, ◌++◌, ◌+◌, ◌<◌, get_or, drop};
ghost use Rattle.record.specs.Record.{le16};
ghost use Rattle.charset.specs.Named.{name_at};
ghost use Rattle.emit.specs.Emit.{count_limit};
ghost use Rattle.emit.specs.LaysWords.{Lays};
ghost use Rattle.text.specs.LeafWords.{leaf_text, collation, name_of};
ghost use Rattle.tree.specs.Accepted.{settings_in};
ghost use Rattle.string.specs.Quote.{doubled};
ghost use Rattle.literal.specs.Literal.{date_text, timestamp_text, quoted};

use crate::Style;
use crate::records::rest;
use instant::{Clock, Date};
use literal::Writing;
use record::{BODY, KIND};
use settings::{AI, CI, CI_AT, PLAIN};
use tree::{BOOL, DATE, NULL, NUM, SPATIAL, STR, TIMESTAMP, UNBOUNDED};

// Where a record's fields stand, each kind's first at its body: a Num's scale, the texts of Str and Spatial, the fields of Date and Timestamp.
const SCALE: usize = 14;

const STR_TEXT: usize = 7;

const SPATIAL_TEXT: usize = 10;

const MONTH: usize = 8;

const DAY: usize = 9;

const HOUR: usize = 10;

const MINUTE: usize = 11;

const SECOND: usize = 12;

// The name after the length byte at p.
fn name_at(set: &[u8], p: usize) -> &[u8]
    requires { p < 65536 }
    ensures { result.now ≡ name_at set.now p }
{
    let a = p + 1;
    let from = a.min(set.len());
    let to = (a + record::byte_at(set, p)).min(set.len());
    &set[from..to]
}

// The name of the collation that a Str's flags ask for (`qstr_to_sql`).
#[tactic(auto, using(crate::proofs::Tests::tests))]
pub(crate) fn name_of(flags: usize, set: &[u8]) -> &[u8]
    ensures { result.now ≡ name_of (settings_in set.now) flags }
{
    let place = match flags {
        CI => CI_AT,
        AI => settings::ai_at(set),
        _ => settings::cai_at(set),
    };
    name_at(set, place)
}

// A text in quotes, its apostrophes doubled, with the collation that its flags ask for.
fn qstr_to_sql(s: &[u8], set: &[u8], out: &mut [u8], at: usize) -> usize
    ensures { Lays count_limit at (quoted (doubled (drop 7 s.now)) ++ collation (settings_in set.now) (get_or s.now 6 0)) out.old out.new result }
{
    let end = literal::put_str(rest(s, STR_TEXT), out, at);
    let flags = record::byte_at(s, BODY);
    if flags == PLAIN {
        return end;
    }
    literal::put_collate(name_of(flags, set), out, end)
}

// The day in the record of a Date or Timestamp.
fn date_at(s: &[u8]) -> Date
    ensures year { result.year ≡ le16 s.now 6 }
    ensures month { result.month ≡ get_or s.now 8 0 }
    ensures day { result.day ≡ get_or s.now 9 0 }
{
    Date {
        year: record::word_at(s, BODY),
        month: record::byte_at(s, MONTH),
        day: record::byte_at(s, DAY),
    }
}

pub(crate) fn put_date(s: &[u8], out: &mut [u8], at: usize) -> usize
    ensures { Lays count_limit at (date_text (le16 s.now 6) (get_or s.now 8 0) (get_or s.now 9 0)) out.old out.new result }
{
    instant::put_date(date_at(s), out, at)
}

fn put_timestamp(s: &[u8], writing: Writing, out: &mut [u8], at: usize) -> usize
    ensures { Lays count_limit at (timestamp_text writing (le16 s.now 6) (get_or s.now 8 0) (get_or s.now 9 0) (get_or s.now 10 0) (get_or s.now 11 0) (get_or s.now 12 0)) out.old out.new result }
{
    let time = Clock {
        hour: record::byte_at(s, HOUR),
        minute: record::byte_at(s, MINUTE),
        second: record::byte_at(s, SECOND),
    };
    instant::put_timestamp(writing, date_at(s), time, out, at)
}

// The text of a node without operands.
pub(crate) fn put_leaf(s: &[u8], style: Style<'_>, out: &mut [u8], at: usize) -> usize
    ensures { Lays count_limit at (leaf_text style.entry.writing (settings_in style.entry.set.now) s.now) out.old out.new result }
{
    match record::word_at(s, KIND) {
        NULL => emit::put(b"NULL", out, at),
        UNBOUNDED => instant::put_unbounded(style.writing, false, out, at),
        BOOL => literal::put_bool(record::byte_at(s, BODY) == 1, out, at),
        NUM => number::put_num(
            record::signed_at(s, BODY),
            record::byte_at(s, SCALE) as u8,
            out,
            at,
        ),
        STR => qstr_to_sql(s, style.set, out, at),
        DATE => put_date(s, out, at),
        TIMESTAMP => put_timestamp(s, style.writing, out, at),
        SPATIAL => number::put_spatial(record::dword_at(s, BODY), rest(s, SPATIAL_TEXT), out, at),
        _ => emit::put(rest(s, BODY), out, at),
    }
}

// Dates, timestamps and open ends (src/ds/gpkg.rs, `to_sql_impl`, but for GeoPackage's timestamps and open second ends),
// each written whole or not at all.
#![tactic(auto)]

ghost use Rattle.std.specs.Prelude.{◌≡◌, ◌++◌};
ghost use Rattle.prelude.specs.Bytes.{bytes};
ghost use Rattle.emit.specs.Emit.{count_limit, Puts};
ghost use Rattle.literal.specs.Literal.{stop_slot, unbounded_text, date, clock, after_seconds, date_text, timestamp_text};

use literal::{Writing, digit_of};

// A day of the calendar.
#[derive(Clone, Copy)]
pub struct Date {
    pub year: usize,
    pub month: usize,
    pub day: usize,
}

// A time of day.
#[derive(Clone, Copy)]
pub struct Clock {
    pub hour: usize,
    pub minute: usize,
    pub second: usize,
}

impl Date {
    // Its ten bytes.
    fn text(self) -> [u8; 10]
        ensures { result ≡ date self.year self.month self.day }
    {
        let tens = self.year / 10;
        let hundreds = tens / 10;
        [
            digit_of(hundreds / 10),
            digit_of(hundreds),
            digit_of(tens),
            digit_of(self.year),
            b'-',
            digit_of(self.month / 10),
            digit_of(self.month),
            b'-',
            digit_of(self.day / 10),
            digit_of(self.day),
        ]
    }
}

impl Clock {
    // Its eight bytes.
    fn text(self) -> [u8; 8]
        ensures { result ≡ clock self.hour self.minute self.second }
    {
        [
            digit_of(self.hour / 10),
            digit_of(self.hour),
            b':',
            digit_of(self.minute / 10),
            digit_of(self.minute),
            b':',
            digit_of(self.second / 10),
            digit_of(self.second),
        ]
    }
}

// Writes a date in quotes.
pub fn put_date(day: Date, out: &mut [u8], at: usize) -> usize
    ensures { Puts count_limit at (date_text day.year day.month day.day) out.old out.new result }
{
    literal::put_quoted(&day.text(), out, at)
}

// What follows a timestamp's seconds: as GeoPackage stores it milliseconds and the zone, UTC; in either writing the closing quotation mark.
fn close_of(writing: Writing) -> &'static [u8]
    ensures { result.now ≡ after_seconds writing ++ bytes "'" }
{
    match writing {
        Writing::Rust => b"'",
        Writing::GeoPackage => b".000Z'",
    }
}

// Writes a timestamp in quotes.
pub fn put_timestamp(writing: Writing, date: Date, time: Clock, out: &mut [u8], at: usize) -> usize
    ensures { Puts count_limit at (timestamp_text writing date.year date.month date.day time.hour time.minute time.second) out.old out.new result }
{
    emit::put_all(
        &[b"'", &date.text(), b"T", &time.text(), close_of(writing)],
        out,
        at,
    )
}

// Writes an open end, which may be an Interval's second: there GeoPackage's writing has a letter, which lies above every digit.
pub fn put_unbounded(writing: Writing, second: bool, out: &mut [u8], at: usize) -> usize
    ensures { Puts count_limit at (unbounded_text writing (stop_slot second)) out.old out.new result }
{
    match writing {
        Writing::Rust => emit::put(b"'-2021-01-01'", out, at),
        Writing::GeoPackage => emit::put_either(second, b"'A'", b"'-2021-01-01'", out, at),
    }
}

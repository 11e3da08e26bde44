// Definitions of the texts of the leaves (src/ds/gpkg.rs, `to_sql_impl` and `qstr_to_sql`, but for the apostrophes of a Str and for GeoPackage's
// timestamps and open second ends), and the writers of words and of texts in quotes, each written whole or not at all. Numbers and instants stand in crates of their own.
#![tactic(auto)]

ghost use Rattle.std.specs.Prelude.{◌≡◌, ◌+◌, ◌%◌, ◌≤◌, length};
ghost use Rattle.std.proofs.lemmas.List.Edits.{sets};
ghost use Rattle.string.specs.Quote.{doubled};
ghost use Rattle.emit.specs.Emit.{count_limit, Puts};
ghost use Rattle.literal.specs.Literal.{bool_text, quoted, collate};

// How many bytes the two quotation marks have.
const QUOTES: usize = 2;

// How timestamps and an Interval's open second end are written: as the Rust does, or for DATETIME columns as GeoPackage stores them.
#[derive(Clone, Copy)]
pub enum Writing {
    Rust,
    GeoPackage,
}

// Writes TRUE or FALSE.
pub fn put_bool(b: bool, out: &mut [u8], at: usize) -> usize
    ensures { Puts count_limit at (bool_text b) out.old out.new result }
{
    emit::put_either(b, b"TRUE", b"FALSE", out, at)
}

// The last digit of n.
pub fn digit_of(n: usize) -> u8
    ensures { result ≡ 48 + n % 10 }
{
    b'0' + (n % 10) as u8
}

// Writes a text in quotes as it is.
pub fn put_quoted(s: &[u8], out: &mut [u8], at: usize) -> usize
    ensures { Puts count_limit at (quoted s.now) out.old out.new result }
{
    emit::put_all(&[b"'", s, b"'"], out, at)
}

// How many bytes a text is written with besides itself: one for each apostrophe.
fn apostrophes(s: &[u8]) -> usize
    ensures { length (doubled s.now) ≡ length s.now + result }
{
    let mut n = 0;
    for b in s {
        n += usize::from(*b == b'\'');
    }
    n
}

// Lays s over out from `at`, each apostrophe twice; answers the place after it.
fn copy_doubled(s: &[u8], out: &mut [u8], at: usize) -> usize
    requires { at + length (doubled s.now) ≤ length out.old }
    ensures text { out.new ≡ sets out.old at (doubled s.now) }
    ensures end { result ≡ at + length (doubled s.now) }
{
    let mut to = at;
    for b in s {
        out[to] = *b;
        to += 1;
        if *b == b'\'' {
            out[to] = *b;
            to += 1;
        }
    }
    to
}

// Writes a Str's text in quotes, each apostrophe doubled. Most texts have none, and both walks ask this of each.
pub fn put_str(s: &[u8], out: &mut [u8], at: usize) -> usize
    ensures { Puts count_limit at (quoted (doubled s.now)) out.old out.new result }
{
    if !s.contains(&b'\'') {
        return put_quoted(s, out, at);
    }
    // Longer than any text: its apostrophes need no counting.
    if emit::COUNT_LIMIT < s.len() {
        return emit::ended(at, s.len());
    }
    let n = s
        .len()
        .saturating_add(apostrophes(s))
        .saturating_add(QUOTES);
    if emit::lacks_room(out.len(), at, n) {
        return emit::ended(at, n);
    }
    let text = emit::put(b"'", out, at);
    let close = copy_doubled(s, out, text);
    emit::put(b"'", out, close)
}

// Writes ` COLLATE ` and a collation's name.
pub fn put_collate(name: &[u8], out: &mut [u8], at: usize) -> usize
    ensures { Puts count_limit at (collate name.now) out.old out.new result }
{
    emit::put_all(&[b" COLLATE ", name], out, at)
}

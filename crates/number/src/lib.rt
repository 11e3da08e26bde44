// Numbers in base ten, and a geometry with the number of its system (src/ds/gpkg.rs, `to_sql_impl`; src/geom/mod.rs, `to_sql`), each written whole or not at all.
#![tactic(auto)]

ghost use Rattle.std.specs.Prelude.{◌≡◌, ◌+◌, ◌/◌, ◌%◌, ◌^◌, ◌≤◌, ◌<◌, length};
ghost use Rattle.emit.specs.Emit.{count_limit, Puts};
ghost use Rattle.literal.specs.Literal.{low, decimal, plain, sign, num_text, spatial_text};
ghost use Rattle.literal.specs.LiteralLaws.{shown};

use literal::digit_of;

// How many digits the largest number has.
const LONGEST: usize = 20;

// Fills a part with the last digits of n, the last one first; answers what is before them.
fn fill_low(n: usize, part: &mut [u8]) -> usize
    ensures text { part.new ≡ low (length part.old) n }
    ensures rest { result ≡ n / 10 ^ length part.old }
{
    let mut rest = n;
    for k in (0..part.len()).rev() {
        part[k] = digit_of(rest);
        rest /= 10;
    }
    rest
}

// How many digits n has.
fn decimal_len(n: usize) -> usize
    ensures { (result ≡ length (decimal n)) × (result ≤ 20) }
{
    n.max(1).ilog10() as usize + 1
}

// Writes n in base ten.
pub fn put_decimal(n: usize, out: &mut [u8], at: usize) -> usize
    ensures { Puts count_limit at (decimal n) out.old out.new result }
{
    let w = decimal_len(n);
    if emit::lacks_room(out.len(), at, w) {
        return emit::ended(at, w);
    }
    let end = at + w;
    fill_low(n, &mut out[at..end]);
    end
}

// The sign of m.
fn sign_of(m: i64) -> &'static [u8]
    ensures { (result.now ≡ sign m) × (length result.now ≤ 1) }
{
    if m < 0 { b"-" } else { b"" }
}

// A number n ÷ 10^s.
#[derive(Clone, Copy)]
struct Scaled {
    n: usize,
    s: usize,
}

// n ÷ 10^scale with the closing zeros of the fraction dropped.
fn shorten(n: usize, scale: u8) -> Scaled
    ensures { (shown result.n result.s ≡ plain n scale) × (result.s < 256) }
{
    let mut m = n;
    let mut s = scale as usize;
    while 0 < s && m % 10 == 0 {
        m /= 10;
        s -= 1;
    }
    Scaled { n: m, s }
}

impl Scaled {
    // How many bytes it takes: all digits of n and a point, or a zero, a point and s digits.
    fn len(self) -> usize
        requires { self.s < 256 }
        ensures { (result ≡ length (shown self.n self.s)) × (result < 260) }
    {
        let w = decimal_len(self.n);
        if self.s == 0 {
            w
        } else if self.s < w {
            w + 1
        } else {
            self.s + 2
        }
    }

    // Fills a part of the right length: the fraction, then the point, then the whole part.
    fn fill(self, part: &mut [u8])
        requires { length part.old ≡ length (shown self.n self.s) }
        ensures { part.new ≡ shown self.n self.s }
    {
        if self.s == 0 {
            fill_low(self.n, part);
            return;
        }
        let from = part.len() - self.s;
        let end = part.len();
        let whole = fill_low(self.n, &mut part[from..end]);
        let point = from - 1;
        part[point] = b'.';
        fill_low(whole, &mut part[0..point]);
    }
}

// Writes m ÷ 10^scale as exact decimal.
pub fn put_num(m: i64, scale: u8, out: &mut [u8], at: usize) -> usize
    ensures { Puts count_limit at (num_text m scale) out.old out.new result }
{
    let sign = sign_of(m);
    let p = shorten(m.unsigned_abs() as usize, scale);
    let k = p.len();
    let n = sign.len() + k;
    if emit::lacks_room(out.len(), at, n) {
        return emit::ended(at, n);
    }
    let from = emit::put(sign, out, at);
    let end = from + k;
    p.fill(&mut out[from..end]);
    end
}

// Writes a geometry: ST_GeomFromText('w', srid).
pub fn put_spatial(srid: usize, w: &[u8], out: &mut [u8], at: usize) -> usize
    ensures { Puts count_limit at (spatial_text srid w.now) out.old out.new result }
{
    let k = decimal_len(srid);
    let mut digits = [0; LONGEST];
    fill_low(srid, &mut digits[..k]);
    emit::put_all(
        &[b"ST_GeomFromText('", w, b"', ", &digits[..k], b")"],
        out,
        at,
    )
}

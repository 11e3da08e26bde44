#![tactic(auto)]

ghost use Rattle.std.specs.Prelude.{◌≡◌, ◌%◌, ◌≤◌};
ghost use Rattle.civil.specs.Civil.{leap, days_in, valid_date, valid_time};

const YEAR_LIMIT: usize = 9999;

#[tactic(auto, unfolding(crate::specs::Civil::leap))]
fn is_leap(y: usize) -> bool
    ensures { result ≡ leap y }
{
    y % 4 == 0 && (y % 100 != 0 || y % 400 == 0)
}

// The days of a month, 1 to 12. But for February they take turns, 31 and 30, from January and anew from August: odd months have 31 up to
// July, even ones after it, where m / 8 is 1.
#[tactic(auto, unfolding(crate::specs::Civil::days_in))]
fn days_in(y: usize, m: usize) -> usize
    requires { (1 ≤ m) × (m ≤ 12) }
    ensures { result ≡ days_in y m }
{
    if m != 2 {
        30 + (m + m / 8) % 2
    } else if is_leap(y) {
        29
    } else {
        28
    }
}

// A date of the Gregorian calendar, from the year 1 to 9999.
#[tactic(auto, unfolding(crate::specs::Civil::valid_date))]
pub fn valid_date(y: usize, m: usize, d: usize) -> bool
    ensures { result ≡ valid_date y m d }
{
    (1..=YEAR_LIMIT).contains(&y) && (1..=12).contains(&m) && (1..=days_in(y, m)).contains(&d)
}

// A time of day, without leap seconds.
#[tactic(auto, unfolding(crate::specs::Civil::valid_time))]
pub fn valid_time(h: usize, m: usize, s: usize) -> bool
    ensures { result ≡ valid_time h m s }
{
    h <= 23 && m <= 59 && s <= 59
}

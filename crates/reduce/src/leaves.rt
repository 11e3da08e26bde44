// What a leaf is to the node above it, from its record.
ghost use Rattle.std.specs.Prelude.{◌≡◌, ℕ, ◌<◌};
ghost use Rattle.record.specs.Record.{le16};
ghost use Rattle.tree.specs.Tree.{Tree, encode};
ghost use Rattle.tree.specs.GoodWords.{Good};
ghost use Rattle.reduce.specs.Sort.{sort_of};
ghost use Rattle.reduce.specs.WalkWords.{day_key, second_key};

use crate::Sort;
use record::BODY;
use tree::{BOOL, DATE, NULL, NUM, SPATIAL, STR, TIMESTAMP, UNBOUNDED};

// Where the fields of a Date and of a Timestamp stand behind the year.
const MONTH: usize = 8;

const DAY: usize = 9;

const HOUR: usize = 10;

const MINUTE: usize = 11;

const SECOND: usize = 12;

// The time of day that a Date stands for: hour, minute and second, two digits each.
const MIDNIGHT: usize = 0;

// The place of its date in time.
fn day_key(s: &[u8]) -> usize
    ensures { (result ≡ day_key s.now) × (result < 656000000) }
{
    let month = record::word_at(s, BODY) * 100 + record::byte_at(s, MONTH);
    month * 100 + record::byte_at(s, DAY)
}

// The place of its date and time of day in time.
fn second_key(s: &[u8]) -> usize
    ensures { result ≡ second_key s.now }
{
    let hour = day_key(s) * 100 + record::byte_at(s, HOUR);
    let minute = hour * 100 + record::byte_at(s, MINUTE);
    minute * 100 + record::byte_at(s, SECOND)
}

// Its sort.
pub(crate) fn leaf_sort(s: &[u8], kind: usize) -> Sort
    ensures { (t : Tree) (n : ℕ) → s.now ≡ encode t → Good t n → kind ≡ le16 s.now 4 → kind < 9 → result ≡ sort_of t }
{
    match kind {
        NULL => Sort::Null,
        UNBOUNDED => Sort::Instant(0),
        BOOL => Sort::Bool(record::byte_at(s, BODY) == 1),
        NUM => Sort::Num,
        STR => Sort::Str,
        DATE => Sort::Instant(day_key(s) * 1000000 + MIDNIGHT),
        TIMESTAMP => Sort::Instant(second_key(s)),
        SPATIAL => Sort::Spatial,
        _ => Sort::Other,
    }
}

// How each operator is spelt in SQL.
#![tactic(auto)]

ghost use Rattle.std.specs.Prelude.{◌≡◌, option_map};
ghost use Rattle.spelling.specs.Spelling.{spelling, spelling_of};
ghost use Rattle.spelling.specs.SpellingTable.{Spells};

use op::{IS_NOT_NULL, Op};

// The spellings of `Op::to_sql`. First stands, by operator number, where each begins; it ends where the next one begins, and one that ends where
// it begins is none. Then come the spellings in order. A place is one byte, so none lies outside 256 bytes. The table holds no addresses, which a
// library for a device would keep in data that is written.
const SPELLINGS: &[u8; 256] = b"\
    \x36\x37\x38\x39\x3a\x3d\x3e\x3f\x42\
    \x43\x45\x46\x47\x49\x4b\x4e\x50\x50\
    \x50\x5d\x66\x71\x7b\x84\x8f\x99\xa4\
    \xa4\xa4\xa4\xa4\xa4\xa4\xa4\xa4\xa4\
    \xa4\xa4\xa4\xa4\xa4\xa4\xa5\xa7\xa9\
    \xab\xaf\xb7\xbe\xc9\xcb\xd1\xd8\xe3\
    +\
    -\
    *\
    /\
    div\
    %\
    ^\
    NOT\
    =\
    <>\
    <\
    >\
    <=\
    >=\
    AND\
    OR\
    ST_Intersects\
    ST_Equals\
    ST_Disjoint\
    ST_Touches\
    ST_Within\
    ST_Overlaps\
    ST_Crosses\
    ST_Contains\
    =\
    @>\
    <@\
    &&\
    LIKE\
    NOT LIKE\
    BETWEEN\
    NOT BETWEEN\
    IN\
    NOT IN\
    IS NULL\
    IS NOT NULL\
    29 bytes that no place names.";

// The table; what it has to hold is said of it here, once.
pub fn spellings() -> &'static [u8; 256]
    ensures { Spells result.now }
{
    SPELLINGS
}

// The spelling of an operator (`Op::to_sql`); CaseI, AccentI and the temporal operators have none.
pub fn to_sql(op: Op) -> Option<&'static [u8]>
    ensures { option_map (λ s. s.now) result ≡ spelling op }
{
    of_number(op::op_number(op))
}

// That of the operator with a number; a number that is no operator's has none.
pub fn of_number(n: usize) -> Option<&'static [u8]>
    ensures { option_map (λ s. s.now) result ≡ spelling_of n }
{
    if IS_NOT_NULL < n {
        return None;
    }
    let table = spellings();
    let from = usize::from(table[n]);
    let to = usize::from(table[n + 1]);
    if to <= from {
        return None;
    }
    Some(&table[from..to])
}

// The words that no name may be, in any letter case: document 01's and SQLite's keywords, as one table, and the look-up in it. The table and the
// families are printed by tools/generators/reserved_table.py.
ghost use Rattle.std.specs.Prelude.{◌≡◌, false, ◌+◌, ◌*◌, ◌≤◌, ◌<◌, length, get_or, take, drop};
ghost use Rattle.prelude.specs.Choice.{same};
ghost use Rattle.word.specs.Case.{upper, uppers};
ghost use Rattle.keyword.specs.Reserved.{reserved};
ghost use Rattle.keyword.specs.TableWords.{place_in, count_in, Lists, has_bit, mark_of, Covers};

use word::{is_word, upper_of};

// The words by length. First stand, for each length from 0 to 17, three bytes: where its words begin, low byte first, and how many they are. Then
// come the words, those of one length in the order of the alphabet.
const RESERVED: &[u8; 926] = b"\
    \x36\x00\x00\x36\x00\x00\x36\x00\x0b\x4c\x00\x0b\x6d\x00\x1a\xd5\x00\x18\
    \x4d\x01\x1d\xfb\x01\x15\x8e\x02\x06\xbe\x02\x0d\x33\x03\x03\x51\x03\x01\
    \x5c\x03\x03\x80\x03\x01\x8d\x03\x00\x8d\x03\x00\x8d\x03\x00\x8d\x03\x01\
    AS\
    BY\
    DO\
    IF\
    IN\
    IS\
    NO\
    OF\
    ON\
    OR\
    TO\
    ADD\
    ALL\
    AND\
    ASC\
    DIV\
    END\
    FOR\
    KEY\
    NOT\
    ROW\
    SET\
    CASE\
    CAST\
    DESC\
    DROP\
    EACH\
    ELSE\
    FAIL\
    FROM\
    FULL\
    GLOB\
    INTO\
    JOIN\
    LAST\
    LEFT\
    LIKE\
    NULL\
    OVER\
    PLAN\
    ROWS\
    TEMP\
    THEN\
    TIES\
    TRUE\
    VIEW\
    WHEN\
    WITH\
    ABORT\
    AFTER\
    ALTER\
    BEGIN\
    CHECK\
    CROSS\
    FALSE\
    FIRST\
    GROUP\
    INDEX\
    INNER\
    LIMIT\
    MATCH\
    NULLS\
    ORDER\
    OUTER\
    QUERY\
    RAISE\
    RANGE\
    RIGHT\
    TABLE\
    UNION\
    USING\
    WHERE\
    ACTION\
    ALWAYS\
    ATTACH\
    BEFORE\
    COLUMN\
    COMMIT\
    CREATE\
    DELETE\
    DETACH\
    ESCAPE\
    EXCEPT\
    EXISTS\
    FILTER\
    GROUPS\
    HAVING\
    IGNORE\
    INSERT\
    ISNULL\
    OFFSET\
    OTHERS\
    PRAGMA\
    REGEXP\
    RENAME\
    SELECT\
    UNIQUE\
    UPDATE\
    VACUUM\
    VALUES\
    WINDOW\
    ANALYZE\
    BETWEEN\
    CASCADE\
    COLLATE\
    CURRENT\
    DEFAULT\
    EXCLUDE\
    EXPLAIN\
    FOREIGN\
    INDEXED\
    INSTEAD\
    NATURAL\
    NOTHING\
    NOTNULL\
    PRIMARY\
    REINDEX\
    RELEASE\
    REPLACE\
    TRIGGER\
    VIRTUAL\
    WITHOUT\
    CONFLICT\
    DATABASE\
    DEFERRED\
    DISTINCT\
    RESTRICT\
    ROLLBACK\
    EXCLUSIVE\
    FOLLOWING\
    GENERATED\
    IMMEDIATE\
    INITIALLY\
    INTERSECT\
    PARTITION\
    PRECEDING\
    RECURSIVE\
    RETURNING\
    SAVEPOINT\
    TEMPORARY\
    UNBOUNDED\
    CONSTRAINT\
    DEFERRABLE\
    REFERENCES\
    TRANSACTION\
    CURRENT_DATE\
    CURRENT_TIME\
    MATERIALIZED\
    AUTOINCREMENT\
    CURRENT_TIMESTAMP";

// One constant of bytes and no list of texts: that would be a list of addresses, which a library for a device has to keep in memory that is written.
fn reserved_words() -> &'static [u8; 926]
    ensures { Lists result.now }
{
    RESERVED
}

// Where the words of n bytes begin.
fn place(table: &[u8], n: usize) -> usize
    requires { 3 * n + 1 < length table.now }
    ensures { result ≡ place_in table.now n }
{
    usize::from(table[3 * n]) + 256 * usize::from(table[3 * n + 1])
}

// How many words have n bytes.
fn count(table: &[u8], n: usize) -> usize
    requires { 3 * n + 2 < length table.now }
    ensures { result ≡ count_in table.now n }
{
    usize::from(table[3 * n + 2])
}

// The word, which begins with this capital, stands at a place of the table. Most words of the table differ in their first letter.
fn stands(table: &[u8], at: usize, first: u8, s: &[u8]) -> bool
    requires { (at + length s.now ≤ length table.now) × (1 ≤ length s.now) × (first ≡ upper (get_or s.now 0 0)) }
    ensures { result ≡ same (uppers s.now) (take (length s.now) (drop at table.now)) }
{
    if table[at] != first {
        return false;
    }
    is_word(s, &table[at..at + s.len()])
}

// The word is one of those of its length.
fn look_up(table: &[u8], s: &[u8]) -> bool
    requires { Lists table.now × (1 ≤ length s.now) × (length s.now ≤ 17) }
    ensures { result ≡ reserved s.now }
{
    let first = upper_of(s[0]);
    let mut at = place(table, s.len());
    let mut left = count(table, s.len());
    while 0 < left {
        if stands(table, at, first, s) {
            return true;
        }
        at += s.len();
        left -= 1;
    }
    false
}

pub(crate) fn is_listed(s: &[u8]) -> bool
    requires { (1 ≤ length s.now) × (length s.now ≤ 17) }
    ensures { result ≡ reserved s.now }
{
    look_up(reserved_words(), s)
}

// Whether a set of numbers below 64, a bit for each, has this one.
fn has(set: u64, k: usize) -> bool
    requires { k < 64 }
    ensures { result ≡ has_bit set k }
{
    (set >> k) % 2 == 1
}

// What the words that begin with one letter have: the set of their lengths, and that of their marks.
#[derive(Clone, Copy)]
struct Family(u64, u64);

// Those of the letter of that number, A being 1.
fn family_of(letter: u8) -> Family
    ensures { Covers length letter result.0 × Covers mark_of letter result.1 }
{
    match letter {
        1 => Family(0x020ec, 0x80104a2063000880), // A
        2 => Family(0x000e4, 0x0040002000080400), // B
        3 => Family(0x215f0, 0x10810099000a4800), // C
        4 => Family(0x005dc, 0x0012410006114404), // D
        5 => Family(0x002d8, 0x8240004000005840), // E
        6 => Family(0x002f8, 0x620010c420000000), // F
        7 => Family(0x00270, 0x0002000800000001), // G
        8 => Family(0x00040, 0x0000000000000040), // H
        9 => Family(0x002f4, 0x06302408c0204400), // I
        10 => Family(0x00010, 0x0000000040000000), // J
        11 => Family(0x00008, 0x0000000000800000), // K
        12 => Family(0x00030, 0x0000008000404001), // L
        13 => Family(0x01020, 0x8040000000000000), // M
        14 => Family(0x000bc, 0x2020084202004000), // N
        15 => Family(0x00074, 0x0830040004000410), // O
        16 => Family(0x002d0, 0x0000800011200008), // P
        17 => Family(0x00020, 0x0000000000000200), // Q
        18 => Family(0x007f8, 0x160003a100080400), // R
        19 => Family(0x00248, 0x0800010000002000), // S
        20 => Family(0x00ab4, 0x0200000810056080), // T
        21 => Family(0x00260, 0x0020002310000000), // U
        22 => Family(0x000d0, 0x0000021040040000), // V
        23 => Family(0x000f0, 0x02400000000100c0), // W
        _ => Family(0, 0),
    }
}

// A number below 64 that a word has in any letter case, from its length, its second and its last letter: a letter and its capital differ by 32, and
// twice that is 64.
fn mark(s: &[u8]) -> usize
    requires { (2 ≤ length s.now) × (length s.now ≤ 17) }
    ensures { (result ≡ mark_of s.now) × (result < 64) }
{
    (9 * s.len() + 2 * (usize::from(s[1]) + usize::from(s[s.len() - 1]))) % 64
}

// Most names differ from every reserved word of their first letter in length or mark, and need no look at the table. Modulo 32 a letter and its
// capital are one number; other bytes may share it, and the table tells them apart.
pub(crate) fn may_be_reserved(s: &[u8]) -> bool
    requires { (2 ≤ length s.now) × (length s.now ≤ 17) }
    ensures { result ≡ false → reserved s.now ≡ false }
{
    let family = family_of(s[0] % 32);
    has(family.0, s.len()) && has(family.1, mark(s))
}

// The words that no name may be.
#![tactic(auto)]

ghost use Rattle.std.specs.Prelude.{◌≡◌};
ghost use Rattle.keyword.specs.Reserved.{reserved};

use table::{is_listed, may_be_reserved};

mod table;

// The most bytes of a reserved word.
const LONGEST: usize = 17;

// A word that no name may be, in any letter case. None has a single byte, and a mark takes a second letter.
pub fn is_reserved(s: &[u8]) -> bool
    ensures { result ≡ reserved s.now }
{
    if s.len() < 2 || s.len() > LONGEST {
        return false;
    }
    may_be_reserved(s) && is_listed(s)
}

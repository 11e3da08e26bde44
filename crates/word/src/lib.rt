// Words in any letter case.
#![tactic(auto)]

ghost use Rattle.std.specs.Prelude.{◌≡◌};
ghost use Rattle.prelude.specs.Choice.{same};
ghost use Rattle.word.specs.Case.{upper, uppers};

// A letter as its capital, any other byte as it is.
#[tactic(auto, unfolding(crate::specs::Case::upper))]
pub fn upper_of(b: u8) -> u8
    ensures { result ≡ upper b }
{
    b.to_ascii_uppercase()
}

// Whether a word is one that is given in capitals, in any letter case.
pub fn is_word(a: &[u8], w: &[u8]) -> bool
    ensures { result ≡ same (uppers a.now) w.now }
{
    a.len() == w.len() && a.iter().zip(w).all(|(&x, &y)| upper_of(x) == y)
}

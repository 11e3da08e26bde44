// The record of the settings: a precision, and the names of three collations; and which of these is asked for.
#![tactic(auto)]

ghost use Rattle.std.specs.Prelude.{◌≡◌, ◌<◌};
ghost use Rattle.settings.specs.Settings.{ai_at, cai_at, settings_body, is_settings};
ghost use Rattle.settings.specs.FlagWords.{collation_flags};

use op::CASE_I;

const SETTINGS_KIND: usize = 100;

const PRECISION_LIMIT: usize = 15;

// Where the settings' precision byte stands, and where the first of their names begins, with its length byte.
pub const PRECISION_AT: usize = 6;

pub const CI_AT: usize = 7;

// The flags of a Str, by the collation that they ask for: two bits of one byte, letter case and accents, which reduce joins by arithmetic. An enum
// would be turned back into the bits in each place.
pub const PLAIN: usize = 0;

pub const CI: usize = 1;

pub const AI: usize = 2;

pub const CAI: usize = 3;

// Where the second and the third name begin.
pub fn ai_at(s: &[u8]) -> usize
    ensures { (result ≡ ai_at s.now) × (result < 264) }
{
    CI_AT + 1 + record::byte_at(s, CI_AT)
}

pub fn cai_at(s: &[u8]) -> usize
    ensures { (result ≡ cai_at s.now) × (result < 520) }
{
    let ai = ai_at(s);
    ai + 1 + record::byte_at(s, ai)
}

// Past the frame: a precision, three names, and nothing more.
#[tactic(auto, using(crate::proofs::Tests::tests), unfolding(crate::specs::Settings::settings_body))]
fn settings_body(s: &[u8]) -> bool
    ensures { result ≡ settings_body s.now }
{
    let ai = ai_at(s);
    let cai = cai_at(s);
    record::byte_at(s, PRECISION_AT) <= PRECISION_LIMIT
        && charset::named_at(s, CI_AT)
        && charset::named_at(s, ai)
        && charset::named_at(s, cai)
        && cai + 1 + record::byte_at(s, cai) == s.len()
}

// One record of the settings' kind, and nothing after it.
#[tactic(auto, using(crate::proofs::Tests::tests), unfolding(crate::specs::Settings::is_settings, crate::specs::Settings::is_frame))]
pub fn is_settings(s: &[u8]) -> bool
    ensures { result ≡ is_settings s.now }
{
    let Some(frame) = record::frame_at(s) else {
        return false;
    };
    frame.kind == SETTINGS_KIND && frame.end == s.len() && settings_body(s)
}

// The flags of the collation that CaseI, AccentI or both ask for.
#[tactic(auto, using(crate::proofs::Tests::tests))]
pub fn collation_flags(op: usize, twin: bool) -> usize
    ensures { result ≡ collation_flags op twin }
{
    if twin {
        CAI
    } else if op == CASE_I {
        CI
    } else {
        AI
    }
}

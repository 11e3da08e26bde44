// Whether a text may be written, by its length: refusals 8 and 9 of document 01, "What a caller hears".
#![tactic(auto)]

ghost use Rattle.std.specs.Prelude.{◌≡◌, Ok, Err};
ghost use Rattle.room.specs.Room.{sized};

use refusal::Refusal;

// Whether a text of this length is within the limit of a text and the size of a buffer; else the refusal that comes first.
#[tactic(auto, unfolding(crate::specs::Room::sized))]
pub fn check(limit: usize, size: usize, length: usize) -> Result<(), Refusal>
    ensures { result ≡ sized Err (Ok tt) limit size length }
{
    if limit < length {
        return Err(Refusal::TextTooLong);
    }
    if size < length {
        return Err(Refusal::BufferTooShort);
    }
    Ok(())
}

// A temporal condition piece by piece (src/ds/gpkg.rs, the fifteen `t_…_sql`), by the part that a template has for each: its words, and its ends.
#![tactic(auto)]

ghost use Rattle.std.specs.Prelude.{◌≡◌};
ghost use Rattle.emit.specs.Emit.{count_limit, Puts};
ghost use Rattle.sql.specs.Template.{words_of};
ghost use Rattle.part.specs.PieceWords.{end_piece, piece_of, flat_text};

use literal::Writing;
use operand::End;
use sql::Part;

// A piece that is written without its record.
#[derive(Clone, Copy)]
pub enum Flat {
    // The words of a part.
    Words(Part),
    // An open end, and whether it is an operand's second.
    Opened(bool),
    // NULL.
    Nothing,
}

// A piece of a temporal condition's text.
#[derive(Clone, Copy)]
pub enum Piece {
    Plain(Flat),
    // The text of the record from a first offset to an end.
    Node(usize, usize),
    // The name in such a record.
    Name(usize, usize),
}

// Writes the words of a part that is no end.
#[tactic(auto, unfolding(sql::specs::Template::words_of, sql::specs::Template::part_of))]
fn put_part(part: Part, out: &mut [u8], at: usize) -> usize
    ensures { Puts count_limit at (words_of part) out.old out.new result }
{
    match part {
        Part::Open => emit::put(b"(", out, at),
        Part::Close => emit::put(b")", out, at),
        Part::CloseBoth => emit::put(b"))", out, at),
        Part::Greater => emit::put(b" > ", out, at),
        Part::Less => emit::put(b" < ", out, at),
        Part::Equal => emit::put(b" = ", out, at),
        Part::Unequal => emit::put(b" != ", out, at),
        Part::Quote => emit::put(b"\"", out, at),
        Part::IsNotNull => emit::put(b"\" IS NOT NULL AND (", out, at),
        Part::IsNotNullQuote => emit::put(b"\" IS NOT NULL AND \"", out, at),
        Part::NotNull => emit::put(b"\" NOT NULL AND (", out, at),
        Part::Or => emit::put(b") OR (", out, at),
        Part::And => emit::put(b") AND (", out, at),
        Part::Not => emit::put(b"NOT((", out, at),
        Part::E0 | Part::E1 | Part::E2 | Part::E3 | Part::Blank => emit::ended(at, 0),
    }
}

// Writes a piece that needs no record.
#[tactic(auto, unfolding(crate::specs::PieceWords::flat_text))]
pub fn put_flat(flat: Flat, writing: Writing, out: &mut [u8], at: usize) -> usize
    ensures { Puts count_limit at (flat_text writing flat) out.old out.new result }
{
    match flat {
        Flat::Words(part) => put_part(part, out, at),
        Flat::Opened(second) => instant::put_unbounded(writing, second, out, at),
        Flat::Nothing => emit::put(b"NULL", out, at),
    }
}

// What an end stands for, by its place; the first and the third are starts.
fn end_piece(place: usize, e: End) -> Piece
    ensures { result ≡ end_piece place e }
{
    match e {
        End::Column(a, z) => Piece::Name(usize::from(a), usize::from(z)),
        End::Instant(a, z) | End::Other(a, z) => Piece::Node(usize::from(a), usize::from(z)),
        End::Open => Piece::Plain(Flat::Opened(place % 2 == 1)),
        End::Null => Piece::Plain(Flat::Nothing),
    }
}

// What a part of a template stands for, where these are the ends.
#[tactic(auto, unfolding(crate::specs::PieceWords::piece_of))]
pub fn piece_of(part: Part, e: &[End; 4]) -> Piece
    ensures { result ≡ piece_of part e.now }
{
    // The ends stand first in the enum, at their places.
    let place = part as usize;
    if place < 4 {
        end_piece(place, e[place])
    } else {
        Piece::Plain(Flat::Words(part))
    }
}

// The pieces that a line is made of, and a page that they are written on.
// Not by `write!` and `Display`: what those promise holds where they answer `Ok`, and nothing says when they do, so that a
// line that has room might be refused.
ghost use Rattle.std.specs.Prelude.{◌≡◌, ℕ, List, [], ◌+◌, ◌*◌, ◌++◌, ◌≤◌, length, take};
ghost use Rattle.letters.specs.Letters.{Wrote, decimal_of};
ghost use Rattle.letters.specs.Told.{TellsWithin};
ghost use Rattle.telling.specs.Pieces.{piece_of, line_of, most_of, piece_text, line_text};

use letters::TooShort;
use std::marker::Model;

// A piece: a word, a number in decimal, the last two digits of one, a word of a group in hexadecimal, a character as it
// is shown, or nothing.
#[derive(Clone, Copy)]
pub(crate) enum Piece {
    Word(&'static [u8]),
    Number(u64),
    Two(u8),
    Hex(u16),
    Character(u8),
    Silent,
}

// Of a word no more letters are told; none has more.
const WORD_ROOM: usize = 20;

// A number in decimal, in a buffer and from a place on, as `letters` takes them; so below.
fn put_number(number: u64, out: &mut [u8], at: usize) -> usize
    requires { at + 20 ≤ length out.old }
    ensures { Wrote out.old at (decimal_of number) out.new result × (result ≤ at + 20) }
{
    letters::put_number(number, out, at)
}

// A piece.
fn put_piece(piece: Piece, out: &mut [u8], at: usize) -> usize
    requires { at + most_of piece ≤ length out.old }
    ensures { Wrote out.old at (piece_text (piece_of piece)) out.new result × (result ≤ at + most_of piece) }
{
    match piece {
        Piece::Word(word) => letters::put(&word[..word.len().min(WORD_ROOM)], out, at),
        Piece::Number(number) => put_number(number, out, at),
        Piece::Two(number) => letters::put_last_two(number, out, at),
        Piece::Hex(word) => letters::put_hex(word, out, at),
        Piece::Character(character) => letters::put_character(character, out, at),
        Piece::Silent => at,
    }
}

// A page: the text that is written so far, in a buffer of so much room.
#[derive(Drop)]
pub(crate) struct Page<const ROOM: usize> {
    buffer: [u8; ROOM],
    length: usize,
}

impl<const ROOM: usize> Model for Page<ROOM> {
    ghost Value = { List ℕ };

    ghost view = { λ page. take page.length page.buffer };

    ghost invariant = { λ page. page.length ≤ ROOM };
}

impl<const ROOM: usize> Page<ROOM> {
    // Nothing is written.
    pub(crate) fn new() -> Page<ROOM>
        ensures { result ≡ [] }
    {
        Page {
            buffer: [0; ROOM],
            length: 0,
        }
    }

    // A piece, behind what is written.
    pub(crate) fn put(&mut self, piece: Piece)
        requires { length self.old + most_of piece ≤ ROOM }
        ensures text { self.new ≡ self.old ++ piece_text (piece_of piece) }
        ensures most { length self.new ≤ length self.old + most_of piece }
    {
        self.length = put_piece(piece, &mut self.buffer, self.length);
    }

    // Pieces, one behind the other.
    pub(crate) fn put_line(&mut self, line: &[Piece])
        requires { length self.old + 20 * length line.now ≤ ROOM }
        ensures text { self.new ≡ self.old ++ line_text (line_of line.now) }
        ensures most { length self.new ≤ length self.old + 20 * length line.now }
    {
        for piece in line {
            self.put(*piece);
        }
    }

    // The text into a buffer that is lent, if it has room.
    pub(crate) fn tell(&self, out: &mut [u8]) -> Result<usize, TooShort>
        ensures { TellsWithin ROOM self.now out.old result out.new }
    {
        letters::tell(&self.buffer[..self.length], out)
    }
}

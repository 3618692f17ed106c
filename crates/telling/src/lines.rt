// The lines of a recording, as pieces: what is told of a lock, of a loss and of a group.
ghost use Rattle.std.specs.Prelude.{◌≡◌, [], ◌+◌, ◌++◌, ◌≤◌, length};
ghost use Rattle.groups.specs.Content.{first_of, second_of};
ghost use Rattle.telling.specs.Pieces.{Character, piece_of, line_of, line_text};
ghost use Rattle.telling.specs.Lines.{bit_piece, word_piece, type_piece, version_piece, head_line};
ghost use Rattle.telling.specs.Lines.{name_line, af_label, af_piece, codes_line, part_line};
ghost use Rattle.telling.specs.Lines.{sign_piece, clock_line, local_line};
ghost use Rattle.telling.specs.Lines.{content_line, closing_line};
ghost use Rattle.telling.specs.Lines.{clock_of, group_text};
ghost use Rattle.telling.specs.Rooms.{group_room};

use crate::GROUP_ROOM;
use crate::pieces::{Page, Piece};
use clock::{Clock, DateTime, OutOfRange};
use frequencies::NoFrequency;
use groups::Group;
use groups::fields::Content;

// The signs between pieces.
pub(crate) const SPACE: Piece = Piece::Character(b' ');

const HYPHEN: Piece = Piece::Character(b'-');

const COLON: Piece = Piece::Character(b':');

const QUOTE_OPENS: Piece = Piece::Word(b" \"");

const QUOTE_CLOSES: Piece = Piece::Word(b"\"");

pub(crate) const END: Piece = Piece::Word(b"\n");

// What is not held.
pub(crate) const NONE: Piece = Piece::Word(b"none");

// A yes or no as 1 or 0.
pub(crate) fn bit(flag: bool) -> Piece
    ensures { piece_of result ≡ bit_piece flag }
{
    Piece::Number(u64::from(flag))
}

// A word of a group, or the mark of a bad place.
fn word_piece(group: Group, place: usize) -> Piece
    ensures { piece_of result ≡ word_piece group place }
{
    if groups::good(group, place) {
        Piece::Hex(groups::word(group, place))
    } else {
        Piece::Word(b"----")
    }
}

// The type of a group, and its version: A or B.
fn type_piece(group: Group) -> Piece
    ensures { piece_of result ≡ type_piece group }
{
    if groups::good(group, 1) {
        Piece::Number(u64::from(groups::word(group, 1) / 4096))
    } else {
        Piece::Word(b"--")
    }
}

fn version_piece(group: Group) -> Piece
    ensures { piece_of result ≡ version_piece group }
{
    if groups::good(group, 1) {
        Piece::Character(b'A' + (groups::word(group, 1) / 2048 % 2) as u8)
    } else {
        Piece::Silent
    }
}

// A group's number, type and words.
fn head(number: u64, group: Group) -> [Piece; 13]
    ensures { line_of result ≡ head_line number group }
{
    [
        Piece::Word(b"group "),
        Piece::Number(number),
        SPACE,
        type_piece(group),
        version_piece(group),
        SPACE,
        word_piece(group, 0),
        SPACE,
        word_piece(group, 1),
        SPACE,
        word_piece(group, 2),
        SPACE,
        word_piece(group, 3),
    ]
}

// A character of a word, the first or the second.
fn first(word: u16) -> Piece
    ensures { piece_of result ≡ Character (first_of word) }
{
    Piece::Character(groups::fields::first(word))
}

fn second(word: u16) -> Piece
    ensures { piece_of result ≡ Character (second_of word) }
{
    Piece::Character(groups::fields::second(word))
}

// A name pair at its address.
fn name(address: u8, pair: u16) -> [Piece; 6]
    ensures { line_of result ≡ name_line address pair }
{
    [
        Piece::Word(b" name "),
        Piece::Number(u64::from(address)),
        QUOTE_OPENS,
        first(pair),
        second(pair),
        QUOTE_CLOSES,
    ]
}

// The label of an AF code, and its frequency or itself.
fn af_label(answer: Result<u32, NoFrequency>) -> Piece
    ensures { piece_of result ≡ af_label answer }
{
    match answer {
        Ok(_) => SPACE,
        Err(NoFrequency) => Piece::Word(b" code "),
    }
}

fn af_piece(answer: Result<u32, NoFrequency>, code: u8) -> Piece
    ensures { piece_of result ≡ af_piece answer code }
{
    match answer {
        Ok(khz) => Piece::Number(u64::from(khz)),
        Err(NoFrequency) => Piece::Number(u64::from(code)),
    }
}

// Two AF codes.
fn codes(one: u8, two: u8) -> [Piece; 5]
    ensures { line_of result ≡ codes_line one two }
{
    let answer1 = frequencies::frequency(one);
    let answer2 = frequencies::frequency(two);
    [
        Piece::Word(b" AF"),
        af_label(answer1),
        af_piece(answer1, one),
        af_label(answer2),
        af_piece(answer2, two),
    ]
}

// The address and the flag of a text part, and its first two characters.
fn part(address: u8, flag: bool, pair: u16) -> [Piece; 7]
    ensures { line_of result ≡ part_line address flag pair }
{
    [
        Piece::Word(b" text "),
        Piece::Number(u64::from(address)),
        Piece::Word(b" flag "),
        bit(flag),
        QUOTE_OPENS,
        first(pair),
        second(pair),
    ]
}

// The sign of a clock's offset.
fn sign(negative: bool) -> Piece
    ensures { piece_of result ≡ sign_piece negative }
{
    Piece::Word(if negative { b" -" } else { b" +" })
}

// A clock behind its label, or that there is none.
pub(crate) fn put_clock<const ROOM: usize>(label: Piece, held: Option<Clock>, page: &mut Page<ROOM>)
    requires { length page.old + 160 ≤ ROOM }
    ensures text { page.new ≡ page.old ++ line_text (clock_line (piece_of label) held) }
    ensures most { length page.new ≤ length page.old + 160 }
{
    match held {
        Some(clock) => page.put_line(&[
            label,
            Piece::Number(u64::from(clock.day.0)),
            SPACE,
            Piece::Two(clock.hour),
            COLON,
            Piece::Two(clock.minute),
            sign(clock.negative),
            Piece::Number(u64::from(clock.half)),
        ]),
        None => page.put_line(&[label, NONE]),
    }
}

// A local date and time behind its label, or that there is none; the line ends with it.
pub(crate) fn put_local<const ROOM: usize>(
    label: Piece,
    local: Result<DateTime, OutOfRange>,
    page: &mut Page<ROOM>,
)
    requires { length page.old + 220 ≤ ROOM }
    ensures text { page.new ≡ page.old ++ line_text (local_line (piece_of label) local) }
    ensures most { length page.new ≤ length page.old + 220 }
{
    match local {
        Ok(date) => page.put_line(&[
            label,
            Piece::Number(u64::from(date.year)),
            HYPHEN,
            Piece::Two(date.month),
            HYPHEN,
            Piece::Two(date.day),
            SPACE,
            Piece::Two(date.hour),
            COLON,
            Piece::Two(date.minute),
            END,
        ]),
        Err(OutOfRange) => page.put_line(&[label, NONE, END]),
    }
}

// What a group's content says; `held` is the clock that its words make, if they do.
fn put_content(content: Content, held: Option<Clock>, page: &mut Page<GROUP_ROOM>)
    requires { length page.old + 220 ≤ group_room }
    ensures text { page.new ≡ page.old ++ line_text (content_line content held) }
    ensures most { length page.new ≤ length page.old + 220 }
{
    match content {
        Content::Name0A {
            address,
            af,
            pair,
            ..
        } => {
            page.put_line(&name(address, pair));
            page.put_line(&codes(groups::fields::first(af), groups::fields::second(af)));
        }
        Content::Name0B { address, pair, .. } => page.put_line(&name(address, pair)),
        Content::Text2A {
            flag,
            address,
            first: one,
            second: two,
        } => {
            page.put_line(&part(address, flag, one));
            page.put_line(&[first(two), second(two), QUOTE_CLOSES]);
        }
        Content::Text2B {
            flag,
            address,
            pair,
        } => {
            page.put_line(&part(address, flag, pair));
            page.put_line(&[QUOTE_CLOSES]);
        }
        Content::Clock4A => put_clock(Piece::Word(b" clock "), held, page),
        Content::Other => {}
    }
}

// How the line of a group's content ends.
fn put_closing(content: Content, held: Option<Clock>, page: &mut Page<GROUP_ROOM>)
    requires { length page.old + 220 ≤ group_room }
    ensures text { page.new ≡ page.old ++ line_text (closing_line content held) }
{
    match content {
        Content::Clock4A => put_local(Piece::Word(b" local "), clock::local_date(held), page),
        _ => page.put_line(&[END]),
    }
}

// The clock that a group's words make, if they do.
fn clock_of(group: Group) -> Option<Clock>
    ensures { result ≡ clock_of group }
{
    clock::read(
        groups::word(group, 1),
        groups::word(group, 2),
        groups::word(group, 3),
    )
}

// The line of a group on a fresh page: what it carries is told where all blocks are good.
pub(crate) fn put_group(number: u64, group: Group, page: &mut Page<GROUP_ROOM>)
    requires { page.old ≡ [] }
    ensures { page.new ≡ group_text number group }
{
    page.put_line(&head(number, group));
    if groups::is_all_good(group) {
        let content = groups::fields::content_of(group);
        let held = clock_of(group);
        put_content(content, held, page);
        put_closing(content, held, page);
    } else {
        page.put_line(&[END]);
    }
}

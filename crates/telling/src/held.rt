// The station record in words.
ghost use Rattle.std.specs.Prelude.{◌≡◌, [], ◌+◌, ◌*◌, ◌++◌, ◌≤◌, length};
ghost use Rattle.frequencies.specs.AfList.{held_of};
ghost use Rattle.letters.specs.Letters.{joined, character_text};
ghost use Rattle.telling.specs.Pieces.{piece_of, line_of, most_of, piece_text, line_text};
ghost use Rattle.telling.specs.Rooms.{station_room};
ghost use Rattle.telling.specs.Station.{pi_piece, station_line, mark_text, shown_text, flag_piece};
ghost use Rattle.telling.specs.Station.{list_line, frequencies_to, name_text, text_text, rest_text, station_text};

use crate::lines::{NONE, SPACE};
use crate::pieces::{Page, Piece};
use crate::{STATION_ROOM, lines};
use frequencies::AfList;
use station::{Record, read};

// The PI, or that there is none.
fn pi_piece(held: Option<u16>) -> Piece
    ensures { piece_of result ≡ pi_piece held }
{
    match held {
        Some(pi) => Piece::Hex(pi),
        None => NONE,
    }
}

// The text flag, or that there is none.
fn flag_piece(held: Option<bool>) -> Piece
    ensures { piece_of result ≡ flag_piece held }
{
    match held {
        Some(flag) => lines::bit(flag),
        None => NONE,
    }
}

// PI, PTY, TP, and the start of the name.
fn station_line(station: Record) -> [Piece; 7]
    ensures { line_of result ≡ station_line station }
{
    [
        Piece::Word(b"PI "),
        pi_piece(read::pi(station)),
        Piece::Word(b"\nPTY "),
        Piece::Number(u64::from(read::pty(station))),
        Piece::Word(b"\nTP "),
        lines::bit(read::tp(station)),
        Piece::Word(b"\nname \""),
    ]
}

// The text flag, and how many frequencies are held of those expected.
fn list_line(station: Record) -> [Piece; 6]
    ensures { line_of result ≡ list_line station }
{
    let list = read::af_list(station);
    [
        Piece::Word(b"\nflag "),
        flag_piece(read::text_flag(station)),
        Piece::Word(b"\nAF "),
        Piece::Number(u64::from(frequencies::held(list))),
        Piece::Word(b" of "),
        Piece::Number(u64::from(frequencies::expected(list))),
    ]
}

// Room is reckoned at 20 characters for each piece of a line, 4 for a character as it is shown and for a mark, and 24 for
// a frequency behind its space.

// Characters, one behind the other.
fn put_characters(characters: &[u8], page: &mut Page<STATION_ROOM>)
    requires { length page.old + 4 * length characters.now ≤ station_room }
    ensures text { page.new ≡ page.old ++ joined character_text characters.now }
    ensures most { length page.new ≤ length page.old + 4 * length characters.now }
{
    for character in characters {
        page.put(Piece::Character(*character));
    }
}

// The mark of a pair: whether it was seen.
fn mark(seen: bool) -> Piece
    ensures text { piece_text (piece_of result) ≡ mark_text seen }
    ensures most { most_of result ≡ 4 }
{
    if seen {
        Piece::Character(b'+')
    } else {
        Piece::Character(b'-')
    }
}

// The marks of pairs, one behind the other.
fn put_marks(seen: &[bool], page: &mut Page<STATION_ROOM>)
    requires { length page.old + 4 * length seen.now ≤ station_room }
    ensures text { page.new ≡ page.old ++ joined mark_text seen.now }
    ensures most { length page.new ≤ length page.old + 4 * length seen.now }
{
    for pair in seen {
        page.put(mark(*pair));
    }
}

// A line of pieces, characters behind it, and the marks of their pairs.
fn put_shown(line: &[Piece], characters: &[u8], seen: &[bool], page: &mut Page<STATION_ROOM>)
    requires { length page.old + 20 * length line.now + 4 * length characters.now + 20 + 4 * length seen.now
        ≤ station_room }
    ensures text { page.new ≡ page.old ++ (line_text (line_of line.now) ++ shown_text characters.now seen.now) }
    ensures most { length page.new
        ≤ length page.old + 20 * length line.now + 4 * length characters.now + 20 + 4 * length seen.now }
{
    page.put_line(line);
    put_characters(characters, page);
    page.put_line(&[Piece::Word(b"\" seen ")]);
    put_marks(seen, page);
}

// PI, PTY, TP and the name.
fn put_name(station: Record, page: &mut Page<STATION_ROOM>)
    requires { page.old ≡ [] }
    ensures text { page.new ≡ name_text station }
    ensures most { length page.new ≤ 208 }
{
    let line = station_line(station);
    let characters = read::name_characters(station);
    let seen = read::name_seen(station);
    put_shown(&line, &characters, &seen, page);
}

// The text.
fn put_text(station: Record, page: &mut Page<STATION_ROOM>)
    requires { length page.old ≤ 208 }
    ensures text { page.new ≡ page.old ++ text_text station }
    ensures most { length page.new ≤ length page.old + 424 }
{
    let line = [Piece::Word(b"\ntext \"")];
    let characters = read::text_characters(station);
    let seen = read::text_seen(station);
    put_shown(&line, &characters, &seen, page);
}

// The frequencies held, each behind a space.
fn put_frequencies(list: AfList, page: &mut Page<STATION_ROOM>)
    requires { length page.old + 6120 ≤ station_room }
    ensures text { page.new ≡ page.old ++ frequencies_to list (held_of list) }
    ensures most { length page.new ≤ length page.old + 6120 }
{
    for i in 0..usize::from(frequencies::held(list)) {
        page.put(SPACE);
        page.put(Piece::Number(u64::from(frequencies::at(list, i))));
    }
}

// The text flag, the AF list, the clock, and the local date and time.
fn put_rest(station: Record, page: &mut Page<STATION_ROOM>)
    requires { length page.old ≤ 632 }
    ensures { page.new ≡ page.old ++ rest_text station }
{
    page.put_line(&list_line(station));
    put_frequencies(read::af_list(station), page);
    let held = read::held_clock(station);
    lines::put_clock(Piece::Word(b"\nclock "), held, page);
    lines::put_local(Piece::Word(b"\nlocal "), clock::local_date(held), page);
}

// All that is held of a station, on a fresh page.
pub(crate) fn put_station(station: Record, page: &mut Page<STATION_ROOM>)
    requires { page.old ≡ [] }
    ensures { page.new ≡ station_text station }
{
    put_name(station, page);
    put_text(station, page);
    put_rest(station, page);
}

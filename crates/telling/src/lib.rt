// What the program `listen` writes: each line as characters in a buffer that is lent.
// Refused, with number 8: a buffer that is too short; it is then as it was.
#![tactic(auto)]

ghost use Rattle.std.specs.Prelude.{◌≤◌, length};
ghost use Rattle.telling.specs.Pieces.{line_of, line_text};
ghost use Rattle.telling.specs.Lines.{lock_line, lost_line, group_text};
ghost use Rattle.telling.specs.Station.{station_text};
ghost use Rattle.telling.specs.Totals.{counts_line};
ghost use Rattle.letters.specs.Told.{TellsWithin};
ghost use Rattle.telling.specs.Rooms.{line_room, group_room, station_room};

mod held;
mod lines;
mod pieces;

use counts::Counts;
use groups::Group;
use letters::TooShort;
use lines::END;
use pieces::{Page, Piece};
use station::Record;

// Room for any line of pieces, for a group's line, and for all that is held of a station: a buffer with so much is
// never too short. A text is written on a page of our own first, so that a buffer that is too short stays as it is.
pub const LINE_ROOM: usize = 320;

pub const GROUP_ROOM: usize = 1024;

pub const STATION_ROOM: usize = 7919;

// A line of pieces at the front of a buffer, if it has room.
fn line_told(line: &[Piece], out: &mut [u8]) -> Result<usize, TooShort>
    requires { length line.now ≤ 16 }
    ensures { TellsWithin line_room (line_text (line_of line.now)) out.old result out.new }
{
    let mut page = Page::<LINE_ROOM>::new();
    page.put_line(line);
    page.tell(out)
}

// That lock was taken with a bit; the first bit of a recording is bit 0.
pub fn lock(bit: u64, out: &mut [u8]) -> Result<usize, TooShort>
    ensures { TellsWithin line_room (line_text (lock_line bit)) out.old result out.new }
{
    line_told(&[Piece::Word(b"lock "), Piece::Number(bit), END], out)
}

// That lock was lost with a bit.
pub fn lost(bit: u64, out: &mut [u8]) -> Result<usize, TooShort>
    ensures { TellsWithin line_room (line_text (lost_line bit)) out.old result out.new }
{
    line_told(&[Piece::Word(b"lost "), Piece::Number(bit), END], out)
}

// The line of a group, with its number in the recording.
pub fn group(number: u64, group: Group, out: &mut [u8]) -> Result<usize, TooShort>
    ensures { TellsWithin group_room (group_text number group) out.old result out.new }
{
    let mut page = Page::<GROUP_ROOM>::new();
    lines::put_group(number, group, &mut page);
    page.tell(out)
}

// All that is held of a station.
pub fn record_lines(station: Record, out: &mut [u8]) -> Result<usize, TooShort>
    ensures { TellsWithin station_room (station_text station) out.old result out.new }
{
    let mut page = Page::<STATION_ROOM>::new();
    held::put_station(station, &mut page);
    page.tell(out)
}

// The counts of a recording.
pub fn count_lines(counts: Counts, out: &mut [u8]) -> Result<usize, TooShort>
    ensures { TellsWithin line_room (line_text (counts_line counts)) out.old result out.new }
{
    let line = [
        Piece::Word(b"groups "),
        Piece::Number(counts.groups),
        Piece::Word(b"\nbad groups "),
        Piece::Number(counts.bad),
        Piece::Word(b"\nlocks "),
        Piece::Number(counts.locks),
        Piece::Word(b"\nlosses "),
        Piece::Number(counts.losses),
        END,
    ];
    line_told(&line, out)
}

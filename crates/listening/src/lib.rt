// The program `listen`: reads a recording in pieces of at most 64 KiB, feeds it to the receiver, and writes the lines
// that `recording` makes of it. It only moves bytes. `rt` is what a program runs on, and `errors` its standard error.
#![tactic(auto)]

ghost use Rattle.std.specs.Prelude.{◌≡◌};
ghost use Rattle.recording.specs.Ear.{hear_of};

use asking::reading;
use asking::reading::Reading;
use files::arguments;
use files::arguments::NAME_ROOM;
use receiver::Advanced;
use recording::Ear;
use std::io;
use std::io::{Print, Read};
use std::rt::Runtime;
use telling::{GROUP_ROOM, LINE_ROOM, STATION_ROOM};

// Bytes of a piece.
const PIECE: usize = 65536;

// What the program runs on, its standard error, and whether it is asked for the summary alone.
#[derive(Drop)]
struct Listener<'a, R, E> {
    rt: &'a R,
    errors: &'a E,
    short: bool,
}

// How far a recording is heard: what was heard, how many bits came, and whether its lines can still be written.
#[derive(Drop)]
struct Listened {
    ear: Ear,
    bits: u64,
    open: bool,
}

// The program `listen`, with the arguments [-s] [FILE]: the lines of a recording, or with -s the summary alone.
pub fn listen(rt: &impl Runtime, errors: &impl Print) {
    let mut first = [0u8; 3];
    let length = arguments::get(rt, 1, &mut first);
    let summary = asking::is_summary(&first[..length]);
    match asking::listen_asked(arguments::count(rt), summary) {
        Some(asked) => {
            let listener = Listener {
                rt,
                errors,
                short: asked.summary,
            };
            listener.listen_to(asked.argument);
        }
        None => {
            let _ = errors.write_all(b"listen takes [-s] [FILE]\n");
        }
    }
}

impl<R: Runtime, E: Print> Listener<'_, R, E> {
    // Hears the file that an argument names, or standard input, where it can be opened.
    fn listen_to(&self, argument: Option<usize>) {
        let mut room = [0u8; NAME_ROOM];
        let name = match argument {
            Some(number) => {
                let length = arguments::get(self.rt, number, &mut room);
                &room[..length]
            }
            None => b"-",
        };
        if let Some(input) = files::open(self.rt, self.errors, name, false) {
            self.hear_file(input, name);
        }
    }

    // Hears a file to its end, and writes the summary. A read that fails is said, and is not taken for the end: then no
    // summary is written.
    fn hear_file(&self, mut input: impl Read + Drop, name: &[u8]) {
        let mut now = Listened {
            ear: recording::fresh(),
            bits: 0,
            open: true,
        };
        let mut piece = [0u8; PIECE];
        for _ in 0..u64::MAX {
            let got = input.read(&mut piece);
            match reading::after(Reading::GoOn(0), got, PIECE) {
                Reading::GoOn(length) => now = self.hear(now, &piece[..length]),
                Reading::Ended(_) => {
                    if now.open {
                        let _ = self.write_summary(now.ear);
                    }
                    return;
                }
                Reading::Failed(error) => {
                    files::say_failed(self.errors, name, error);
                    return;
                }
            }
        }
    }

    // Feeds a piece of a recording, from answer to answer, and writes their lines.
    #[tactic(auto, using(crate::proofs::Turns::turns))]
    fn hear(&self, start: Listened, piece: &[u8]) -> Listened
        ensures { result.ear ≡ hear_of start.ear piece.now }
    {
        let mut ear = start.ear;
        let mut open = start.open;
        let mut byte: usize = 0;
        let mut bit: u8 = 0;
        // No `for`: how far a turn goes is what `advance` says.
        while byte < piece.len() {
            let receiver = ear.receiver;
            let taken = receiver.advance(piece, byte, bit);
            open &= self.write_taken(ear, taken, start.bits, open);
            ear = recording::heard(ear, taken);
            byte = taken.byte;
            bit = taken.bit;
        }
        Listened {
            ear,
            bits: recording::bits_after(start.bits, piece.len()),
            open,
        }
    }

    // Writes the lines of what was taken, each by one call, and answers whether both could be written. None is told
    // once one could not.
    fn write_taken(&self, ear: Ear, taken: Advanced, before: u64, open: bool) -> bool {
        let short = self.short || !open;
        let mut group = [0u8; GROUP_ROOM];
        let length = recording::group_line(ear, taken, short, &mut group);
        let mut lock = [0u8; LINE_ROOM];
        let more = recording::lock_line(taken, before, short, &mut lock);
        self.write(&group[..length]).is_ok() & self.write(&lock[..more]).is_ok()
    }

    // Writes the station record and the counts, these only where that was written.
    fn write_summary(&self, ear: Ear) -> io::Result<()> {
        let mut station = [0u8; STATION_ROOM];
        let length = recording::record_lines(ear, &mut station);
        self.write(&station[..length])?;
        let mut counts = [0u8; LINE_ROOM];
        let more = recording::count_lines(ear, &mut counts);
        self.write(&counts[..more])
    }

    // Writes a text to standard output, by one call where that takes it whole. Where that fails it is said.
    fn write(&self, text: &[u8]) -> io::Result<()> {
        files::say_lost(self.errors, self.rt.write_all(text))
    }
}

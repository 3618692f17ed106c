// Runs the edges of the clock and writes a line for each: what is read, what is written, and the local date.
#![tactic(auto)]

use clock::{Clock, OutOfRange, UtcDay};
use std::io;

fn main(rt: HostRuntime) -> io::Result<()> {
    // Words of day 15,078, 15,079, 88,127 and 88,128, each at 00:00 with offset 0.
    read_line(&rt, 0x4000, 0x75CC, 0x0000)?;
    read_line(&rt, 0x4000, 0x75CE, 0x0000)?;
    read_line(&rt, 0x4002, 0xB07E, 0x0000)?;
    read_line(&rt, 0x4002, 0xB080, 0x0000)?;
    // The P line; day 45,218 with offset 24, with offset 25, and with sign 1 and offset 0.
    read_line(&rt, 0x4001, 0x6145, 0x7EEA)?;
    read_line(&rt, 0x4001, 0x6144, 0x0018)?;
    read_line(&rt, 0x4001, 0x6144, 0x0019)?;
    read_line(&rt, 0x4001, 0x6144, 0x0020)?;

    write_line(&rt, 0, at(15078, 0, 0, false, 0))?;
    write_line(&rt, 0, at(15079, 0, 0, false, 0))?;
    write_line(&rt, 31, at(88127, 23, 59, true, 24))?;
    write_line(&rt, 31, at(88128, 23, 59, true, 24))?;
    write_line(&rt, 31, at(88127, 23, 59, true, 25))?;
    write_line(&rt, 32, at(88127, 23, 59, true, 24))?;
    write_line(&rt, 0, at(45218, 0, 0, true, 0))?;

    date_line(&rt, None)?;
    date_line(&rt, Some(at(45218, 23, 59, true, 10)))?;
    date_line(&rt, Some(at(15078, 0, 0, false, 48)))?;
    date_line(&rt, Some(at(15079, 0, 0, false, 0)))?;
    date_line(&rt, Some(at(15079, 0, 0, true, 1)))?;
    date_line(&rt, Some(at(15079, 0, 30, true, 1)))?;
    date_line(&rt, Some(at(88127, 0, 0, false, 0)))?;
    date_line(&rt, Some(at(88127, 23, 29, false, 1)))?;
    date_line(&rt, Some(at(88127, 23, 30, false, 1)))?;
    date_line(&rt, Some(at(88128, 0, 0, true, 48)))?;
    date_line(&rt, Some(at(51603, 12, 0, false, 24)))?;
    date_line(&rt, Some(at(45218, 255, 255, false, 255)))
}

fn at(day: u32, hour: u8, minute: u8, negative: bool, half: u8) -> Clock {
    Clock {
        day: UtcDay(day),
        hour,
        minute,
        negative,
        half,
    }
}

// `read` and the clock's fields, the sign as 1 for negative; or `read nothing`.
fn read_line(rt: &impl Print, word2: u16, word3: u16, word4: u16) -> io::Result<()> {
    match clock::read(word2, word3, word4) {
        Some(at) => {
            let sign = u8::from(at.negative);
            println!(rt;
                "read {} {} {} {sign} {}",
                at.day.0, at.hour, at.minute, at.half
            )
        }
        None => println!(rt; "read nothing"),
    }
}

// `write`, the number of the answer, and the four words.
fn write_line(rt: &impl Print, pty: u8, clock: Clock) -> io::Result<()> {
    match clock::write(0x1001, true, pty, clock) {
        Ok(words) => {
            println!(rt;
                "write 0 {} {} {} {}",
                words[0], words[1], words[2], words[3]
            )
        }
        Err(OutOfRange) => println!(rt; "write 10"),
    }
}

// `date`, the number of the answer, and year, month, day, weekday, hour, minute.
fn date_line(rt: &impl Print, held: Option<Clock>) -> io::Result<()> {
    match clock::local_date(held) {
        Ok(at) => {
            print!(rt; "date 0 {} {} {}", at.year, at.month, at.day)?;
            println!(rt; " {} {} {}", at.weekday, at.hour, at.minute)
        }
        Err(OutOfRange) => println!(rt; "date 10"),
    }
}

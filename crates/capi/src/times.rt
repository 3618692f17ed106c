// The clock of a 4A and the local date: what is answered is one number, field above field.
ghost use Rattle.std.specs.Prelude.{◌≡◌, cond, ◌≤◌};
ghost use Rattle.clock.specs.Words.{read_of, write_of};
ghost use Rattle.clock.specs.Local.{local_date_of};
ghost use Rattle.capi.specs.Times.{clock_of, held_of, held_code, written_code, local_code};

use clock::{Clock, DateTime, OutOfRange, UtcDay};

// The number of the refusal: a caller in C is answered one number, and knows no `Result`.
const REFUSED: u64 = 10;

// What stands above a clock, and above a date.
const CLOCK: u64 = 0x200000000000000;

const DATE: u64 = 0x100000000000000;

// The clock in words 2, 3 and 4 of a 4A.
pub fn bench_read_clock(word2: u16, word3: u16, word4: u16) -> u64
    ensures { result ≡ held_code (read_of word2 word3 word4) }
{
    held_code(clock::read(word2, word3, word4))
}

// The four words of a 4A with this PI, TP, PTY and clock.
pub fn bench_write_clock(
    pi: u16,
    tp: bool,
    pty: u8,
    day: u32,
    hour: u8,
    minute: u8,
    negative: bool,
    half: u8,
) -> u64
    ensures { result ≡ written_code (write_of pi tp pty (clock_of day hour minute negative half)) }
{
    written_code(clock::write(pi, tp, pty, clock_of(day, hour, minute, negative, half)))
}

// The local date and time of a clock, where one is held.
pub fn bench_local_date(held: bool, day: u32, hour: u8, minute: u8, negative: bool, half: u8) -> u64
    ensures { result ≡ local_code (local_date_of (held_of held (clock_of day hour minute negative half))) }
{
    let clock = clock_of(day, hour, minute, negative, half);
    local_code(clock::local_date(held.then_some(clock)))
}

// The clock whose fields a caller in C passes one by one.
fn clock_of(day: u32, hour: u8, minute: u8, negative: bool, half: u8) -> Clock
    ensures { result ≡ clock_of day hour minute negative half }
{
    Clock {
        day: UtcDay(day),
        hour,
        minute,
        negative,
        half,
    }
}

pub fn held_code(held: Option<Clock>) -> u64
    ensures { result ≡ held_code held }
{
    match held {
        Some(clock) => {
            CLOCK
                + u64::from(clock.day.0) * 0x2000000
                + u64::from(clock.hour) * 0x20000
                + u64::from(clock.minute) * 0x200
                + u64::from(clock.negative) * 0x100
                + u64::from(clock.half)
        }
        None => 0,
    }
}

fn written_code(written: Result<[u16; 4], OutOfRange>) -> u64
    ensures { result ≡ written_code written }
{
    match written {
        Ok(words) => {
            u64::from(words[0]) * 0x1000000000000
                + u64::from(words[1]) * 0x100000000
                + u64::from(words[2]) * 0x10000
                + u64::from(words[3])
        }
        Err(OutOfRange) => REFUSED,
    }
}

pub fn local_code(local: Result<DateTime, OutOfRange>) -> u64
    ensures { result ≡ local_code local }
{
    match local {
        Ok(at) => {
            DATE + u64::from(at.year) * 0x10000000000
                + u64::from(at.month) * 0x100000000
                + u64::from(at.day) * 0x1000000
                + u64::from(at.weekday) * 0x10000
                + u64::from(at.hour) * 0x100
                + u64::from(at.minute)
        }
        Err(OutOfRange) => REFUSED,
    }
}

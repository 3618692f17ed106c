// The clock that a 4A group carries: read from its words, written as its words, and turned into the local date and
// time. Refused, with number 10: to write what is out of range, and the date where a day is out of range or no clock
// is held.
#![tactic(auto)]

ghost use Rattle.std.specs.Prelude.{◌≡◌, ◌+◌, ◌-◌, ◌^◌, ◌≤◌, ◌<◌, cond, []};
ghost use Rattle.clock.specs.Range.{InDays, InRange, in_range, last_pty};
ghost use Rattle.clock.specs.Words.{clock_in, read_of, number_of_held, values_of_held, clock_values};
ghost use Rattle.clock.specs.Words.{write_of, number_of_written, values_of_written};
ghost use Rattle.clock.specs.Words.{write_refused, words_of};
ghost use Rattle.clock.specs.Local.{local_date_of, local_time_of, date_time_of, minutes_a_day};
ghost use Rattle.clock.specs.Local.{date_refused, date_values, number_of_local, values_of_local};

mod calendar;
mod range;

use calendar::CalendarDate;

// The day number changes at UTC midnight, not at local midnight: two types, and only `local_time` leads from the one
// to the other.
#[derive(Clone, Copy)]
pub struct UtcDay(pub u32);

#[derive(Clone, Copy)]
pub struct LocalDay(pub u32);

// A moment in UTC, and the local offset in half hours with its sign.
#[derive(Clone, Copy)]
pub struct Clock {
    pub day: UtcDay,
    pub hour: u8,
    pub minute: u8,
    pub negative: bool,
    pub half: u8,
}

// Refused, with number 10.
#[derive(Clone, Copy, PartialEq, Eq, Debug)]
pub struct OutOfRange;

// A local date and time; Monday is weekday 1.
#[derive(Clone, Copy)]
pub struct DateTime {
    pub year: u16,
    pub month: u8,
    pub day: u8,
    pub weekday: u8,
    pub hour: u8,
    pub minute: u8,
}

// A local day and the minutes since its midnight.
#[derive(Clone, Copy)]
struct LocalTime {
    day: LocalDay,
    minutes: u32,
}

// Places of the fields in the words of a 4A, as the value of each field's lowest bit.
const TYPE_4A: u16 = 0x4000;

const TP_AT: u16 = 1024;

const PTY_AT: u16 = 32;

const HOUR_AT: u16 = 4096;

const MINUTE_AT: u16 = 64;

const SIGN_AT: u16 = 32;

// What of the day lies in word 2, of the hour in word 3, and the minute's size.
const DAY_HIGH: u32 = 32768;

const HOUR_HIGH: u16 = 16;

const MINUTE_SIZE: u16 = 64;

const MINUTES_A_DAY: u32 = 1440;

const MINUTES_AN_HOUR: u32 = 60;

const MINUTES_A_HALF: u32 = 30;

// The clock in words 2, 3 and 4 of a 4A, if it is in range.
#[tactic(auto, unfolding(crate::specs::Words::read_of))]
pub fn read(word2: u16, word3: u16, word4: u16) -> Option<Clock>
    ensures { (result ≡ read_of word2 word3 word4) × (number_of_held result ≡ 0)
        × (values_of_held result
        ≡ cond (in_range (clock_in word2 word3 word4)) (clock_values (clock_in word2 word3 word4)) []) }
{
    let clock = clock_in(word2, word3, word4);
    range::in_range(clock).then_some(clock)
}

#[tactic(auto, unfolding(crate::specs::Words::clock_in))]
fn clock_in(word2: u16, word3: u16, word4: u16) -> Clock
    ensures { result ≡ clock_in word2 word3 word4 }
{
    let half = (word4 % SIGN_AT) as u8;
    Clock {
        day: UtcDay(u32::from(word2 % 4) * DAY_HIGH + u32::from(word3 / 2)),
        hour: ((word3 % 2) * HOUR_HIGH + word4 / HOUR_AT) as u8,
        minute: (word4 / MINUTE_AT % MINUTE_SIZE) as u8,
        negative: word4 / SIGN_AT % 2 == 1 && half != 0,
        half,
    }
}

// The four words of a 4A with this PI, TP, PTY and clock.
pub fn write(pi: u16, tp: bool, pty: u8, clock: Clock) -> Result<[u16; 4], OutOfRange>
    ensures { (result ≡ write_of pi tp pty clock) × (number_of_written result ≡ cond (write_refused pty clock) 10 0)
        × (values_of_written result ≡ cond (write_refused pty clock) [] (words_of pi tp pty clock)) }
{
    if range::LAST_PTY < pty || !range::in_range(clock) {
        return Err(OutOfRange);
    }
    Ok(words(pi, tp, pty, clock))
}

// The four words, of a clock and a PTY in range.
fn words(pi: u16, tp: bool, pty: u8, clock: Clock) -> [u16; 4]
    requires { InRange clock × (pty ≤ last_pty) }
    ensures { result ≡ words_of pi tp pty clock }
{
    let day = clock.day.0;
    let hour = u16::from(clock.hour);
    let sign = u16::from(clock.negative && clock.half != 0);
    [
        pi,
        TYPE_4A + u16::from(tp) * TP_AT + u16::from(pty) * PTY_AT + (day / DAY_HIGH) as u16,
        (day % DAY_HIGH) as u16 * 2 + hour / HOUR_HIGH,
        hour % HOUR_HIGH * HOUR_AT
            + u16::from(clock.minute) * MINUTE_AT
            + sign * SIGN_AT
            + u16::from(clock.half),
    ]
}

// The local date and time of the clock that is held.
pub fn local_date(held: Option<Clock>) -> Result<DateTime, OutOfRange>
    ensures { (result ≡ local_date_of held) × (number_of_local result ≡ cond (date_refused held) 10 0)
        × (values_of_local result ≡ cond (date_refused held) [] (date_values held)) }
{
    let clock = held.ok_or(OutOfRange)?;
    if !range::in_days(clock.day.0) {
        return Err(OutOfRange);
    }
    let local = local_time(clock);
    if !range::in_days(local.day.0) {
        return Err(OutOfRange);
    }
    let date = calendar::date(local.day);
    let weekday = calendar::weekday(local.day);
    Ok(date_time(date, weekday, local.minutes))
}

// The offset rule: the only way from a UTC day to a local day.
#[tactic(auto, unfolding(crate::specs::Local::local_time_of, crate::specs::Local::local_minutes))]
fn local_time(clock: Clock) -> LocalTime
    requires { InDays clock.day.0 }
    ensures { result ≡ local_time_of clock }
{
    let utc = clock.day.0 * MINUTES_A_DAY
        + u32::from(clock.hour) * MINUTES_AN_HOUR
        + u32::from(clock.minute);
    let local = shifted(utc, clock.negative, u32::from(clock.half) * MINUTES_A_HALF);
    LocalTime {
        day: LocalDay(local / MINUTES_A_DAY),
        minutes: local % MINUTES_A_DAY,
    }
}

// Minutes, with the offset added or, where it is negative, taken away.
fn shifted(minutes: u32, negative: bool, offset: u32) -> u32
    requires { (offset ≤ minutes) × (minutes + offset < 2 ^ 32) }
    ensures { result ≡ cond negative (minutes - offset) (minutes + offset) }
{
    if negative {
        minutes - offset
    } else {
        minutes + offset
    }
}

#[tactic(auto, unfolding(crate::specs::Local::date_time_of))]
fn date_time(date: CalendarDate, weekday: u8, minutes: u32) -> DateTime
    requires { minutes < minutes_a_day }
    ensures { result ≡ date_time_of date weekday minutes }
{
    DateTime {
        year: date.year,
        month: date.month,
        day: date.day,
        weekday,
        hour: (minutes / MINUTES_AN_HOUR) as u8,
        minute: (minutes % MINUTES_AN_HOUR) as u8,
    }
}

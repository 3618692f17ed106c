// A station record in lines on standard output: a line for each of its parts.
use clock::{Clock, DateTime, OutOfRange};
use frequencies::AfList;
use station::{Record, read};
use std::io;

fn write_pi(rt: &impl Print, number: usize, pi: Option<u16>) -> io::Result<()> {
    match pi {
        Some(word) => println!(rt; "stream {number} pi {word:04x}"),
        None => println!(rt; "stream {number} pi none"),
    }
}

// The characters, each in two digits, and the marks of their pairs.
fn write_shown(rt: &impl Print, label: &str, characters: &[u8], seen: &[bool]) -> io::Result<()> {
    print!(rt; "{label} ")?;
    for character in characters {
        print!(rt; "{character:02x}")?;
    }
    print!(rt; " ")?;
    for mark in seen {
        print!(rt; "{}", u8::from(*mark))?;
    }
    println!(rt; "")
}

fn write_flag(rt: &impl Print, flag: Option<bool>) -> io::Result<()> {
    match flag {
        Some(held) => println!(rt; "flag {}", u8::from(held)),
        None => println!(rt; "flag none"),
    }
}

fn write_af(rt: &impl Print, list: AfList) -> io::Result<()> {
    let held = frequencies::held(list);
    print!(rt; "af held {held} of {}", frequencies::expected(list))?;
    for i in 0..usize::from(held) {
        print!(rt; " {}", frequencies::at(list, i))?;
    }
    println!(rt; "")
}

// Day, hour, minute, sign (1 negative) and half hours.
fn write_clock(rt: &impl Print, held: Option<Clock>) -> io::Result<()> {
    match held {
        Some(at) => {
            let sign = u8::from(at.negative);
            println!(rt;
                "clock {} {} {} {sign} {}",
                at.day.0, at.hour, at.minute, at.half
            )
        }
        None => println!(rt; "clock none"),
    }
}

// The local date and time; none where it is refused as answer 10.
fn write_date(rt: &impl Print, local: Result<DateTime, OutOfRange>) -> io::Result<()> {
    match local {
        Ok(at) => {
            print!(rt; "date {} {} {}", at.year, at.month, at.day)?;
            println!(rt; " weekday {} {}:{}", at.weekday, at.hour, at.minute)
        }
        Err(OutOfRange) => println!(rt; "date none"),
    }
}

pub(crate) fn write_record(rt: &impl Print, number: usize, station: Record) -> io::Result<()> {
    write_pi(rt, number, read::pi(station))?;
    println!(rt;
        "pty {} tp {}",
        read::pty(station),
        u8::from(read::tp(station))
    )?;
    write_shown(
        rt,
        "name",
        &read::name_characters(station),
        &read::name_seen(station),
    )?;
    write_shown(
        rt,
        "text",
        &read::text_characters(station),
        &read::text_seen(station),
    )?;
    write_flag(rt, read::text_flag(station))?;
    write_af(rt, read::af_list(station))?;
    write_clock(rt, read::held_clock(station))?;
    write_date(rt, read::local_date(station))
}

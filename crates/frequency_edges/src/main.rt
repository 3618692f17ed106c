// Runs the edges of AF codes and kHz, the AF lists of source document 000 (methods A and B) and lists at their limits,
// and writes a line for each.
#![tactic(auto)]

use frequencies::{AfList, NoCode, NoFrequency};
use std::io;

// The codes and the kHz at and beside each limit.
const CODES: [u8; 8] = [0, 1, 18, 204, 205, 224, 250, 255];

const KHZ: [u32; 10] = [
    0,
    87_500,
    87_599,
    87_600,
    87_601,
    89_350,
    107_900,
    107_901,
    108_000,
    4_294_967_295,
];

// The frequency of a code, or answer 11.
fn write_frequency(rt: &impl Print, code: u8) -> io::Result<()> {
    match frequencies::frequency(code) {
        Ok(khz) => println!(rt; "code {code} khz {khz}"),
        Err(NoFrequency) => println!(rt; "code {code} answer 11"),
    }
}

// The code of a frequency, or answer 11.
fn write_code(rt: &impl Print, khz: u32) -> io::Result<()> {
    match frequencies::code(khz) {
        Ok(code) => println!(rt; "khz {khz} code {code}"),
        Err(NoCode) => println!(rt; "khz {khz} answer 11"),
    }
}

// The list that words give, one after the other.
fn list_of(words: &[u16]) -> AfList {
    let mut list = frequencies::empty();
    for word in words {
        list = frequencies::taken(list, *word);
    }
    list
}

// What a list holds and expects, its frequencies, and what is read past them.
fn write_list(rt: &impl Print, label: &str, words: &[u16]) -> io::Result<()> {
    let list = list_of(words);
    let held = frequencies::held(list);
    print!(rt; "{label}: held {held} of {}", frequencies::expected(list))?;
    for i in 0..usize::from(held) {
        print!(rt; " {}", frequencies::at(list, i))?;
    }
    println!(rt; " then {}", frequencies::at(list, usize::from(held)))
}

fn codes(rt: &impl Print) -> io::Result<()> {
    for code in CODES {
        write_frequency(rt, code)?;
    }
    for khz in KHZ {
        write_code(rt, khz)?;
    }
    Ok(())
}

// The examples of source document 000, 6.2.1.6.3 and 6.2.1.6.4.
fn source_lists(rt: &impl Print) -> io::Result<()> {
    write_list(rt, "method A, example A", &[0xE501, 0x0203, 0x0405])?;
    write_list(rt, "method A, example B", &[0xE401, 0x0203, 0x04CD])?;
    write_list(rt, "method A, example C", &[0xE401, 0x0203, 0xFA04])?;
    write_list(
        rt,
        "method B, example A",
        &[0xEB12, 0x128E, 0x0E12, 0x1296, 0x7812, 0x1210],
    )?;
    write_list(
        rt,
        "method B, example B",
        &[0xE978, 0x1278, 0x8678, 0x78AC, 0x7810],
    )
}

fn limits(rt: &impl Print) -> io::Result<()> {
    write_list(rt, "no word", &[])?;
    write_list(rt, "no count code", &[0x0102, 0xCD03])?;
    write_list(rt, "encoder's word", &[0xE0CD])?;
    write_list(rt, "none expected", &[0xE001, 0x0203])?;
    write_list(rt, "emptied by 224", &[0xE201, 0x02E0, 0x0304])?;
    write_list(rt, "count again", &[0xE201, 0x02E3, 0x0304])?;
    write_list(
        rt,
        "codes of no change",
        &[0xE201, 0x00CD, 0xDFFA, 0xFFFF, 0x0002],
    )?;
    write_list(rt, "duplicate, then new", &[0xE201, 0x0101, 0x02CD])?;
    write_list(rt, "one more than expected", &[0xE101, 0x0203])?;
    write_list(
        rt,
        "25 and more",
        &[
            0xF901, 0x0203, 0x0405, 0x0607, 0x0809, 0x0A0B, 0x0C0D, 0x0E0F, 0x1011, 0x1213, 0x1415,
            0x1617, 0x1819, 0x1A1B,
        ],
    )
}

fn main(rt: HostRuntime) -> io::Result<()> {
    codes(&rt)?;
    source_lists(&rt)?;
    limits(&rt)
}

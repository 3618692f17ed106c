// Runs the worked examples of blocks and writes a line for each: the five offsets, checks of some words, the words of source
// document 001, B.1, blocks of 26 bits and over, and the patterns of three bits that a valid block does not show.
#![tactic(auto)]

use blocks::{Block, Kind, TooLong};
use std::io;

// The kinds, in order.
const KINDS: [Kind; 5] = [Kind::A, Kind::B, Kind::C, Kind::CPrime, Kind::D];

// Words whose checks are written.
const WORDS: [u16; 5] = [0x0001, 0xFFFF, 0x0000, 0x1234, 0x54A8];

// Numbers that are read as blocks; the last two have more than 26 bits.
const READ: [u32; 8] = [
    0x0000198, 0x0000000, 0x0000145, 0x0000545, 0x3FFFC31, 0x3FFFFFF, 0x4000000, 0xFFFFFFFF,
];

// Bits of a block.
const BLOCK_BITS: u32 = 26;

// The refusal's number in the table of answers.
const REFUSED: u8 = 12;

fn write_offsets(rt: &impl Print) -> io::Result<()> {
    print!(rt; "offsets")?;
    for kind in KINDS {
        print!(rt; " {:03x}", blocks::offset(kind))?;
    }
    println!(rt)
}

// The checks of a word as A, B, C, C' and D.
fn write_checks(rt: &impl Print, word: u16) -> io::Result<()> {
    print!(rt; "checks of {word:04x}:")?;
    for kind in KINDS {
        print!(rt; " {:03x}", blocks::check(word, kind))?;
    }
    println!(rt)
}

// The word, and the offset of the kind, that was read.
fn write_read(rt: &impl Print, bits: u32) -> io::Result<()> {
    print!(rt; "read {bits:07x}: ")?;
    match blocks::read(bits) {
        Ok(Some(Block { word, kind })) => println!(rt;
            "word {word:04x} offset {:03x}",
            blocks::offset(kind)
        ),
        Ok(None) => println!(rt; "none"),
        Err(TooLong) => println!(rt; "answer {REFUSED}"),
    }
}

// A bit turned, by its place from the lowest.
fn turned_at(place: u32) -> u32 {
    1u32.wrapping_shl(place)
}

// The patterns of three bits that a valid block does not show: two of them are given, and the third is below.
fn write_third(rt: &impl Print, two: u32, below: u32) -> io::Result<()> {
    let valid = blocks::write(0x1234, Kind::C);
    for third in 0..below {
        let turned = two | turned_at(third);
        if blocks::judge(valid ^ turned, Kind::C).is_ok() {
            println!(rt; "three bits {turned:07x}")?;
        }
    }
    Ok(())
}

// Those of which one is given, and the others are below it.
fn write_second(rt: &impl Print, first: u32) -> io::Result<()> {
    for second in 0..first {
        write_third(rt, turned_at(first) | turned_at(second), second)?;
    }
    Ok(())
}

fn main(rt: HostRuntime) -> io::Result<()> {
    write_offsets(&rt)?;
    for word in WORDS {
        write_checks(&rt, word)?;
    }
    for bits in READ {
        write_read(&rt, bits)?;
    }
    for first in 0..BLOCK_BITS {
        write_second(&rt, first)?;
    }
    Ok(())
}

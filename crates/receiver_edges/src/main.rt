// Feeds the streams on standard input, each to a fresh receiver, and writes a line for each answer and for each end.
// A stream is its length in bytes (three bytes, high first) and the bytes, first bit highest. A stream that is not
// whole is left out.
#![tactic(auto)]

use groups::Group;
use receiver::{Advanced, Answer, Receiver};
use std::io;
use std::io::Read;

// The most that is read of the streams, and how many are run.
const ROOM: usize = 300000;

const STREAMS: usize = 2000;

fn write_group(rt: &impl Print, group: Group) -> io::Result<()> {
    print!(rt; " group")?;
    for word in group.words {
        print!(rt; " {word:04x}")?;
    }
    print!(rt; " good ")?;
    for good in group.good {
        print!(rt; "{}", u8::from(good))?;
    }
    Ok(())
}

fn write_answer(rt: &impl Print, answer: Answer) -> io::Result<()> {
    match answer {
        Answer::Nothing => print!(rt; " nothing"),
        Answer::Locked => print!(rt; " locked"),
        Answer::Group(group) => write_group(rt, group),
        Answer::Lost => print!(rt; " lost"),
        Answer::GroupAndLost(group) => {
            write_group(rt, group)?;
            print!(rt; " lost")
        }
        Answer::Refused => print!(rt; " refused"),
    }
}

// The answer, and the number of the bit in front of the place; 0 where there is none.
fn write_line(rt: &impl Print, number: usize, came: Advanced) -> io::Result<()> {
    let bits = came
        .byte
        .saturating_mul(8)
        .saturating_add(usize::from(came.bit));
    print!(rt; "stream {number} bit {}", bits.saturating_sub(1))?;
    write_answer(rt, came.answer)?;
    println!(rt)
}

// Feeds a stream whole. It has fewer answers than bytes: they lie 26 bits apart at least.
fn run_stream(rt: &impl Print, stream: &[u8], number: usize) -> io::Result<()> {
    let mut state = Receiver::new();
    let mut byte: usize = 0;
    let mut bit: u8 = 0;
    for _ in 0..stream.len() {
        let came = state.advance(stream, byte, bit);
        if came.answer == Answer::Nothing {
            break;
        }
        write_line(rt, number, came)?;
        state = came.next;
        byte = came.byte;
        bit = came.bit;
    }
    println!(rt; "stream {number} end")
}

// The stream at the front of some bytes, and what is behind it; none where it is not whole.
fn split(input: &[u8]) -> Option<(&[u8], &[u8])> {
    let [high, middle, low, behind @ ..] = input else {
        return None;
    };
    let length = u32::from_be_bytes([0, *high, *middle, *low]);
    behind.split_at_checked(length as usize)
}

fn run_streams(rt: &impl Print, input: &[u8]) -> io::Result<()> {
    let mut rest = input;
    for number in 0..STREAMS {
        let Some((stream, behind)) = split(rest) else {
            break;
        };
        run_stream(rt, stream, number)?;
        rest = behind;
    }
    Ok(())
}

fn main(rt: HostRuntime) -> io::Result<()> {
    let mut input = [0u8; ROOM];
    let mut rest: &mut [u8] = &mut input;
    io::copy(&mut rt.reader().take(ROOM as u64), &mut rest)?;
    let length = ROOM.saturating_sub(rest.len());
    run_streams(&rt, &input[..length])
}

// Takes the streams of groups on standard input, one after the other, each into a fresh station record, and writes the
// record at the end of each. A stream is the number of its groups (two bytes, high first) and nine bytes for each: four
// words, high byte first, and a byte whose low four bits say which words were good, bit 3 for word 1.
#![tactic(auto)]

ghost use Rattle.std.specs.Prelude.{◌≡◌, length};

mod lines;

use blocks::{BlockError, Judged};
use groups::Group;
use station::Record;
use std::io;
use std::io::Read;

// The most that is read of the streams.
const ROOM: usize = 100000;

// The most streams that are taken.
const MOST: usize = 1000;

// The bytes of a group.
const GROUP_SIZE: usize = 9;

// The word of two bytes, high first.
fn pair(high: u8, low: u8) -> u16 {
    u16::from_be_bytes([high, low])
}

// A block with the word of two bytes, good where the mark's last bit is 1.
fn judged(mark: u8, high: u8, low: u8) -> Judged {
    if mark % 2 == 1 {
        Ok(pair(high, low))
    } else {
        Err(BlockError::Bad)
    }
}

// The group in nine bytes.
fn group_in(bytes: &[u8]) -> Group
    requires { length bytes.now ≡ 9 }
{
    let mask = bytes[8];
    let first = judged(mask / 8, bytes[0], bytes[1]);
    let second = judged(mask / 4, bytes[2], bytes[3]);
    let third = judged(mask / 2, bytes[4], bytes[5]);
    let fourth = judged(mask, bytes[6], bytes[7]);
    let half = groups::with_block(groups::with_block(groups::empty(), 0, first), 1, second);
    groups::with_block(groups::with_block(half, 2, third), 3, fourth)
}

// The record of the groups in some bytes.
fn record_of(bytes: &[u8]) -> Record {
    let mut station = station::fresh();
    for group in bytes.chunks_exact(GROUP_SIZE) {
        station = station::taken(station, group_in(group));
    }
    station
}

// The groups of the first stream in some bytes, and what comes after it; none where it is not whole.
fn first_stream(bytes: &[u8]) -> Option<(&[u8], &[u8])> {
    let (count, rest) = bytes.split_first_chunk::<2>()?;
    rest.split_at_checked(GROUP_SIZE * usize::from(pair(count[0], count[1])))
}

fn run_streams(rt: &impl Print, input: &[u8]) -> io::Result<()> {
    let mut rest = input;
    for number in 0..MOST {
        let Some((groups, after)) = first_stream(rest) else {
            return Ok(());
        };
        lines::write_record(rt, number, record_of(groups))?;
        rest = after;
    }
    Ok(())
}

fn main(rt: HostRuntime) -> io::Result<()> {
    let mut input = [0u8; ROOM];
    let mut rest: &mut [u8] = &mut input;
    io::copy(&mut rt.reader().take(ROOM as u64), &mut rest)?;
    let length = ROOM.saturating_sub(rest.len());
    run_streams(&rt, &input[..length])
}

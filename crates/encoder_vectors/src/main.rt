// Encodes two keys whose groups are known into a buffer with one byte to spare, and the first once more into a buffer
// that is one byte too short. Writes the answer and then the whole buffer in hex, 13 bytes a line.
#![tactic(auto)]

use encoder::EncodeError;
use std::io;

// Stands in every byte of a buffer before it is written.
const UNWRITTEN: u8 = 0xEE;

// Bytes in a line.
const LINE: usize = 13;

fn main(rt: HostRuntime) -> io::Result<()> {
    let first = sheet([0x10, 0x01, 0, 0], b"ABCDEFGH");
    let second = sheet([0xD3, 0xC2, 10, 1], b"RADIO-UM");
    write_encoded(&rt, &first, &mut [UNWRITTEN; 53])?;
    write_encoded(&rt, &second, &mut [UNWRITTEN; 53])?;
    write_encoded(&rt, &first, &mut [UNWRITTEN; 51])
}

// A sheet of one key, without text: PI, PTY and flags, and then the name.
fn sheet(head: [u8; 4], name: &[u8; 8]) -> [u8; 80] {
    let mut key = [0u8; 80];
    key[..4].copy_from_slice(&head);
    key[4..12].copy_from_slice(name);
    key
}

// The answer's number, with the bytes written, and then the buffer.
fn write_encoded(rt: &impl Print, sheet: &[u8], out: &mut [u8]) -> io::Result<()> {
    match encoder::encode(sheet, 0, out) {
        Ok(count) => println!(rt; "answer 0 bytes {count}")?,
        Err(EncodeError::NoKey) => println!(rt; "answer 1")?,
        Err(EncodeError::BadKey) => println!(rt; "answer 2")?,
        Err(EncodeError::TooShort) => println!(rt; "answer 8")?,
    }
    write_hex(rt, out)
}

// Bytes in hex, 13 to a line. A line is one number, for which 128 bits are enough, and goes out by one call.
fn write_hex(rt: &impl Print, bytes: &[u8]) -> io::Result<()> {
    for line in bytes.chunks(LINE) {
        let digits = 2 * line.len();
        let number = line
            .iter()
            .fold(0u128, |high, byte| high << 8 | u128::from(*byte));
        println!(rt; "{number:0digits$X}")?;
    }
    Ok(())
}

// What is said of a call that failed.
use std::io::{Cursor, Error, Print, Write};

// Room for the text of an error, and what stands in front of its number.
const TEXT_ROOM: usize = 256;

const NUMBER: &str = " (os error ";

// A line on standard error: what failed, a colon, and why.
pub(crate) fn fail(errors: &impl Print, what: &[u8], error: Error) {
    let mut out = Cursor::new([0u8; TEXT_ROOM]);
    let _ = write!(out, "{error}");
    let text = out.into_inner();
    say(errors, what);
    say(errors, b": ");
    say(errors, why(&text).as_bytes());
    say(errors, b"\n");
}

// The text of an error without its number, and without the zeros behind it.
fn why(text: &[u8]) -> &str {
    let all = str::from_utf8(text).unwrap_or("");
    let worded = all.trim_end_matches('\0');
    worded.split_once(NUMBER).map_or(worded, |(words, _)| words)
}

// A failure to say what failed is not said.
fn say(errors: &impl Print, words: &[u8]) {
    let _ = errors.write_all(words);
}

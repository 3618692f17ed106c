// Files and standard streams: opens and reads, and says on standard error what failed. It only moves bytes: what is
// read is given as so many bytes of a buffer, and a file that cannot be opened or read to its end counts as no bytes.
// `rt` is what a program runs on, and `errors` its standard error.
#![tactic(auto)]

ghost use Rattle.std.specs.Prelude.{◌≡◌, length, true};
ghost use Rattle.asking.specs.declared.reading.Reading.TheVariants.{GoOn};
ghost use Rattle.asking.specs.Reading.{there_of};
ghost use Rattle.asking.specs.Words.{is_standard};
ghost use Rattle.io.specs.Counts.{IsPrefixLen};
ghost use Rattle.files.specs.Input.{OpensStandard};

pub mod arguments;
mod failing;
pub mod input;

use asking::reading;
use asking::reading::Reading;
use failing::fail;
use input::Source;
use std::io::{Error, ErrorKind, Input, Print, Read};
use std::rt::Files;
use std::{fs, io};

// Reads until the buffer is full, the input ends or a call fails, and answers which, with the bytes that are there, or
// why the call failed. Nothing has failed before the first call.
#[tactic(auto, using(asking::proofs::Calls::turns))]
pub fn fill(input: &mut impl Read, buffer: &mut [u8]) -> Reading
    ensures within { IsPrefixLen (there_of result) buffer.new }
    ensures fresh { length buffer.new ≡ 0 → result ≡ GoOn 0 }
{
    let mut reading = Reading::GoOn(0);
    while reading::goes_on(reading, buffer.len()) {
        let there = reading::there(reading);
        let got = input.read(&mut buffer[there..]);
        reading = reading::after(reading, got, buffer.len());
    }
    reading
}

// Opens a file for reading, `-` being standard input. Where that fails it is said, but for a file that may be absent
// and is.
pub fn open<R: Files + Input>(
    rt: &R,
    errors: &impl Print,
    name: &[u8],
    may_be_absent: bool,
) -> Option<Source<R::Reader, R::File>>
    ensures { is_standard name.now ≡ true → OpensStandard result }
{
    if asking::is_standard(name) {
        return Some(Source::Standard(rt.reader()));
    }
    match open_file(rt, name) {
        Ok(file) => Some(Source::File(file)),
        Err(error) => {
            if error.kind() != ErrorKind::NotFound || !may_be_absent {
                fail(errors, name, error);
            }
            None
        }
    }
}

// Reads a file into a buffer, at most as much as it holds; one that cannot be read, also midway, has length 0. The
// answer is a number, and no slice of the buffer: the promise speaks of the buffer at exit, which a slice would take
// along.
pub fn read_file(
    rt: &(impl Files + Input),
    errors: &impl Print,
    name: &[u8],
    may_be_absent: bool,
    buffer: &mut [u8],
) -> usize
    ensures { IsPrefixLen result buffer.new }
{
    let Some(mut input) = open(rt, errors, name, may_be_absent) else {
        return 0;
    };
    let reading = fill(&mut input, buffer);
    if let Reading::Failed(error) = reading {
        say_failed(errors, name, error);
    }
    reading::there(reading)
}

// Says why a call on a file failed, by the file's name.
pub fn say_failed(errors: &impl Print, name: &[u8], error: Error) {
    if asking::is_standard(name) {
        fail(errors, b"standard input", error);
    } else {
        fail(errors, name, error);
    }
}

// Says why a write to standard output has failed, where it has, and hands on what it answered.
pub fn say_lost(errors: &impl Print, written: io::Result<()>) -> io::Result<()>
    ensures { result ≡ written }
{
    written.inspect_err(|error| fail(errors, b"standard output", *error))
}

// Opens a file by its name, which is to be text.
fn open_file<R: Files>(rt: &R, name: &[u8]) -> io::Result<R::File> {
    let path = str::from_utf8(name).map_err(|_| Error::from(ErrorKind::InvalidFilename))?;
    fs::open(rt, path)
}

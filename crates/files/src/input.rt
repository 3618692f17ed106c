// What is open for reading.
ghost use Rattle.files.specs.Input.{remaining_of};

use std::io;
use std::io::Read;

// Standard input, or a file.
#[derive(Drop)]
pub enum Source<S, F> {
    Standard(S),
    File(F),
}

impl<S: Read, F: Read> Read for Source<S, F> {
    ghost remaining = { remaining_of S.remaining F.remaining };

    fn read(&mut self, buffer: &mut [u8]) -> io::Result<usize> {
        match self {
            Source::Standard(input) => input.read(buffer),
            Source::File(file) => file.read(buffer),
        }
    }
}

// The program's arguments, as bytes.
ghost use Rattle.io.specs.Counts.{IsPrefixLen};

use std::env::{Env, FillError};

// Room for a name that can be opened.
pub const NAME_ROOM: usize = 4096;

// How many arguments there are, the program's own name among them.
pub fn count(rt: &impl Env) -> usize {
    (0..usize::MAX)
        .take_while(|number| !matches!(rt.arg(*number, &mut []), Err(FillError::NotPresent)))
        .count()
}

// Puts an argument at the start of a buffer, and answers how many bytes it has; 0 where there is none, or where it is
// longer than the buffer.
pub fn get(rt: &impl Env, number: usize, buffer: &mut [u8]) -> usize
    ensures { IsPrefixLen result buffer.new }
{
    rt.arg(number, buffer).unwrap_or(0)
}

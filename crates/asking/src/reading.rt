// Reading an input, call by call: the state goes from call to call by value, and says how much is there and whether to
// go on.
ghost use Rattle.std.specs.Prelude.{◌≡◌};
ghost use Rattle.asking.specs.Reading.{called_of, after_of, there_of, goes_on_of, failed_of};

use std::io;
use std::io::Error;

// So many bytes are there and there may be more; the input has ended; or a call failed, and why. These are states, and
// no `Result`: an end or a failure stays whatever a later call answers (`after_of`).
#[derive(Clone, Copy)]
pub enum Reading {
    GoOn(usize),
    Ended(usize),
    Failed(Error),
}

// After a call that read behind the bytes that were there, into a buffer with so much room in all.
#[tactic(auto, unfolding(crate::specs::Reading::after_of))]
pub fn after(reading: Reading, got: io::Result<usize>, room: usize) -> Reading
    ensures { result ≡ after_of reading got room }
{
    match reading {
        Reading::GoOn(there) => called(there, got, room),
        stopped => stopped,
    }
}

// How many bytes are there; none where a call failed.
pub fn there(reading: Reading) -> usize
    ensures { result ≡ there_of reading }
{
    match reading {
        Reading::GoOn(there) | Reading::Ended(there) => there,
        Reading::Failed(_) => 0,
    }
}

// Whether there is room for more and there may be more.
pub fn goes_on(reading: Reading, room: usize) -> bool
    ensures { result ≡ goes_on_of reading room }
{
    match reading {
        Reading::GoOn(there) => there < room,
        Reading::Ended(_) | Reading::Failed(_) => false,
    }
}

// Whether a call failed.
pub fn failed(reading: Reading) -> bool
    ensures { result ≡ failed_of reading }
{
    matches!(reading, Reading::Failed(_))
}

// After a call, where so many bytes were there.
#[tactic(auto, unfolding(crate::specs::Reading::called_of))]
fn called(there: usize, got: io::Result<usize>, room: usize) -> Reading
    ensures { result ≡ called_of there got room }
{
    match got {
        Ok(0) => Reading::Ended(there),
        Ok(more) => Reading::GoOn(there.saturating_add(more).min(room)),
        Err(error) => Reading::Failed(error),
    }
}

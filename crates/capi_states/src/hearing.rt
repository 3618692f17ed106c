// The receiver: its state is bytes that the caller keeps, and what it answers is told in a second buffer.
// Refused, with number 8: a buffer that is too short; with number 9: a bit neither 0 nor 1. Both are then as they were.
ghost use Rattle.std.specs.Prelude.{◌≡◌, ◌++◌, ◌≤◌, length, drop};
ghost use Rattle.receiver.specs.Machine.{fresh_of, step_of};
ghost use Rattle.receiver.specs.Feeding.{advance_of};
ghost use Rattle.saving.specs.Saving.{save_of, saved_number, buffer_of, restore_of};
ghost use Rattle.capi_states.specs.Hearing.{answer_code, told_size, told_of, no_room, bit_refused};
ghost use Rattle.capi_states.specs.Hearing.{state_after, told_after, place_after, stepped_state, stepped_told};

use groups::bytes::TooShort;
use receiver::{Answer, Receiver};

// The bytes of a state, and of what is told.
const STATE_SIZE: usize = 25;

const TOLD_SIZE: usize = 14;

// The numbers of the refusals.
const TOO_SHORT: u8 = 8;

const NO_BIT: u8 = 9;

// The state before any bit.
pub fn bench_fresh(state: &mut [u8]) -> u8
    ensures { (result ≡ saved_number (save_of state.old))
        × (state.new ≡ buffer_of fresh_of state.old) }
{
    match saving::save(Receiver::new(), state) {
        Ok(()) => 0,
        Err(TooShort) => TOO_SHORT,
    }
}

// Takes one bit.
pub fn bench_take_bit(state: &mut [u8], bit: u8, told: &mut [u8]) -> u8
    ensures { (result ≡ bit_refused state.old bit told.old)
        × (state.new ≡ stepped_state state.old bit told.old)
        × (told.new ≡ stepped_told state.old bit told.old) }
{
    if no_room(state.len(), told.len()) {
        return TOO_SHORT;
    }
    if bit > 1 {
        return NO_BIT;
    }
    let step = saving::restore(state).step(bit);
    saving::save(step.next, state).unwrap();
    put_told(step.answer, 0, told);
    0
}

// Feeds bytes from a place on, up to the next answer, and gives the byte of the next bit; which bit is told. Where a
// buffer is too short nothing is fed, and the byte comes back.
pub fn bench_feed(state: &mut [u8], bytes: &[u8], byte: usize, bit: u8, told: &mut [u8]) -> usize
    ensures { (result ≡ place_after state.old bytes.now byte bit told.old)
        × (state.new ≡ state_after state.old bytes.now byte bit told.old)
        × (told.new ≡ told_after state.old bytes.now byte bit told.old) }
{
    if no_room(state.len(), told.len()) {
        return byte;
    }
    let came = saving::restore(state).advance(bytes, byte, bit);
    saving::save(came.next, state).unwrap();
    put_told(came.answer, came.bit, told);
    came.byte
}

// Whether one of the buffers is too short.
fn no_room(state: usize, told: usize) -> bool
    ensures { result ≡ no_room state told }
{
    (state < STATE_SIZE) | (told < TOLD_SIZE)
}

// The number of an answer.
fn answer_code(answer: Answer) -> u8
    ensures { result ≡ answer_code answer }
{
    match answer {
        Answer::Nothing => 0,
        Answer::Locked => 1,
        Answer::Group(_) => 2,
        Answer::Lost => 3,
        Answer::GroupAndLost(_) => 4,
        Answer::Refused => 9,
    }
}

// What is told, as bytes.
fn told_bytes(answer: Answer, bit: u8) -> [u8; 14]
    ensures { result ≡ told_of answer bit }
{
    let group = answer.group();
    let one = groups::word(group, 0).to_be_bytes();
    let two = groups::word(group, 1).to_be_bytes();
    let three = groups::word(group, 2).to_be_bytes();
    let four = groups::word(group, 3).to_be_bytes();
    [
        answer_code(answer),
        bit,
        u8::from(groups::good(group, 0)),
        u8::from(groups::good(group, 1)),
        u8::from(groups::good(group, 2)),
        u8::from(groups::good(group, 3)),
        one[0],
        one[1],
        two[0],
        two[1],
        three[0],
        three[1],
        four[0],
        four[1],
    ]
}

// What is told, into a buffer that has room for it.
fn put_told(answer: Answer, bit: u8, told: &mut [u8])
    requires { told_size ≤ length told.old }
    ensures { told.new ≡ told_of answer bit ++ drop told_size told.old }
{
    told[..TOLD_SIZE].copy_from_slice(&told_bytes(answer, bit));
}

// The receiver's state as bytes in a lent buffer, and back. Refuses, with number 8, a buffer that is too short; any
// bytes give a state.
#![tactic(auto)]

ghost use Rattle.std.specs.Prelude.{◌≡◌, cond, ◌+◌, ◌*◌, ◌<◌, ◌≤◌, ltb, length, get_or, drop, ◌++◌};
ghost use Rattle.bits.specs.Spell.{spell};
ghost use Rattle.bits.specs.Bytes.{bit_at};
ghost use Rattle.receiver.specs.Feeding.{byte_bits};
ghost use Rattle.saving.specs.Saving.{state_length, place_number_of, state_bytes_of, save_of, saved_number};
ghost use Rattle.saving.specs.Saving.{buffer_of, place_numbered_of, saved_block_of, saved_hand_of, restore_of};

use blocks::{BlockError, Judged};
use groups::Group;
use groups::bytes::{TooShort, byte_at};
use receiver::{Place, Receiver};

// The bytes of a state, and where its fields are.
const STATE_LENGTH: usize = 25;

const COUNT_AT: usize = 8;

const PLACE_AT: usize = 9;

const HELD_AT: usize = 10;

const WORDS_AT: usize = 11;

const MASK_AT: usize = 19;

const RUN_AT: usize = 23;

const BAD_AT: usize = 24;

// The place of a block, as a number: these are numbers of the saved bytes, and no other conversion of a place (`From`).
fn place_number(place: Place) -> u8
    ensures { result ≡ place_number_of place }
{
    match place {
        Place::Hunting => 0,
        Place::First => 1,
        Place::Second => 2,
        Place::ThirdC => 3,
        Place::ThirdCPrime => 4,
        Place::ThirdBad => 5,
        Place::Fourth => 6,
    }
}

// A number as a place.
fn place_numbered(number: u8) -> Place
    ensures { result ≡ place_numbered_of number }
{
    match number {
        1 => Place::First,
        2 => Place::Second,
        3 => Place::ThirdC,
        4 => Place::ThirdCPrime,
        5 => Place::ThirdBad,
        6 => Place::Fourth,
        _ => Place::Hunting,
    }
}

// The state as bytes, numbers highest byte first.
fn state_bytes(receiver: Receiver) -> [u8; 25]
    ensures { result ≡ state_bytes_of receiver }
{
    let window = receiver.window.to_be_bytes();
    let words = receiver.hand.words;
    let good = receiver.hand.good;
    let one = words[0].to_be_bytes();
    let two = words[1].to_be_bytes();
    let three = words[2].to_be_bytes();
    let four = words[3].to_be_bytes();
    [
        window[0],
        window[1],
        window[2],
        window[3],
        window[4],
        window[5],
        window[6],
        window[7],
        receiver.count,
        place_number(receiver.place),
        u8::from(receiver.held),
        one[0],
        one[1],
        two[0],
        two[1],
        three[0],
        three[1],
        four[0],
        four[1],
        u8::from(good[0]),
        u8::from(good[1]),
        u8::from(good[2]),
        u8::from(good[3]),
        receiver.run,
        receiver.bad,
    ]
}

// The number that some bytes are, the highest first.
fn number_at(bytes: &[u8], from: usize, many: usize) -> u64
    requires { (from ≤ state_length) × (many ≤ 8) }
    ensures { result ≡ spell (bit_at bytes.now) (byte_bits * from) (byte_bits * many) }
{
    let mut number: u64 = 0;
    for i in 0..many {
        number = number * 256 + u64::from(byte_at(bytes, from + i));
    }
    number
}

// A block of the group in hand.
fn saved_block(bytes: &[u8], i: usize) -> Judged
    requires { i < 4 }
    ensures { result ≡ saved_block_of bytes.now i }
{
    if byte_at(bytes, MASK_AT + i) > 0 {
        Ok(number_at(bytes, WORDS_AT + 2 * i, 2) as u16)
    } else {
        Err(BlockError::Bad)
    }
}

// The group in hand, block by block.
fn saved_hand(bytes: &[u8]) -> Group
    ensures { result ≡ saved_hand_of bytes.now }
{
    let mut hand = groups::empty();
    for i in 0..4 {
        hand = groups::with_block(hand, i, saved_block(bytes, i));
    }
    hand
}

// The state as bytes; the bytes beyond stay.
pub fn save(receiver: Receiver, out: &mut [u8]) -> Result<(), TooShort>
    ensures { (result ≡ save_of out.old)
        × (saved_number result ≡ cond (ltb (length out.old) state_length) 8 0)
        × (out.new ≡ buffer_of receiver out.old) }
{
    if out.len() < STATE_LENGTH {
        return Err(TooShort);
    }
    out[..STATE_LENGTH].copy_from_slice(&state_bytes(receiver));
    Ok(())
}

// The state that bytes hold; bytes that are missing are read as 0.
pub fn restore(bytes: &[u8]) -> Receiver
    ensures { result ≡ restore_of bytes.now }
{
    Receiver {
        window: number_at(bytes, 0, 8),
        count: byte_at(bytes, COUNT_AT),
        place: place_numbered(byte_at(bytes, PLACE_AT)),
        held: byte_at(bytes, HELD_AT) > 0,
        hand: saved_hand(bytes),
        run: byte_at(bytes, RUN_AT),
        bad: byte_at(bytes, BAD_AT),
    }
}

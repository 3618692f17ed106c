// Feeding bytes: their bits, eight to a byte, first bit highest, up to the next answer. Hunting, and inside a block, the
// bits run through plain numbers, and the state is touched where a block ends.
ghost use Rattle.std.specs.Prelude.{◌≡◌, ◌+◌, ◌<◌};
ghost use Rattle.bits.specs.Bytes.{bit_at};
ghost use Rattle.receiver.specs.Answers.{answer_number};
ghost use Rattle.receiver.specs.Feeding.{byte_bits, stopped_of, advance_of};
ghost use Rattle.receiver.specs.Machine.{silent_of};
ghost use Rattle.receiver.specs.Strides.{taken_in_of, number_of, IsIn, Onward, Heard, Filling, Taken};

use crate::{Advanced, Answer, Filled, Place, Receiver, Spot, Step};

// The bits of a byte.
const BYTE_BITS: u8 = 8;

impl Spot {
    // The place of the bit after this one.
    fn onward(self, bytes: &[u8]) -> Spot
        requires { IsIn self bytes.now }
        ensures { (number_of result ≡ number_of self + 1) × (result.bit < byte_bits) }
    {
        if self.bit < BYTE_BITS - 1 {
            Spot {
                bit: self.bit + 1,
                ..self
            }
        } else {
            Spot {
                byte: self.byte + 1,
                bit: 0,
            }
        }
    }

    // The bit at this place.
    fn bit_of(self, bytes: &[u8]) -> u8
        requires { IsIn self bytes.now }
        ensures { result ≡ bit_at bytes.now (number_of self) }
    {
        (bytes[self.byte] >> (BYTE_BITS - 1 - self.bit)) % 2
    }
}

// A step after which feeding stops at a place.
fn stopped(step: Step, spot: Spot) -> Advanced
    ensures { result ≡ stopped_of step spot.byte spot.bit }
{
    Advanced {
        next: step.next,
        answer: step.answer,
        byte: spot.byte,
        bit: spot.bit,
    }
}

// A state at rest at a place.
fn resting(receiver: Receiver, spot: Spot) -> Advanced
    ensures { result ≡ stopped_of (silent_of receiver) spot.byte spot.bit }
{
    let silent = Step {
        next: receiver,
        answer: Answer::Nothing,
    };
    stopped(silent, spot)
}

// Hunting, takes in the bits from a place on, up to one that locks or the end of the bytes. The place goes on bit by
// bit, and there is no `for` over bit numbers: eight times a length may be no usize.
fn hunt_on(window: u64, count: u8, bytes: &[u8], from: Spot) -> Filled
    requires { IsIn from bytes.now }
    ensures { Heard window count bytes.now from result }
{
    let mut last = window;
    let mut many = count;
    let mut spot = from;
    while spot.byte < bytes.len() {
        let moved = crate::shifted(last, spot.bit_of(bytes));
        if crate::lock_after(moved, many).is_some() {
            break;
        }
        last = moved;
        many = crate::count_after(many);
        spot = spot.onward(bytes);
    }
    Filled {
        window: last,
        count: many,
        spot,
    }
}

// Locked, takes in the bits of a block from a place on, up to its last or the end of the bytes.
fn fill(window: u64, count: u8, bytes: &[u8], from: Spot) -> Filled
    requires { IsIn from bytes.now }
    ensures { Filling window count bytes.now from result }
{
    let mut last = window;
    let mut many = count;
    let mut spot = from;
    while many < crate::BLOCK_BITS - 1 && spot.byte < bytes.len() {
        last = crate::shifted(last, spot.bit_of(bytes));
        spot = spot.onward(bytes);
        many += 1;
    }
    Filled {
        window: last,
        count: many,
        spot,
    }
}

// Feeds the bit at a place.
fn fed(receiver: Receiver, bytes: &[u8], from: Spot) -> Advanced
    requires { IsIn from bytes.now }
    ensures { Onward receiver bytes.now from result }
{
    let taken = receiver.step(from.bit_of(bytes));
    stopped(taken, from.onward(bytes))
}

// The state that has taken in some bits, and where they end.
fn taken_in(receiver: Receiver, filled: Filled) -> Receiver
    ensures { result ≡ taken_in_of receiver filled.window filled.count }
{
    if receiver.place == Place::Hunting {
        return crate::hunting(filled.window, filled.count);
    }
    Receiver {
        window: filled.window,
        count: filled.count,
        ..receiver
    }
}

// Takes in bits from a place on, up to one that locks, the last of a block, or the end of the bytes.
fn run_on(receiver: Receiver, bytes: &[u8], from: Spot) -> Filled
    requires { IsIn from bytes.now }
    ensures { Taken receiver bytes.now from result }
{
    if receiver.place == Place::Hunting {
        hunt_on(receiver.window, receiver.count, bytes, from)
    } else {
        fill(receiver.window, receiver.count, bytes, from)
    }
}

// Feeds some bits, up to a lock, the end of a block, or the end of the bytes.
fn some_fed(receiver: Receiver, bytes: &[u8], from: Spot) -> Advanced
    requires { IsIn from bytes.now }
    ensures { Onward receiver bytes.now from result }
{
    let filled = run_on(receiver, bytes, from);
    let next = taken_in(receiver, filled);
    let spot = filled.spot;
    if spot.byte < bytes.len() {
        fed(next, bytes, spot)
    } else {
        resting(next, spot)
    }
}

impl Receiver {
    // Feeds bytes, eight bits to a byte, first bit highest, from a place on, and stops after the next answer other than
    // nothing, or at the end. A place that the bytes don't have comes back, and nothing is fed.
    pub fn advance(self, bytes: &[u8], byte: usize, bit: u8) -> Advanced
        ensures { (result ≡ advance_of self bytes.now byte bit) × (answer_number result.answer ≡ 0) }
    {
        let mut spot = Spot { byte, bit };
        if bit >= BYTE_BITS {
            return resting(self, spot);
        }
        let mut next = self;
        while spot.byte < bytes.len() {
            let taken = some_fed(next, bytes, spot);
            let Answer::Nothing = taken.answer else {
                return taken;
            };
            next = taken.next;
            spot = Spot {
                byte: taken.byte,
                bit: taken.bit,
            };
        }
        resting(next, spot)
    }
}

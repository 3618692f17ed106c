// Blocks of 26 bits: 16 bits of word, then 10 of check, first bit sent highest. Writes, reads and judges them.
// Refuses, with number 12, what is over 26 bits.
#![tactic(auto)]

ghost use Rattle.std.specs.Prelude.{◌≡◌, ◌*◌, ◌%◌};
ghost use Rattle.blocks.specs.Divide.{remainder};
ghost use Rattle.blocks.specs.Block.{offset_of, check_of, write_of, read_of, judge_of, limit};
ghost use Rattle.blocks.specs.Answers.{found_number, found_values, judged_number, judged_values};
ghost use Rattle.blocks.specs.Answers.{length_number, read_values, judge_values};

// The kinds of block, in the order of a group; C and C' are the two third ones.
#[derive(Clone, Copy, PartialEq, Eq)]
pub enum Kind {
    A,
    B,
    C,
    CPrime,
    D,
}

// A valid block: its word and its kind.
#[derive(Clone, Copy)]
pub struct Block {
    pub word: u16,
    pub kind: Kind,
}

// There are more than 26 bits.
#[derive(Clone, Copy, PartialEq, Eq)]
pub struct TooLong;

// Why bits are no block of the kind that is expected: they are not valid as it, or more than 26.
#[derive(Clone, Copy, PartialEq, Eq)]
pub enum BlockError {
    Bad,
    TooLong,
}

// How a block was judged where a kind was expected: the word of a good one.
pub type Judged = Result<u16, BlockError>;

// One more than the largest number of 26 bits.
const LIMIT: u32 = 0x4000000;

// The offsets of the kinds.
const OFFSET_A: u16 = 0x0FC;

const OFFSET_B: u16 = 0x198;

const OFFSET_C: u16 = 0x168;

const OFFSET_C_PRIME: u16 = 0x350;

const OFFSET_D: u16 = 0x1B4;

// The remainder that each bit of the word leaves, bit 15 first.
const ROWS: [u16; 16] = [
    0x077, 0x2E7, 0x3AF, 0x30B, 0x359, 0x370, 0x1B8, 0x0DC, 0x06E, 0x037, 0x2C7, 0x3BF, 0x303,
    0x35D, 0x372, 0x1B9,
];

// The offset of a kind.
pub fn offset(kind: Kind) -> u16
    ensures { result ≡ offset_of kind }
{
    match kind {
        Kind::A => OFFSET_A,
        Kind::B => OFFSET_B,
        Kind::C => OFFSET_C,
        Kind::CPrime => OFFSET_C_PRIME,
        Kind::D => OFFSET_D,
    }
}

// What the division leaves of word × x^10, added up from the rows.
fn leftover(word: u16) -> u16
    ensures { result ≡ remainder (word * 1024) }
{
    let rows = ROWS;
    let mut sum = 0;
    for (i, row) in rows.iter().enumerate() {
        if (word >> (15 - i)) % 2 == 1 {
            sum ^= row;
        }
    }
    sum
}

// What the division leaves of the lowest 26 bits.
fn left(bits: u32) -> u16
    ensures { result ≡ remainder (bits % limit) }
{
    leftover((bits / 1024 % 65536) as u16) ^ ((bits % 1024) as u16)
}

// The check that is sent with a word.
pub fn check(word: u16, kind: Kind) -> u16
    ensures { result ≡ check_of word kind }
{
    leftover(word) ^ offset(kind)
}

// A word as a block: the word, then its check.
pub fn write(word: u16, kind: Kind) -> u32
    ensures { result ≡ write_of word kind }
{
    u32::from(word) * 1024 + u32::from(check(word, kind))
}

// The word and kind of a block, or none; 12 where there are more than 26 bits.
pub fn read(bits: u32) -> Result<Option<Block>, TooLong>
    ensures { (result ≡ read_of bits) × (found_number result ≡ length_number bits)
        × (found_values result ≡ read_values bits) }
{
    if bits >= LIMIT {
        return Err(TooLong);
    }
    let word = (bits / 1024) as u16;
    let kind = match left(bits) {
        OFFSET_A => Kind::A,
        OFFSET_B => Kind::B,
        OFFSET_C => Kind::C,
        OFFSET_C_PRIME => Kind::CPrime,
        OFFSET_D => Kind::D,
        _ => return Ok(None),
    };
    Ok(Some(Block { word, kind }))
}

// A block where a kind is expected: good with its word, or bad; 12 where there are more than 26 bits.
pub fn judge(bits: u32, kind: Kind) -> Judged
    ensures { (result ≡ judge_of bits kind) × (judged_number result ≡ length_number bits)
        × (judged_values result ≡ judge_values bits kind) }
{
    if bits >= LIMIT {
        return Err(BlockError::TooLong);
    }
    if left(bits) != offset(kind) {
        return Err(BlockError::Bad);
    }
    Ok((bits / 1024) as u16)
}

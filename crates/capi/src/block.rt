// Blocks: kinds and answers as numbers.
ghost use Rattle.std.specs.Prelude.{◌≡◌, ◌≤◌};
ghost use Rattle.blocks.specs.Block.{write_of, read_of, judge_of};
ghost use Rattle.capi.specs.Blocks.{kind_number, kind_numbered, found_code, judged_code};

use blocks::{Block, BlockError, Judged, Kind, TooLong};

// What one is worth above the 16 bits of a word.
const ABOVE_WORD: u32 = 0x10000;

// The number of the refusal of a block over 26 bits.
const OVER: u32 = 12;

// The number of a kind, from 1.
fn kind_number(kind: Kind) -> u32
    ensures { (result ≡ kind_number kind) × (result ≤ 5) }
{
    match kind {
        Kind::A => 1,
        Kind::B => 2,
        Kind::C => 3,
        Kind::CPrime => 4,
        Kind::D => 5,
    }
}

// The kind of a number.
fn kind_numbered(number: u8) -> Kind
    ensures { result ≡ kind_numbered number }
{
    match number {
        1 => Kind::A,
        2 => Kind::B,
        3 => Kind::C,
        4 => Kind::CPrime,
        _ => Kind::D,
    }
}

fn found_code(found: Result<Option<Block>, TooLong>) -> u32
    ensures { result ≡ found_code found }
{
    match found {
        Ok(Some(block)) => kind_number(block.kind) * ABOVE_WORD + u32::from(block.word),
        Ok(None) => 0,
        Err(TooLong) => OVER,
    }
}

fn judged_code(judged: Judged) -> u32
    ensures { result ≡ judged_code judged }
{
    match judged {
        Ok(word) => ABOVE_WORD + u32::from(word),
        Err(BlockError::Bad) => 0,
        Err(BlockError::TooLong) => OVER,
    }
}

// A word as a block of a kind.
pub fn bench_write_block(word: u16, kind: u8) -> u32
    ensures { result ≡ write_of word (kind_numbered kind) }
{
    blocks::write(word, kind_numbered(kind))
}

// The word and kind of a block.
pub fn bench_read_block(bits: u32) -> u32
    ensures { result ≡ found_code (read_of bits) }
{
    found_code(blocks::read(bits))
}

// The word of a block where a kind is expected.
pub fn bench_judge_block(bits: u32, kind: u8) -> u32
    ensures { result ≡ judged_code (judge_of bits (kind_numbered kind)) }
{
    judged_code(blocks::judge(bits, kind_numbered(kind)))
}

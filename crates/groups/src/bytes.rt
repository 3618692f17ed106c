// A group as it is sent: four blocks, thirteen bytes, and back. A buffer without room for the thirteen is refused with number 8.
ghost use Rattle.std.specs.Prelude.{◌≡◌, cond, ◌<◌, get_or};
ghost use Rattle.bits.specs.Bytes.{bytes_of};
ghost use Rattle.groups.specs.Written.{blocks_of, group_size, four_blocks, group_bytes, no_room, put_at_of, put_number, buffer_of};
ghost use Rattle.groups.specs.Written.{block_in, word_in, judged_in, group_in};

use crate::Group;
use blocks::{Judged, Kind};

// A buffer has no room for a group. `letters` has a refusal of this name too: neither crate imports the other.
#[derive(Clone, Copy, PartialEq, Eq)]
pub struct TooShort;

// The bytes of a group.
pub const SIZE: usize = 13;

// What one is worth above the 26 bits of a block.
const BLOCK: u32 = 0x4000000;

// Four words as four blocks.
pub fn blocks_of(words: [u16; 4]) -> [u32; 4]
    ensures { result ≡ blocks_of words }
{
    [
        blocks::write(words[0], Kind::A),
        blocks::write(words[1], Kind::B),
        blocks::write(words[2], crate::third_kind(words[1])),
        blocks::write(words[3], Kind::D),
    ]
}

// Four blocks, one after the other in a number, as thirteen bytes.
fn packed(blocks: [u32; 4]) -> [u8; 13]
    ensures { result ≡ bytes_of group_size
        (four_blocks (get_or blocks 0 0) (get_or blocks 1 0) (get_or blocks 2 0) (get_or blocks 3 0)) }
{
    let [one, two, three, four] = blocks;
    let block = u128::from(BLOCK);
    let half = u128::from(one) * block + u128::from(two);
    let number = (half * block + u128::from(three)) * block + u128::from(four);
    let wide = number.to_be_bytes();
    let mut bytes = [0; 13];
    bytes.copy_from_slice(&wide[3..]);
    bytes
}

// Four words as thirteen bytes.
pub fn bytes_of(words: [u16; 4]) -> [u8; 13]
    ensures { result ≡ group_bytes words }
{
    packed(blocks_of(words))
}

// Four words as thirteen bytes into a buffer, from byte `at` on; where there is no room the buffer stays as it is.
pub fn put_at(words: [u16; 4], out: &mut [u8], at: usize) -> Result<(), TooShort>
    ensures { (result ≡ put_at_of out.old at) × (put_number result ≡ cond (no_room out.old at) 8 0)
        × (out.new ≡ buffer_of words out.old at) }
{
    if out.len().saturating_sub(at) < SIZE {
        return Err(TooShort);
    }
    out[at..at + SIZE].copy_from_slice(&bytes_of(words));
    Ok(())
}

// A byte of a slice; 0 past its end.
pub fn byte_at(bytes: &[u8], at: usize) -> u8
    ensures { result ≡ get_or bytes.now at 0 }
{
    bytes.get(at).copied().unwrap_or(0)
}

// The block at a place, 0 to 3, of the group that a slice begins with; zeros stand past its end.
fn block_from(bytes: &[u8], place: usize) -> u32
    requires { place < 4 }
    ensures { result ≡ block_in bytes.now place }
{
    let at = 3 * place;
    let four = [
        byte_at(bytes, at),
        byte_at(bytes, at + 1),
        byte_at(bytes, at + 2),
        byte_at(bytes, at + 3),
    ];
    (u32::from_be_bytes(four) >> (6 - 2 * place)) % BLOCK
}

// Block number `number` of the bytes, from 0; zeros stand past their end.
pub fn block_at(bytes: &[u8], number: usize) -> u32
    ensures { result ≡ block_in bytes.now number }
{
    let group = number / 4;
    if group > bytes.len() / SIZE {
        return 0;
    }
    let from = SIZE * group;
    block_from(&bytes[from..], number % 4)
}

// The word of block number `number` of the bytes.
pub fn word_at(bytes: &[u8], number: usize) -> u16
    ensures { result ≡ word_in bytes.now number }
{
    (block_at(bytes, number) / 1024) as u16
}

// The block at a place of the group that the bytes begin with, judged as the kind that its place expects.
fn judged_in(bytes: &[u8], place: usize) -> Judged
    ensures { result ≡ judged_in bytes.now place }
{
    blocks::judge(
        block_at(bytes, place),
        crate::expected(place, word_at(bytes, 1)),
    )
}

// The group that the bytes begin with, filled block by block.
pub fn group_of(bytes: &[u8]) -> Group
    ensures { result ≡ group_in bytes.now }
{
    let mut group = crate::empty();
    for place in 0..crate::PLACES {
        group = crate::with_block(group, place, judged_in(bytes, place));
    }
    group
}

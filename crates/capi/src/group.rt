// Groups: four words into a buffer as thirteen bytes, and back, and the switches of 0A and 0B.
ghost use Rattle.std.specs.Prelude.{◌≡◌, [], ◌∷◌};
ghost use Rattle.groups.specs.Content.{carried_of};
ghost use Rattle.groups.specs.Written.{put_at_of, put_number, buffer_of, group_in};
ghost use Rattle.capi.specs.Groups.{word_code, carried_code};

use groups::Group;
use groups::bytes::TooShort;
use groups::fields::Switches;

// What one is worth above the 16 bits of a word.
const ABOVE_WORD: u32 = 0x10000;

// The number of the refusal of a buffer that is too short.
const TOO_SHORT: u8 = 8;

// Four words as thirteen bytes into a buffer, from byte `at` on.
pub fn bench_put_group(
    word1: u16,
    word2: u16,
    word3: u16,
    word4: u16,
    out: &mut [u8],
    at: usize,
) -> u8
    ensures { (result ≡ put_number (put_at_of out.old at))
        × (out.new ≡ buffer_of (word1 ∷ word2 ∷ word3 ∷ word4 ∷ []) out.old at) }
{
    match groups::bytes::put_at([word1, word2, word3, word4], out, at) {
        Ok(()) => 0,
        Err(TooShort) => TOO_SHORT,
    }
}

// The word at a place, 0 to 3, of the group that the bytes begin with.
pub fn bench_read_word(bytes: &[u8], place: usize) -> u32
    ensures { result ≡ word_code (group_in bytes.now) place }
{
    word_code(groups::bytes::group_of(bytes), place)
}

fn word_code(group: Group, place: usize) -> u32
    ensures { result ≡ word_code group place }
{
    let word = u32::from(groups::word(group, place));
    if groups::good(group, place) {
        return ABOVE_WORD + word;
    }
    word
}

// The switches of a group, by its word 2.
pub fn bench_switches(word2: u16) -> u8
    ensures { result ≡ carried_code (carried_of word2) }
{
    carried_code(groups::fields::switches_of(groups::all_good([0, word2, 0, 0])))
}

fn carried_code(carried: Option<Switches>) -> u8
    ensures { result ≡ carried_code carried }
{
    match carried {
        Some(switches) => {
            8 + 4 * u8::from(switches.ta) + 2 * u8::from(switches.ms) + u8::from(switches.di)
        }
        None => 0,
    }
}

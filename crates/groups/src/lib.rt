// Groups: four words of 16 bits and a mask that says which were good. Makes them block by block, and reads their
// header and fields.
#![tactic(auto)]

ghost use Rattle.std.specs.Prelude.{◌≡◌};
ghost use Rattle.groups.specs.Header.{third_kind, expected_of};
ghost use Rattle.groups.specs.Group.{empty_of, with_block_of, all_good_of, word_of, good_of, is_all_good_of, counts_of};

pub mod bytes;
pub mod fields;

use blocks::{Judged, Kind};

// The places of a group; word 1 is at place 0.
pub const PLACES: usize = 4;

// Four words and which of them were good. Made only by `empty`, `with_block` and `all_good`.
#[derive(Clone, Copy, PartialEq, Eq)]
pub struct Group {
    pub words: [u16; 4],
    pub good: [bool; 4],
}

// A group of which nothing has come.
pub fn empty() -> Group
    ensures { result ≡ empty_of }
{
    Group {
        words: [0u16; 4],
        good: [false; 4],
    }
}

// The group with a judged block at a place, 0 to 3; at no other place does it change. A bad block's word is 0.
#[tactic(auto, unfolding(crate::specs::Group::with_block_of))]
pub fn with_block(group: Group, place: usize, judged: Judged) -> Group
    ensures { result ≡ with_block_of group place judged }
{
    if place >= PLACES {
        return group;
    }
    let mut words = group.words;
    let mut good = group.good;
    words[place] = judged.unwrap_or(0);
    good[place] = judged.is_ok();
    Group { words, good }
}

// Four words, all of them good.
pub fn all_good(words: [u16; 4]) -> Group
    ensures { result ≡ all_good_of words }
{
    Group {
        words,
        good: [true; 4],
    }
}

// The word at a place, 0 to 3; 0 at any other.
pub fn word(group: Group, place: usize) -> u16
    ensures { result ≡ word_of group place }
{
    if place >= PLACES {
        return 0;
    }
    let words = group.words;
    words[place]
}

// Whether the word at a place, 0 to 3, was good; none is at any other.
pub fn good(group: Group, place: usize) -> bool
    ensures { result ≡ good_of group place }
{
    if place >= PLACES {
        return false;
    }
    let good = group.good;
    good[place]
}

// Whether all four words were good.
pub fn is_all_good(group: Group) -> bool
    ensures { result ≡ is_all_good_of group }
{
    let good = group.good;
    good[0] & good[1] & good[2] & good[3]
}

// Whether the station record takes the group in.
pub fn counts(group: Group) -> bool
    ensures { result ≡ counts_of group }
{
    is_all_good(group)
}

// The third kind of a group: C' where word 2 has version 1, else C.
pub fn third_kind(word2: u16) -> Kind
    ensures { result ≡ third_kind word2 }
{
    if word2 / 2048 % 2 == 0 {
        Kind::C
    } else {
        Kind::CPrime
    }
}

// The kind that a place expects, the third by word 2.
pub fn expected(place: usize, word2: u16) -> Kind
    ensures { result ≡ expected_of place word2 }
{
    match place {
        0 => Kind::A,
        1 => Kind::B,
        2 => third_kind(word2),
        _ => Kind::D,
    }
}

// What a group says: its header, what it carries by its type, and the switches of 0A and 0B. Looks at words only.
ghost use Rattle.std.specs.Prelude.{◌≡◌};
ghost use Rattle.groups.specs.Group.{word_of};
ghost use Rattle.groups.specs.Content.{header_of, switches_of, name_address, text_address, text_flag};
ghost use Rattle.groups.specs.Content.{content_of, carried_of, first_of, second_of};

use crate::Group;

// What words 1 and 2 say: PI, type, version, TP, PTY and the five low bits.
#[derive(Clone, Copy)]
pub struct Header {
    pub pi: u16,
    pub number: u8,
    pub version: u8,
    pub tp: bool,
    pub pty: u8,
    pub low: u8,
}

// Traffic announcement, music or speech, decoder identification.
#[derive(Clone, Copy)]
pub struct Switches {
    pub ta: bool,
    pub ms: bool,
    pub di: bool,
}

// What a group carries by its type. A pair is two characters and `af` two codes, the first in the high byte.
#[derive(Clone, Copy)]
pub enum Content {
    Name0A {
        switches: Switches,
        address: u8,
        af: u16,
        pair: u16,
    },
    Name0B {
        switches: Switches,
        address: u8,
        pair: u16,
    },
    Text2A {
        flag: bool,
        address: u8,
        first: u16,
        second: u16,
    },
    Text2B {
        flag: bool,
        address: u8,
        pair: u16,
    },
    Clock4A,
    Other,
}

// The header of a group.
pub fn header_of(group: Group) -> Header
    ensures { result ≡ header_of (word_of group 0) (word_of group 1) }
{
    header_from(crate::word(group, 0), crate::word(group, 1))
}

// The header from word 1 and word 2.
pub fn header_from(word1: u16, word2: u16) -> Header
    ensures { result ≡ header_of word1 word2 }
{
    Header {
        pi: word1,
        number: (word2 / 4096) as u8,
        version: (word2 / 2048 % 2) as u8,
        tp: word2 / 1024 % 2 == 1,
        pty: (word2 / 32 % 32) as u8,
        low: (word2 % 32) as u8,
    }
}

// Bits 4, 3 and 2 of word 2 of a 0A or 0B.
fn switches_from(word2: u16) -> Switches
    ensures { result ≡ switches_of word2 }
{
    Switches {
        ta: word2 / 16 % 2 == 1,
        ms: word2 / 8 % 2 == 1,
        di: word2 / 4 % 2 == 1,
    }
}

// Bits 1-0 of word 2 of a 0A or 0B. Name and text have a definition each for their address, and a line each here.
fn name_address(word2: u16) -> u8
    ensures { result ≡ name_address word2 }
{
    (word2 % 4) as u8
}

// Bits 3-0 of word 2 of a 2A or 2B.
fn text_address(word2: u16) -> u8
    ensures { result ≡ text_address word2 }
{
    (word2 % 16) as u8
}

// Bit 4 of word 2 of a 2A or 2B.
fn text_flag(word2: u16) -> bool
    ensures { result ≡ text_flag word2 }
{
    word2 / 16 % 2 == 1
}

// What words 2, 3 and 4 carry, by type and version.
pub fn content_from(word2: u16, word3: u16, word4: u16) -> Content
    ensures { result ≡ content_of word2 word3 word4 }
{
    let kind = word2 / 2048;
    match kind {
        0 => Content::Name0A {
            switches: switches_from(word2),
            address: name_address(word2),
            af: word3,
            pair: word4,
        },
        1 => Content::Name0B {
            switches: switches_from(word2),
            address: name_address(word2),
            pair: word4,
        },
        4 => Content::Text2A {
            flag: text_flag(word2),
            address: text_address(word2),
            first: word3,
            second: word4,
        },
        5 => Content::Text2B {
            flag: text_flag(word2),
            address: text_address(word2),
            pair: word4,
        },
        8 => Content::Clock4A,
        _ => Content::Other,
    }
}

// What a group carries.
pub fn content_of(group: Group) -> Content
    ensures { result ≡ content_of (word_of group 1) (word_of group 2) (word_of group 3) }
{
    content_from(
        crate::word(group, 1),
        crate::word(group, 2),
        crate::word(group, 3),
    )
}

// The switches that a group carries, or none.
pub fn switches_of(group: Group) -> Option<Switches>
    ensures { result ≡ carried_of (word_of group 1) }
{
    let word2 = crate::word(group, 1);
    if word2 / 4096 == 0 {
        Some(switches_from(word2))
    } else {
        None
    }
}

// The first of the two characters, or codes, of a word.
pub fn first(word: u16) -> u8
    ensures { result ≡ first_of word }
{
    word.to_be_bytes()[0]
}

// The second of them.
pub fn second(word: u16) -> u8
    ensures { result ≡ second_of word }
{
    word.to_be_bytes()[1]
}

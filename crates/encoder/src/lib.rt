// The encoder: writes a key as the groups that bring its name and, if wanted, its text, 13 bytes each.
// Refused: no such exercise (1), a key that is not good (2), a buffer too short (8). The buffer is then as it was.
#![tactic(auto)]

ghost use Rattle.std.specs.Prelude.{◌≡◌, Ok, Err, cond, ◌<◌, ◌≤◌, length};
ghost use Rattle.keys.specs.Wanted.{all_addresses};
ghost use Rattle.encoder.specs.Words.{text_type, word2_of, name_words, text_words, words_at};
ghost use Rattle.encoder.specs.Encoding.{sent_of, size_of};
ghost use Rattle.encoder.specs.Answer.{refused, encoded_number, encoded_values, too_short};
ghost use Rattle.encoder.specs.Answer.{encode_of, encode_number, encode_values, after_of, out_of};

use groups::bytes::SIZE;
use keys::{Key, KeyError, NAME_ADDRESSES};

// The type of 0A.
const NAME_TYPE: u16 = 0;

// The type of 2A.
const TEXT_TYPE: u16 = 2;

// What one is worth in word 2's type.
const TYPE_AT: u16 = 4096;

// What TP is worth in word 2.
const TP_AT: u16 = 1024;

// What one is worth in word 2's PTY.
const PTY_AT: u16 = 32;

// Word 3 of 0A: no AF.
const NO_FREQUENCIES: u16 = 0xE0CD;

// Why nothing was written: refusals 1, 2 and 8.
#[derive(Clone, Copy, PartialEq, Eq)]
pub enum EncodeError {
    NoKey,
    BadKey,
    TooShort,
}

impl From<KeyError> for EncodeError {
    ghost from_gives = { λ error e. e ≡ refused error };

    fn from(error: KeyError) -> EncodeError {
        match error {
            KeyError::NoKey => EncodeError::NoKey,
            KeyError::BadKey => EncodeError::BadKey,
        }
    }
}

// The groups of an exercise's key at the front of a buffer, and how many bytes they take; the bytes beyond stay.
pub fn encode(sheet: &[u8], exercise: usize, out: &mut [u8]) -> Result<usize, EncodeError>
    ensures { (result ≡ encode_of sheet.now exercise (length out.old))
        × (encoded_number result ≡ encode_number sheet.now exercise (length out.old))
        × (encoded_values result ≡ encode_values sheet.now exercise (length out.old))
        × (out.new ≡ out_of sheet.now exercise out.old) }
{
    let key = keys::key_of(sheet, exercise)?;
    encode_key(key, out)
}

// The groups of a key at the front of a buffer, where it has room.
fn encode_key(key: Key, out: &mut [u8]) -> Result<usize, EncodeError>
    ensures { (result ≡ cond (too_short key.bytes (length out.old)) (Err EncodeError.TooShort)
        (Ok (size_of key.bytes)))
        × (out.new ≡ after_of result key.bytes out.old) }
{
    let size = SIZE * usize::from(sent(key));
    if out.len() < size {
        return Err(EncodeError::TooShort);
    }
    put_groups(key, out);
    Ok(size)
}

// How many addresses are sent, from 0.
fn sent(key: Key) -> u8
    ensures { (result ≡ length (sent_of key.bytes)) × (result ≤ all_addresses) }
{
    keys::addresses(key)
}

// The groups of a key at the front of a buffer that has room for them.
fn put_groups(key: Key, out: &mut [u8])
    requires { size_of key.bytes ≤ length out.old }
    ensures { out.new
        ≡ after_of (Ok (size_of key.bytes)) key.bytes out.old }
{
    for address in 0..sent(key) {
        groups::bytes::put_at(words_at(key, address), out, SIZE * usize::from(address)).unwrap();
    }
}

// The four words that bring an address: 0 to 3 name, 4 to 19 text.
fn words_at(key: Key, address: u8) -> [u16; 4]
    requires { address < all_addresses }
    ensures { result ≡ words_at key.bytes address }
{
    if address < NAME_ADDRESSES {
        name_words(key, address)
    } else {
        text_words(key, address - NAME_ADDRESSES)
    }
}

// 0A at an address: TA, M/S and DI 0.
fn name_words(key: Key, address: u8) -> [u16; 4]
    requires { address < 32 }
    ensures { result ≡ name_words key.bytes address }
{
    [
        keys::pi(key),
        word2(NAME_TYPE, key, address),
        NO_FREQUENCIES,
        keys::name_pair(key, address),
    ]
}

// 2A at an address: flag 0.
fn text_words(key: Key, address: u8) -> [u16; 4]
    requires { address < 32 }
    ensures { result ≡ text_words key.bytes address }
{
    [
        keys::pi(key),
        word2(TEXT_TYPE, key, address),
        keys::text_pair(key, 2 * address),
        keys::text_pair(key, 2 * address + 1),
    ]
}

// Word 2 from the top: the type's number, version 0, TP, PTY, five bits by type.
fn word2(number: u16, key: Key, low: u8) -> u16
    requires { (number ≤ text_type) × (low < 32) }
    ensures { result ≡ word2_of number key.bytes low }
{
    let tp = u16::from(keys::tp(key));
    number * TYPE_AT + tp * TP_AT + u16::from(keys::pty(key)) * PTY_AT + u16::from(low)
}

// The key sheet: records of 80 bytes, one for each exercise. A key is handed out by value, and only where it is good;
// fields are read only from such a key: nothing is compared with a sheet that did not load.
// Refused: a sheet that is no 1 to 256 records, an exercise that it lacks (1), and a key that is not good (2).
#![tactic(auto)]

ghost use Rattle.std.specs.Prelude.{◌≡◌, cond, not, ◌+◌, ◌*◌, ◌≤◌, nat_le, length, get_or};
ghost use Rattle.keys.specs.Sheet.{record_size, no_key, key_at};
ghost use Rattle.keys.specs.Fields.{pair_of, pi_of, pty_of, tp_of, wanted_of, name_pair_of, text_pair_of};
ghost use Rattle.keys.specs.Wanted.{addresses_of, text_length_of};
ghost use Rattle.keys.specs.Good.{byte_good, all_good, key_good};
ghost use Rattle.keys.specs.Asked.{key_number_of, key_of};

// Bytes of a record.
const RECORD: usize = 80;

// Bytes of the longest sheet.
const SHEET_LIMIT: usize = 20480;

// The place of PI.
const PI: usize = 0;

// The place of PTY.
const PTY: usize = 2;

// The place of the flags.
const FLAGS: usize = 3;

// The place of the name.
const NAME: usize = 4;

// The place of the text.
const TEXT: usize = 12;

// The place of the bytes at the end that are zero.
const LAST: usize = 76;

// Characters of a name.
const NAME_SIZE: usize = 8;

// Characters of a text.
const TEXT_SIZE: u8 = 64;

// Bytes at the end that are zero.
const LAST_SIZE: usize = 4;

// Pairs of characters of a name.
const NAME_PAIRS: u8 = 4;

// Pairs of characters of a text.
const TEXT_PAIRS: u8 = 32;

// The highest PTY.
const MOST_PTY: u8 = 31;

// Flags with bits 2-7 zero are below it.
const FLAGS_LIMIT: u8 = 4;

// The lowest byte that is a character.
const SPACE: u8 = 32;

// Addresses of a name; those of the text come behind them.
pub const NAME_ADDRESSES: u8 = 4;

// Addresses of a name and a text.
const ALL_ADDRESSES: u8 = 20;

// A key: the bytes of one record.
#[derive(Clone, Copy)]
pub struct Key {
    pub bytes: [u8; RECORD],
}

// Why there is no key: refusals 1 and 2.
#[derive(Clone, Copy, PartialEq, Eq)]
pub enum KeyError {
    NoKey,
    BadKey,
}

// The key of an exercise.
pub fn key_of(sheet: &[u8], exercise: usize) -> Result<Key, KeyError>
    ensures { (result ≡ key_of sheet.now exercise)
        × (key_number_of result ≡ cond (no_key sheet.now exercise) 1
        (cond (not (key_good (key_at sheet.now exercise))) 2 0)) }
{
    if no_key(sheet, exercise) {
        return Err(KeyError::NoKey);
    }
    let key = key_at(sheet, exercise);
    if !key_good(key) {
        return Err(KeyError::BadKey);
    }
    Ok(key)
}

// PI.
pub fn pi(key: Key) -> u16
    ensures { result ≡ pi_of key.bytes }
{
    pair_at(key, PI)
}

// PTY.
pub fn pty(key: Key) -> u8
    ensures { result ≡ pty_of key.bytes }
{
    key.bytes[PTY]
}

// Flag bit 0, TP.
pub fn tp(key: Key) -> bool
    ensures { result ≡ tp_of key.bytes }
{
    key.bytes[FLAGS] % 2 == 1
}

// Flag bit 1, text wanted.
pub fn wanted(key: Key) -> bool
    ensures { result ≡ wanted_of key.bytes }
{
    key.bytes[FLAGS] / 2 % 2 == 1
}

// Name characters 2a and 2a + 1; 0 where the name has no pair a.
pub fn name_pair(key: Key, a: u8) -> u16
    ensures { result ≡ name_pair_of key.bytes a }
{
    field_pair(key, NAME, NAME_PAIRS, a)
}

// Text characters 2a and 2a + 1; 0 where the text has no pair a.
pub fn text_pair(key: Key, a: u8) -> u16
    ensures { result ≡ text_pair_of key.bytes a }
{
    field_pair(key, TEXT, TEXT_PAIRS, a)
}

// How many addresses are wanted: those below it.
pub fn addresses(key: Key) -> u8
    ensures { result ≡ addresses_of key.bytes }
{
    if wanted(key) {
        ALL_ADDRESSES
    } else {
        NAME_ADDRESSES
    }
}

// How many characters of the text count.
pub fn text_length(key: Key) -> u8
    ensures { result ≡ text_length_of key.bytes }
{
    if wanted(key) { TEXT_SIZE } else { 0 }
}

// Characters 2a and 2a + 1 of a field that begins at byte `at` and has so many pairs; 0 where it has no pair a.
fn field_pair(key: Key, at: usize, pairs: u8, a: u8) -> u16
    requires { at + 2 * pairs ≤ record_size }
    ensures { result ≡ cond (nat_le pairs a) 0
        (pair_of (get_or key.bytes (at + 2 * a) 0) (get_or key.bytes (at + (2 * a + 1)) 0)) }
{
    if a >= pairs {
        return 0;
    }
    pair_at(key, at + 2 * usize::from(a))
}

// The two bytes of a key from byte `at` on as a word, high first.
fn pair_at(key: Key, at: usize) -> u16
    requires { at + 2 ≤ record_size }
    ensures { result ≡ pair_of (get_or key.bytes at 0) (get_or key.bytes (at + 1) 0) }
{
    u16::from_be_bytes([key.bytes[at], key.bytes[at + 1]])
}

// Answer 1: the sheet is no 1 to 256 whole records, or has no such exercise.
fn no_key(sheet: &[u8], exercise: usize) -> bool
    ensures { result ≡ no_key sheet.now exercise }
{
    let size = sheet.len();
    size == 0 || size % RECORD != 0 || size > SHEET_LIMIT || size / RECORD <= exercise
}

// The bytes of an exercise that the sheet has.
fn key_at(sheet: &[u8], exercise: usize) -> Key
    requires { record_size * exercise + record_size ≤ length sheet.now }
    ensures { result.bytes ≡ key_at sheet.now exercise }
{
    let from = RECORD * exercise;
    let mut bytes = [0u8; RECORD];
    bytes.copy_from_slice(&sheet[from..from + RECORD]);
    Key { bytes }
}

// A good key.
fn key_good(key: Key) -> bool
    ensures { result ≡ key_good key.bytes }
{
    pty(key) <= MOST_PTY
        && key.bytes[FLAGS] < FLAGS_LIMIT
        && all_good(&key.bytes, true, NAME, NAME_SIZE)
        && all_good(&key.bytes, wanted(key), TEXT, usize::from(TEXT_SIZE))
        && all_good(&key.bytes, false, LAST, LAST_SIZE)
}

// The bytes from a place on are characters, or all zero.
fn all_good(bytes: &[u8; RECORD], shown: bool, at: usize, count: usize) -> bool
    requires { at + count ≤ record_size }
    ensures { result ≡ all_good shown bytes.now at count }
{
    bytes[at..at + count]
        .iter()
        .all(|byte| byte_good(shown, *byte))
}

// A byte where a character is shown is 32 or more, any other is zero.
fn byte_good(shown: bool, byte: u8) -> bool
    ensures { result ≡ byte_good shown byte }
{
    if shown { byte >= SPACE } else { byte == 0 }
}

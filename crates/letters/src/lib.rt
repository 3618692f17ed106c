// Letters: texts, numbers and characters into a buffer that is lent.
// Refused, with number 8 (`tell`): a buffer that is too short; it is then as it was.
#![tactic(auto)]

ghost use Rattle.std.specs.Prelude.{◌≡◌, [], ◌∷◌, ◌<◌};
ghost use Rattle.letters.specs.Letters.{Put, hex_digit, decimal_of, letters_of, hex_four, last_two, is_shown};
ghost use Rattle.letters.specs.Letters.{character_text};
ghost use Rattle.letters.specs.Told.{Tells, written_of};

use itoa::Buffer;

// Refusal 8: the buffer is too short. Else the answer is how many characters were written.
#[derive(Clone, Copy, PartialEq, Eq)]
pub struct TooShort;

// A text at the front of a buffer, if it has room.
pub fn tell(text: &[u8], out: &mut [u8]) -> Result<usize, TooShort>
    ensures { Tells text.now out.old result out.new }
{
    let length = text.len();
    if out.len() < length {
        return Err(TooShort);
    }
    out[..length].copy_from_slice(text);
    Ok(length)
}

// How many characters were written; none where the buffer was too short.
pub fn written(told: Result<usize, TooShort>) -> usize
    ensures { result ≡ written_of told }
{
    told.unwrap_or(0)
}

// A text from byte `at` on, and the place behind it. Where it has no room nothing is written, and the place stays. The
// buffer and the place go in side by side, and not as one struct: so `NoSecondAnswer` of the claims states each of these.
pub fn put(text: &[u8], out: &mut [u8], at: usize) -> usize
    ensures { Put text.now out.old at out.new result }
{
    if out.len() < at {
        return at;
    }
    at + written(tell(text, &mut out[at..]))
}

// One character, as it is.
pub fn put_byte(byte: u8, out: &mut [u8], at: usize) -> usize
    ensures { Put (byte ∷ []) out.old at out.new result }
{
    put(&[byte], out, at)
}

// A number in decimal digits.
pub fn put_number(number: u64, out: &mut [u8], at: usize) -> usize
    ensures { Put (decimal_of number) out.old at out.new result }
{
    put(Buffer::new().format(number).as_bytes(), out, at)
}

// The letters of a word that is held as a number: its bytes from the first that is not 0 on, or the last.
pub fn put_word(letters: u64, out: &mut [u8], at: usize) -> usize
    ensures { Put (letters_of letters) out.old at out.new result }
{
    let bytes = letters.to_be_bytes();
    let first = (letters.leading_zeros() / 8).min(7) as usize;
    put(&bytes[first..], out, at)
}

// A word of a group in four hexadecimal digits.
pub fn put_hex(word: u16, out: &mut [u8], at: usize) -> usize
    ensures { Put (hex_four word) out.old at out.new result }
{
    let [high, low] = word.to_be_bytes();
    let digits = [
        hex_digit(high / 16),
        hex_digit(high % 16),
        hex_digit(low / 16),
        hex_digit(low % 16),
    ];
    put(&digits, out, at)
}

// The last two digits of a decimal number.
pub fn put_last_two(number: u8, out: &mut [u8], at: usize) -> usize
    ensures { Put (last_two number) out.old at out.new result }
{
    put(&[b'0' + number / 10 % 10, b'0' + number % 10], out, at)
}

// A character of a name or a text, as it is shown: where it isn't itself, a backslash, an x and two hex digits.
pub fn put_character(character: u8, out: &mut [u8], at: usize) -> usize
    ensures { Put (character_text character) out.old at out.new result }
{
    if is_shown(character) {
        return put_byte(character, out, at);
    }
    let shown = [
        b'\\',
        b'x',
        hex_digit(character / 16),
        hex_digit(character % 16),
    ];
    put(&shown, out, at)
}

// Whether a character is shown as it is.
fn is_shown(character: u8) -> bool
    ensures { result ≡ is_shown character }
{
    (b' '..=b'~').contains(&character) && character != b'\\'
}

// A digit of a hexadecimal number, 0 to 15.
fn hex_digit(digit: u8) -> u8
    requires { digit < 16 }
    ensures { result ≡ hex_digit digit }
{
    if digit < 10 {
        b'0' + digit
    } else {
        b'A' + (digit - 10)
    }
}

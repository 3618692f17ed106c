// AF codes and kHz as numbers, and the list that the words in some bytes build up.
ghost use Rattle.std.specs.Prelude.{◌≡◌, ◌+◌, ◌*◌};
ghost use Rattle.frequencies.specs.Frequency.{frequency_of, code_of};
ghost use Rattle.capi.specs.Frequencies.{frequency_code, code_code, list_code, list_in};

use frequencies::AfList;

// The number of the refusal: a caller in C is answered one number, and knows no `Result`.
const REFUSED: u32 = 11;

// What is added to a code.
const ABOVE_CODE: u32 = 256;

// The frequency of a code, in kHz.
pub fn bench_frequency(code: u8) -> u32
    ensures { result ≡ frequency_code (frequency_of code) }
{
    frequencies::frequency(code).unwrap_or(REFUSED)
}

// The code of a frequency in kHz.
pub fn bench_code(khz: u32) -> u32
    ensures { result ≡ code_code (code_of khz) }
{
    frequencies::code(khz).map_or(REFUSED, |code| ABOVE_CODE + u32::from(code))
}

// Of the list that the words in some bytes give: how many are expected, how many are held, and then the frequencies in
// kHz, each asked for by its number from 0.
pub fn bench_af_list(bytes: &[u8], asked: usize) -> u32
    ensures { result ≡ list_code (list_in bytes.now) asked }
{
    list_code(list_of(bytes), asked)
}

pub fn list_code(list: AfList, asked: usize) -> u32
    ensures { result ≡ list_code list asked }
{
    match asked {
        0 => u32::from(frequencies::expected(list)),
        1 => u32::from(frequencies::held(list)),
        _ => frequencies::at(list, asked - 2),
    }
}

// Two bytes as a word, high first.
pub fn word_of(high: u8, low: u8) -> u16
    ensures { result ≡ high * 256 + low }
{
    u16::from_be_bytes([high, low])
}

// The list after the words in some bytes.
fn list_of(bytes: &[u8]) -> AfList
    ensures { result ≡ list_in bytes.now }
{
    let mut list = frequencies::empty();
    for pair in bytes.chunks_exact(2) {
        list = frequencies::taken(list, word_of(pair[0], pair[1]));
    }
    list
}

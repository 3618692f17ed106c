// AF codes and kHz, and AF lists, as C calls them.
ghost use Rattle.std.specs.Prelude.{◌≡◌};
ghost use Rattle.frequencies.specs.Frequency.{frequency_of, code_of};
ghost use Rattle.capi.specs.Frequencies.{frequency_code, code_code, list_code, list_in};

// The frequency of a code, in kHz.
#[unsafe(no_mangle)]
pub extern "C" fn bench_frequency(code: u8) -> u32
    ensures { result ≡ frequency_code (frequency_of code) }
{
    capi::af::bench_frequency(code)
}

// The code of a frequency in kHz.
#[unsafe(no_mangle)]
pub extern "C" fn bench_code(khz: u32) -> u32
    ensures { result ≡ code_code (code_of khz) }
{
    capi::af::bench_code(khz)
}

// Of the list that the words in some bytes give: how many are expected, how many are held, and then the frequencies in
// kHz, each asked for by its number from 0.
#[unsafe(no_mangle)]
pub extern "C" fn bench_af_list(bytes: &[u8], asked: usize) -> u32
    ensures { result ≡ list_code (list_in bytes.now) asked }
{
    capi::af::bench_af_list(bytes, asked)
}

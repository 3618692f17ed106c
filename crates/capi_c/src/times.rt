// Clocks and local dates, as C calls them.
ghost use Rattle.std.specs.Prelude.{◌≡◌};
ghost use Rattle.clock.specs.Words.{read_of, write_of};
ghost use Rattle.clock.specs.Local.{local_date_of};
ghost use Rattle.capi.specs.Times.{clock_of, held_of, held_code, written_code, local_code};

// The clock in words 2, 3 and 4 of a 4A.
#[unsafe(no_mangle)]
pub extern "C" fn bench_read_clock(word2: u16, word3: u16, word4: u16) -> u64
    ensures { result ≡ held_code (read_of word2 word3 word4) }
{
    capi::times::bench_read_clock(word2, word3, word4)
}

// The four words of a 4A with this PI, TP, PTY and clock.
#[unsafe(no_mangle)]
pub extern "C" fn bench_write_clock(
    pi: u16,
    tp: bool,
    pty: u8,
    day: u32,
    hour: u8,
    minute: u8,
    negative: bool,
    half: u8,
) -> u64
    ensures { result ≡ written_code (write_of pi tp pty (clock_of day hour minute negative half)) }
{
    capi::times::bench_write_clock(pi, tp, pty, day, hour, minute, negative, half)
}

// The local date and time of a clock, where one is held.
#[unsafe(no_mangle)]
pub extern "C" fn bench_local_date(
    held: bool,
    day: u32,
    hour: u8,
    minute: u8,
    negative: bool,
    half: u8,
) -> u64
    ensures { result ≡ local_code (local_date_of (held_of held (clock_of day hour minute negative half))) }
{
    capi::times::bench_local_date(held, day, hour, minute, negative, half)
}

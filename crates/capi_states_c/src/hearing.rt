// The receiver, as C calls it.
ghost use Rattle.std.specs.Prelude.{◌≡◌};
ghost use Rattle.receiver.specs.Machine.{fresh_of};
ghost use Rattle.saving.specs.Saving.{save_of, saved_number, buffer_of};
ghost use Rattle.capi_states.specs.Hearing.{bit_refused};
ghost use Rattle.capi_states.specs.Hearing.{state_after, told_after, place_after, stepped_state, stepped_told};

// The state before any bit.
#[unsafe(no_mangle)]
pub extern "C" fn bench_fresh(state: &mut [u8]) -> u8
    ensures { (result ≡ saved_number (save_of state.old))
        × (state.new ≡ buffer_of fresh_of state.old) }
{
    capi_states::hearing::bench_fresh(state)
}

// Takes one bit.
#[unsafe(no_mangle)]
pub extern "C" fn bench_take_bit(state: &mut [u8], bit: u8, told: &mut [u8]) -> u8
    ensures { (result ≡ bit_refused state.old bit told.old)
        × (state.new ≡ stepped_state state.old bit told.old)
        × (told.new ≡ stepped_told state.old bit told.old) }
{
    capi_states::hearing::bench_take_bit(state, bit, told)
}

// Feeds bytes from a place on, up to the next answer, and gives the byte of the next bit; which bit is told. Where a
// buffer is too short nothing is fed, and the byte comes back.
#[unsafe(no_mangle)]
pub extern "C" fn bench_feed(
    state: &mut [u8],
    bytes: &[u8],
    byte: usize,
    bit: u8,
    told: &mut [u8],
) -> usize
    ensures { (result ≡ place_after state.old bytes.now byte bit told.old)
        × (state.new ≡ state_after state.old bytes.now byte bit told.old)
        × (told.new ≡ told_after state.old bytes.now byte bit told.old) }
{
    capi_states::hearing::bench_feed(state, bytes, byte, bit, told)
}

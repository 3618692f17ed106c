// Groups and what they say, as C calls them.
ghost use Rattle.std.specs.Prelude.{◌≡◌, [], ◌∷◌};
ghost use Rattle.groups.specs.Content.{carried_of};
ghost use Rattle.groups.specs.Written.{put_at_of, put_number, buffer_of, group_in};
ghost use Rattle.capi.specs.Groups.{word_code, carried_code};

// Four words as thirteen bytes into a buffer, from byte `at` on.
#[unsafe(no_mangle)]
pub extern "C" fn bench_put_group(
    word1: u16,
    word2: u16,
    word3: u16,
    word4: u16,
    out: &mut [u8],
    at: usize,
) -> u8
    ensures { (result ≡ put_number (put_at_of out.old at))
        × (out.new ≡ buffer_of (word1 ∷ word2 ∷ word3 ∷ word4 ∷ []) out.old at) }
{
    capi::group::bench_put_group(word1, word2, word3, word4, out, at)
}

// The word at a place, 0 to 3, of the group that the bytes begin with.
#[unsafe(no_mangle)]
pub extern "C" fn bench_read_word(bytes: &[u8], place: usize) -> u32
    ensures { result ≡ word_code (group_in bytes.now) place }
{
    capi::group::bench_read_word(bytes, place)
}

// The switches of a group, by its word 2.
#[unsafe(no_mangle)]
pub extern "C" fn bench_switches(word2: u16) -> u8
    ensures { result ≡ carried_code (carried_of word2) }
{
    capi::group::bench_switches(word2)
}

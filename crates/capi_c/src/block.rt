// Blocks, as C calls them.
ghost use Rattle.std.specs.Prelude.{◌≡◌};
ghost use Rattle.blocks.specs.Block.{write_of, read_of, judge_of};
ghost use Rattle.capi.specs.Blocks.{kind_numbered, found_code, judged_code};

// A word as a block of a kind.
#[unsafe(no_mangle)]
pub extern "C" fn bench_write_block(word: u16, kind: u8) -> u32
    ensures { result ≡ write_of word (kind_numbered kind) }
{
    capi::block::bench_write_block(word, kind)
}

// The word and kind of a block.
#[unsafe(no_mangle)]
pub extern "C" fn bench_read_block(bits: u32) -> u32
    ensures { result ≡ found_code (read_of bits) }
{
    capi::block::bench_read_block(bits)
}

// The word of a block where a kind is expected.
#[unsafe(no_mangle)]
pub extern "C" fn bench_judge_block(bits: u32, kind: u8) -> u32
    ensures { result ≡ judged_code (judge_of bits (kind_numbered kind)) }
{
    capi::block::bench_judge_block(bits, kind)
}

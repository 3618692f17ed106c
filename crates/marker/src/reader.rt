// The submission, read from the front, block by block, in the caller's bytes: a reader holds them and the number of
// the block that it stands at. Every block that is marked comes through one.
ghost use Rattle.std.specs.Prelude.{◌≡◌};
ghost use Rattle.groups.specs.Written.{block_in, word_in};

// A word stands above the ten bits of its check.
const CHECKS: u32 = 1024;

#[derive(Clone, Copy)]
pub struct Reader<'a> {
    pub bytes: &'a [u8],
    pub at: usize,
}

// The work: the block with a number, from 0; zeros stand past the end of the bytes.
fn block_at(bytes: &[u8], number: usize) -> u32
    ensures { result ≡ block_in bytes.now number }
{
    groups::bytes::block_at(bytes, number)
}

impl<'a> Reader<'a> {
    // A reader at the first block.
    fn new(bytes: &'a [u8]) -> Reader<'a>
        ensures { (result.bytes ≡ bytes.entry) × (result.at ≡ 0) }
    {
        Reader { bytes, at: 0 }
    }

    // The same reader at another block.
    fn moved(self, at: usize) -> Reader<'a>
        ensures { (result.bytes ≡ self.entry.bytes) × (result.at ≡ at) }
    {
        Reader { at, ..self }
    }

    // The block that a reader stands at.
    fn block(self) -> u32
        ensures { result ≡ block_in self.entry.bytes.now self.entry.at }
    {
        block_at(self.bytes, self.at)
    }
}

// Block number `number` of the bytes, through a reader that is moved there.
pub(crate) fn block_in(bytes: &[u8], number: usize) -> u32
    ensures { result ≡ block_in bytes.now number }
{
    Reader::new(bytes).moved(number).block()
}

// The word of a block, whatever its check: 16 of 26 bits, so that nothing is cut off.
pub(crate) fn word_in(bytes: &[u8], number: usize) -> u16
    ensures { result ≡ word_in bytes.now number }
{
    (block_in(bytes, number) / CHECKS) as u16
}

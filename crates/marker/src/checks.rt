// The blocks of a submission, without a key: answer 4.
ghost use Rattle.std.specs.Prelude.{◌≡◌};
ghost use Rattle.marker.specs.Tests.{block_wrong};
ghost use Rattle.marker.specs.Mark.{first_bad_block};

use crate::reader;
use groups::PLACES;
use groups::bytes::SIZE as GROUP;

// The first block that is not valid as its kind.
pub(crate) fn first_bad_block(submission: &[u8]) -> Option<usize>
    ensures { result ≡ first_bad_block submission.now }
{
    let blocks = PLACES * (submission.len() / GROUP);
    (0..blocks).find(|block| block_wrong(submission, *block))
}

// Answer 4: a block that is not valid as its kind, the third by word 2 of its group.
fn block_wrong(submission: &[u8], block: usize) -> bool
    ensures { result ≡ block_wrong submission.now block }
{
    let word2 = reader::word_in(submission, PLACES * (block / PLACES) + 1);
    let kind = groups::expected(block % PLACES, word2);
    blocks::judge(reader::block_in(submission, block), kind).is_err()
}

// Marks a submission against the key of an exercise: answers 0 to 7 with their places. An answer is a function of
// sheet, exercise and submission alone. Nothing passes without a good key and at least one whole group.
#![tactic(auto)]

ghost use Rattle.std.specs.Prelude.{◌≡◌};
ghost use Rattle.marker.specs.Verdict.{number_of, place_of};
ghost use Rattle.marker.specs.Tests.{length_wrong};
ghost use Rattle.marker.specs.Mark.{submission_mark, mark_of, mark_number, mark_place};

mod checks;
mod content;
mod reader;
mod seen;

use groups::bytes::SIZE as GROUP;
use keys::{Key, KeyError};

// Bytes of the longest submission.
const LIMIT: usize = 13312;

// The answers 0 to 7, those with a place hold it. An enum with names of its own and no Result: the eight are the lines
// of the table, and which of them holds is all that is asked.
#[derive(Clone, Copy, PartialEq, Eq)]
pub enum Verdict {
    Passed,
    NoKey,
    BadKey,
    BadLength,
    BadBlock(usize),
    BadHeader(usize),
    BadContent(usize),
    Missing(u8),
}

// The answer for an exercise's submission.
pub fn mark(sheet: &[u8], exercise: usize, submission: &[u8]) -> Verdict
    ensures { (result ≡ mark_of sheet.now exercise submission.now)
        × (number_of result ≡ mark_number sheet.now exercise submission.now)
        × (place_of result ≡ mark_place sheet.now exercise submission.now) }
{
    match keys::key_of(sheet, exercise) {
        Err(KeyError::NoKey) => Verdict::NoKey,
        Err(KeyError::BadKey) => Verdict::BadKey,
        Ok(key) => mark_submission(key, submission),
    }
}

// The number of an answer.
pub fn number(verdict: Verdict) -> u8
    ensures { result ≡ number_of verdict }
{
    match verdict {
        Verdict::Passed => 0,
        Verdict::NoKey => 1,
        Verdict::BadKey => 2,
        Verdict::BadLength => 3,
        Verdict::BadBlock(_) => 4,
        Verdict::BadHeader(_) => 5,
        Verdict::BadContent(_) => 6,
        Verdict::Missing(_) => 7,
    }
}

// The place of an answer.
pub fn place(verdict: Verdict) -> usize
    ensures { result ≡ place_of verdict }
{
    match verdict {
        Verdict::Passed | Verdict::NoKey | Verdict::BadKey | Verdict::BadLength => 0,
        Verdict::BadBlock(block) => block,
        Verdict::BadHeader(group) | Verdict::BadContent(group) => group,
        Verdict::Missing(address) => usize::from(address),
    }
}

// The answer against a good key: the length, then the blocks, then the content.
fn mark_submission(key: Key, submission: &[u8]) -> Verdict
    ensures { result ≡ submission_mark key.bytes submission.now }
{
    if length_wrong(submission) {
        return Verdict::BadLength;
    }
    match checks::first_bad_block(submission) {
        Some(block) => Verdict::BadBlock(block),
        None => content::mark_content(key, submission),
    }
}

// Answer 3.
fn length_wrong(submission: &[u8]) -> bool
    ensures { result ≡ length_wrong submission.now }
{
    let size = submission.len();
    size == 0 || size % GROUP != 0 || size > LIMIT
}

// The content of a submission, by words alone and whatever their checks: answers 5 and 6 group by group, then 7.
ghost use Rattle.std.specs.Prelude.{◌≡◌, ◌<◌, get_or};
ghost use Rattle.keys.specs.Wanted.{wanted_address};
ghost use Rattle.marker.specs.Submission.{groups_in};
ghost use Rattle.marker.specs.Tests.{header_wrong, unlike, name_wrong, text_wrong, content_wrong};
ghost use Rattle.marker.specs.Steps.{heading_of, step_of};
ghost use Rattle.marker.specs.Mark.{content_mark};

use crate::seen::TEXT;
use crate::{Verdict, reader, seen};
use groups::PLACES;
use groups::bytes::SIZE as GROUP;
use groups::fields::Content;
use keys::Key;

// The answers 5 and 6 group by group, then 7. Words are read whatever their checks.
pub(crate) fn mark_content(key: Key, submission: &[u8]) -> Verdict
    ensures { result ≡ content_mark key.bytes submission.now }
{
    let mut held = None;
    let mut mask = 0;
    for group in 0..submission.len() / GROUP {
        match take_group(key, submission, group, held) {
            Ok(content) => {
                held = seen::held_after(held, content);
                mask = seen::seen_after(mask, content);
            }
            Err(verdict) => return verdict,
        }
    }
    seen::missing(key, mask)
}

// What a group that is right carries, or the answer that it gets: a header that is wrong is answered 5 and the group
// not looked at further; else 6 if its content is wrong.
fn take_group(
    key: Key,
    submission: &[u8],
    group: usize,
    held: Option<bool>,
) -> Result<Content, Verdict>
    requires { group < groups_in submission.now }
    ensures { result ≡ step_of key.bytes submission.now group held }
{
    let block = PLACES * group;
    let words = [
        reader::word_in(submission, block),
        reader::word_in(submission, block + 1),
        reader::word_in(submission, block + 2),
        reader::word_in(submission, block + 3),
    ];
    let Some(content) = read_header(key, words) else {
        return Err(Verdict::BadHeader(group));
    };
    if content_wrong(key, held, content) {
        return Err(Verdict::BadContent(group));
    }
    Ok(content)
}

// What the group carries; nothing where PI, TP, PTY or the third word is wrong.
fn read_header(key: Key, words: [u16; 4]) -> Option<Content>
    ensures { result ≡ heading_of key.bytes (get_or words 0 0) (get_or words 1 0) (get_or words 2 0) (get_or words 3 0) }
{
    if header_wrong(key, words) {
        return None;
    }
    Some(groups::fields::content_from(words[1], words[2], words[3]))
}

// PI, TP or PTY not the key's, or version 1 and third word not the key's PI.
fn header_wrong(key: Key, words: [u16; 4]) -> bool
    ensures { result ≡ header_wrong key.bytes (get_or words 0 0) (get_or words 1 0) (get_or words 2 0) }
{
    let header = groups::fields::header_from(words[0], words[1]);
    let pi = keys::pi(key);
    header.pi != pi
        || header.tp != keys::tp(key)
        || header.pty != keys::pty(key)
        || header.version == 1 && words[2] != pi
}

// Answer 6. Each case is named, so that one more is looked at here.
fn content_wrong(key: Key, held: Option<bool>, content: Content) -> bool
    ensures { result ≡ content_wrong key.bytes held content }
{
    match content {
        Content::Name0A { address, pair, .. } | Content::Name0B { address, pair, .. } => {
            name_wrong(key, address, pair)
        }
        Content::Text2A {
            flag,
            address,
            first,
            second,
        } => text_wrong(key, held, flag, address, first, second),
        Content::Text2B { .. } => true,
        Content::Clock4A | Content::Other => false,
    }
}

// A name pair that is not the key's.
fn name_wrong(key: Key, address: u8, pair: u16) -> bool
    ensures { result ≡ name_wrong key.bytes address pair }
{
    pair != keys::name_pair(key, address)
}

// A 2A that is not wanted, whose text is not the key's, or whose flag is unlike the first 2A's.
fn text_wrong(
    key: Key,
    held: Option<bool>,
    flag: bool,
    address: u8,
    first: u16,
    second: u16,
) -> bool
    ensures { result ≡ text_wrong key.bytes held flag address first second }
{
    if !is_wanted(key, TEXT + usize::from(address)) {
        return true;
    }
    let pair = 2 * address;
    first != keys::text_pair(key, pair)
        || second != keys::text_pair(key, pair + 1)
        || is_unlike(held, flag)
}

// An address that the key wants.
fn is_wanted(key: Key, address: usize) -> bool
    ensures { result ≡ wanted_address key.bytes address }
{
    address < usize::from(keys::addresses(key))
}

// A flag unlike the first 2A's.
#[tactic(auto, unfolding(crate::specs::Tests::unlike))]
fn is_unlike(held: Option<bool>, flag: bool) -> bool
    ensures { result ≡ unlike held flag }
{
    held.is_some_and(|first| flag != first)
}

// What a group's content does to each part of the record: name, text, AF list, clock. Each part names every content, so
// that it is looked at again when there is a new one.
ghost use Rattle.std.specs.Prelude.{◌≡◌};
ghost use Rattle.groups.specs.Group.{word_of};
ghost use Rattle.station.specs.Update.{name_after, text_stored, text_for, text_after};
ghost use Rattle.station.specs.Update.{af_list_after, clock_after};

use crate::{Name, Text};
use clock::Clock;
use frequencies::AfList;
use groups::Group;
use groups::fields::Content;

// The name after a group's content: 0A and 0B store a pair.
#[tactic(auto, unfolding(crate::specs::Update::name_after))]
pub(crate) fn with_name(name: Name, content: Content) -> Name
    ensures { result ≡ name_after name content }
{
    match content {
        Content::Name0A { address, pair, .. } | Content::Name0B { address, pair, .. } => {
            name.stored(usize::from(address), pair)
        }
        Content::Text2A { .. } | Content::Text2B { .. } | Content::Clock4A | Content::Other => name,
    }
}

// The text with a pair of characters stored and marked seen.
#[tactic(auto, unfolding(crate::specs::Update::text_stored))]
fn text_stored(text: Text, pair: usize, word: u16) -> Text
    ensures { result ≡ text_stored text pair word }
{
    Text {
        pairs: text.pairs.stored(pair, word),
        flag: text.flag,
    }
}

// The text that a group with this flag goes into: cleared where another flag is held; the group's flag is held.
#[tactic(auto, unfolding(crate::specs::Update::text_for, crate::specs::Update::holds_other))]
fn text_for(text: Text, flag: bool) -> Text
    ensures { result ≡ text_for text flag }
{
    match text.flag {
        Some(held) if held != flag => crate::no_text(Some(flag)),
        _ => Text {
            flag: Some(flag),
            ..text
        },
    }
}

// The text after a group's content: 2A stores two pairs, 2B one, after the flag was looked at.
#[tactic(auto, unfolding(crate::specs::Update::text_after))]
pub(crate) fn with_text(text: Text, content: Content) -> Text
    ensures { result ≡ text_after text content }
{
    match content {
        Content::Text2A {
            flag,
            address,
            first,
            second,
        } => {
            let at = 2 * usize::from(address);
            let half = text_stored(text_for(text, flag), at, first);
            text_stored(half, at + 1, second)
        }
        Content::Text2B {
            flag,
            address,
            pair,
        } => text_stored(text_for(text, flag), usize::from(address), pair),
        Content::Name0A { .. } | Content::Name0B { .. } | Content::Clock4A | Content::Other => text,
    }
}

// The AF list after a group's content: 0A gives it a word.
#[tactic(auto, unfolding(crate::specs::Update::af_list_after))]
pub(crate) fn with_af(list: AfList, content: Content) -> AfList
    ensures { result ≡ af_list_after list content }
{
    match content {
        Content::Name0A { af, .. } => frequencies::taken(list, af),
        Content::Name0B { .. }
        | Content::Text2A { .. }
        | Content::Text2B { .. }
        | Content::Clock4A
        | Content::Other => list,
    }
}

// The clock after a group's content: 4A stores one in range, and where it is out of range the held one stays.
#[tactic(auto, unfolding(crate::specs::Update::clock_after, crate::specs::Update::clock_or))]
pub(crate) fn with_clock(held: Option<Clock>, content: Content, group: Group) -> Option<Clock>
    ensures { result ≡ clock_after held content (word_of group 1) (word_of group 2) (word_of group 3) }
{
    match content {
        Content::Clock4A => {
            let came = clock::read(
                groups::word(group, 1),
                groups::word(group, 2),
                groups::word(group, 3),
            );
            came.or(held)
        }
        Content::Name0A { .. }
        | Content::Name0B { .. }
        | Content::Text2A { .. }
        | Content::Text2B { .. }
        | Content::Other => held,
    }
}

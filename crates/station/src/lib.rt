// The station record: what the groups taken in so far say of the one station that is heard. Only groups with all four
// blocks good change it; it refuses nothing but a local date and time, as `clock` does.
#![tactic(auto)]

ghost use Rattle.std.specs.Prelude.{◌≡◌};
ghost use Rattle.station.specs.Record.{no_text, fresh_with, fresh_of};
ghost use Rattle.station.specs.Update.{held_for, filled_of, updated_of};

pub mod pairs;
pub mod read;
mod stored;

use clock::Clock;
use frequencies::AfList;
use groups::Group;
use pairs::Pairs;

// The characters of the name and of the text, and their pairs.
const NAME_SIZE: usize = 8;

const NAME_PAIRS: usize = 4;

const TEXT_SIZE: usize = 64;

const TEXT_PAIRS: usize = 32;

// The name.
pub type Name = Pairs<NAME_SIZE, NAME_PAIRS>;

// The text, and the flag of the latest text group, if one came.
#[derive(Clone, Copy)]
pub struct Text {
    pub pairs: Pairs<TEXT_SIZE, TEXT_PAIRS>,
    pub flag: Option<bool>,
}

// All that is held of a station: of the PI and the clock none before one came.
#[derive(Clone, Copy)]
pub struct Record {
    pub pi: Option<u16>,
    pub pty: u8,
    pub tp: bool,
    pub name: Name,
    pub text: Text,
    pub af: AfList,
    pub clock: Option<Clock>,
}

// A text of spaces, none seen, with the flag given.
fn no_text(flag: Option<bool>) -> Text
    ensures { result ≡ no_text flag }
{
    Text {
        pairs: Pairs::none(),
        flag,
    }
}

// A fresh record, but for the PI given.
fn fresh_with(pi: Option<u16>) -> Record
    ensures { result ≡ fresh_with pi }
{
    Record {
        pi,
        pty: 0,
        tp: false,
        name: Pairs::none(),
        text: no_text(None),
        af: frequencies::empty(),
        clock: None,
    }
}

// The record before any group.
pub fn fresh() -> Record
    ensures { result ≡ fresh_of }
{
    fresh_with(None)
}

// The record that a group with this PI goes into: the one given, or a fresh one where its PI is missing or different.
#[tactic(auto, unfolding(crate::specs::Update::held_for, crate::specs::Update::holds_pi))]
fn held_for(station: Record, pi: u16) -> Record
    ensures { result ≡ held_for station pi }
{
    if station.pi == Some(pi) {
        station
    } else {
        fresh_with(Some(pi))
    }
}

// The record with what a group says, whose PI it holds.
#[tactic(auto, unfolding(crate::specs::Update::filled_of))]
fn filled(station: Record, group: Group) -> Record
    ensures { result ≡ filled_of station group }
{
    let header = groups::fields::header_of(group);
    let content = groups::fields::content_of(group);
    Record {
        pi: station.pi,
        pty: header.pty,
        tp: header.tp,
        name: stored::with_name(station.name, content),
        text: stored::with_text(station.text, content),
        af: stored::with_af(station.af, content),
        clock: stored::with_clock(station.clock, content, group),
    }
}

// The record after a group.
#[tactic(auto, unfolding(crate::specs::Update::updated_of))]
pub fn updated(station: Record, group: Group) -> Record
    ensures { result ≡ updated_of station group }
{
    if !groups::counts(group) {
        return station;
    }
    let held = held_for(station, groups::word(group, 0));
    filled(held, group)
}

// Takes a group into the one record that is lent.
pub fn take_in(station: &mut Record, group: Group)
    ensures { station.new ≡ updated_of station.old group }
{
    *station = updated(*station, group);
}

// The record after a group, taken into a record of its own.
pub fn taken(station: Record, group: Group) -> Record
    ensures { result ≡ updated_of station group }
{
    let mut own = station;
    take_in(&mut own, group);
    own
}

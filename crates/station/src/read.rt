// What a record holds, part by part, and its local date and time. Refused, as answer 10: the date where no clock is
// held, or the UTC or local day is out of range.
ghost use Rattle.std.specs.Prelude.{◌≡◌, cond, []};
ghost use Rattle.clock.specs.Words.{number_of_held, values_of_held};
ghost use Rattle.clock.specs.Local.{local_date_of, date_refused, date_values, number_of_local, values_of_local};
ghost use Rattle.station.specs.Record.{number_of_pi, values_of_pi, number_of_flag, values_of_flag};
ghost use Rattle.station.specs.Record.{pi_of, pty_of, tp_of, name_characters_of, name_seen_of};
ghost use Rattle.station.specs.Record.{text_characters_of, text_seen_of, text_flag_of, af_list_of, held_clock_of};

use crate::Record;
use clock::{Clock, DateTime, OutOfRange};
use frequencies::AfList;

// The PI held, or none.
#[tactic(auto, unfolding(crate::specs::Record::number_of_pi))]
pub fn pi(station: Record) -> Option<u16>
    ensures { (result ≡ pi_of station) × (number_of_pi result ≡ 0) × (values_of_pi result ≡ values_of_pi station.pi) }
{
    station.pi
}

// The PTY held.
pub fn pty(station: Record) -> u8
    ensures { result ≡ pty_of station }
{
    station.pty
}

// The TP held.
pub fn tp(station: Record) -> bool
    ensures { result ≡ tp_of station }
{
    station.tp
}

// The characters of the name. Name and text have readers of their own, a line each: a caller names the one that it shows.
pub fn name_characters(station: Record) -> [u8; crate::NAME_SIZE]
    ensures { result ≡ name_characters_of station }
{
    station.name.characters
}

// For each pair of the name's characters whether it was seen.
pub fn name_seen(station: Record) -> [bool; crate::NAME_PAIRS]
    ensures { result ≡ name_seen_of station }
{
    station.name.seen
}

// The characters of the text.
pub fn text_characters(station: Record) -> [u8; crate::TEXT_SIZE]
    ensures { result ≡ text_characters_of station }
{
    station.text.pairs.characters
}

// For each pair of the text's characters whether it was seen.
pub fn text_seen(station: Record) -> [bool; crate::TEXT_PAIRS]
    ensures { result ≡ text_seen_of station }
{
    station.text.pairs.seen
}

// The text flag held, or none.
#[tactic(auto, unfolding(crate::specs::Record::number_of_flag))]
pub fn text_flag(station: Record) -> Option<bool>
    ensures { (result ≡ text_flag_of station) × (number_of_flag result ≡ 0)
        × (values_of_flag result ≡ values_of_flag station.text.flag) }
{
    station.text.flag
}

// The list of alternative frequencies.
pub fn af_list(station: Record) -> AfList
    ensures { result ≡ af_list_of station }
{
    station.af
}

// The clock held, or none.
#[tactic(auto, unfolding(clock::specs::Words::number_of_held))]
pub fn held_clock(station: Record) -> Option<Clock>
    ensures { (result ≡ held_clock_of station) × (number_of_held result ≡ 0)
        × (values_of_held result ≡ values_of_held station.clock) }
{
    station.clock
}

// The local date and time of the clock held.
pub fn local_date(station: Record) -> Result<DateTime, OutOfRange>
    ensures { (result ≡ local_date_of station.clock) × (number_of_local result ≡ cond (date_refused station.clock) 10 0)
        × (values_of_local result ≡ cond (date_refused station.clock) [] (date_values station.clock)) }
{
    clock::local_date(station.clock)
}

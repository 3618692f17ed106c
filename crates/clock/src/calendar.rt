// The Gregorian date and the weekday of a local day.
ghost use Rattle.std.specs.Prelude.{◌≡◌};
ghost use Rattle.clock.specs.Range.{InDays};
ghost use Rattle.clock.specs.Calendar.{date_of, weekday_of};

use crate::LocalDay;
use crate::range::FIRST_DAY;

#[derive(Clone, Copy)]
pub(crate) struct CalendarDate {
    pub(crate) year: u16,
    pub(crate) month: u8,
    pub(crate) day: u8,
}

const FIRST_YEAR: u32 = 1900;

const DAYS_OF_FOUR_YEARS: u32 = 1461;

const DAYS_OF_FIVE_MONTHS: u32 = 153;

// The first day in range is 1 March 1900, and up to the last one every fourth year is a leap year. Years are counted
// from March, so that the leap day ends a year; from March on every five months have the same days.
pub(crate) fn date(local: LocalDay) -> CalendarDate
    requires { InDays local.0 }
    ensures { result ≡ date_of local }
{
    let since = local.0 - FIRST_DAY;
    let years = (4 * since + 3) / DAYS_OF_FOUR_YEARS;
    let days = since - years * DAYS_OF_FOUR_YEARS / 4;
    let months = (5 * days + 2) / DAYS_OF_FIVE_MONTHS;
    CalendarDate {
        year: (FIRST_YEAR + years + months / 10) as u16,
        month: ((months + 2) % 12 + 1) as u8,
        day: (days - (months * DAYS_OF_FIVE_MONTHS + 2) / 5 + 1) as u8,
    }
}

// Monday is 1.
#[tactic(auto, unfolding(crate::specs::Calendar::weekday_of))]
pub(crate) fn weekday(local: LocalDay) -> u8
    ensures { result ≡ weekday_of local }
{
    ((local.0 % 7 + 2) % 7 + 1) as u8
}

// The ranges of a clock's fields.
ghost use Rattle.std.specs.Prelude.{◌≡◌};
ghost use Rattle.clock.specs.Range.{in_days, in_range};

use crate::Clock;

pub(crate) const FIRST_DAY: u32 = 15079;

const LAST_DAY: u32 = 88127;

const LAST_HOUR: u8 = 23;

const LAST_MINUTE: u8 = 59;

const LAST_HALF: u8 = 24;

pub(crate) const LAST_PTY: u8 = 31;

#[tactic(auto, unfolding(crate::specs::Range::in_days))]
pub(crate) fn in_days(day: u32) -> bool
    ensures { result ≡ in_days day }
{
    (FIRST_DAY..=LAST_DAY).contains(&day)
}

#[tactic(auto, unfolding(crate::specs::Range::in_range))]
pub(crate) fn in_range(clock: Clock) -> bool
    ensures { result ≡ in_range clock }
{
    in_days(clock.day.0)
        && clock.hour <= LAST_HOUR
        && clock.minute <= LAST_MINUTE
        && clock.half <= LAST_HALF
}

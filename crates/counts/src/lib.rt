// The counts of a recording: groups, bad groups, locks and losses, one update for each answer of the receiver.
#![tactic(auto)]

ghost use Rattle.std.specs.Prelude.{◌≡◌, cond};
ghost use Rattle.groups.specs.Group.{is_all_good_of};
ghost use Rattle.counts.specs.Counts.{no_counts, more_of, with_lock, with_loss, with_group, counted_of};

use groups::Group;
use receiver::Answer;

#[derive(Clone, Copy)]
pub struct Counts {
    pub groups: u64,
    pub bad: u64,
    pub locks: u64,
    pub losses: u64,
}

// Nothing has come.
pub fn none() -> Counts
    ensures { result ≡ no_counts }
{
    Counts {
        groups: 0,
        bad: 0,
        locks: 0,
        losses: 0,
    }
}

// One more; the largest count stays.
fn more(count: u64) -> u64
    ensures { result ≡ more_of count }
{
    count.saturating_add(1)
}

// A lock more, or a loss: another field each, and a line each.
fn with_lock(counts: Counts) -> Counts
    ensures { result ≡ with_lock counts }
{
    Counts {
        locks: more(counts.locks),
        ..counts
    }
}

fn with_loss(counts: Counts) -> Counts
    ensures { result ≡ with_loss counts }
{
    Counts {
        losses: more(counts.losses),
        ..counts
    }
}

// The bad groups with a group more.
fn bad_with(bad: u64, group: Group) -> u64
    ensures { result ≡ cond (is_all_good_of group) bad (more_of bad) }
{
    if groups::is_all_good(group) {
        bad
    } else {
        more(bad)
    }
}

fn with_group(counts: Counts, group: Group) -> Counts
    ensures { result ≡ with_group counts group }
{
    Counts {
        groups: more(counts.groups),
        bad: bad_with(counts.bad, group),
        ..counts
    }
}

// The counts after an answer of the receiver; a group that is answered counts.
pub fn counted(counts: Counts, answer: Answer) -> Counts
    ensures { result ≡ counted_of counts answer }
{
    match answer {
        Answer::Nothing => counts,
        Answer::Locked => with_lock(counts),
        Answer::Group(group) => with_group(counts, group),
        Answer::Lost => with_loss(counts),
        Answer::GroupAndLost(group) => with_loss(with_group(counts, group)),
        Answer::Refused => counts,
    }
}

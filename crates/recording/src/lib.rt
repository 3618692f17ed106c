// What is heard of a recording, from answer to answer, and the lines that are told of it, each in a buffer that always
// has room for it. There is no io here.
#![tactic(auto)]

ghost use Rattle.std.specs.Prelude.{◌≡◌, ◌≤◌, length};
ghost use Rattle.letters.specs.Letters.{Wrote};
ghost use Rattle.recording.specs.Ear.{fresh_ear, heard_of};
ghost use Rattle.recording.specs.Lines.{bit_before, bits_after, group_line, lock_line_of, record_text, counts_text};

use counts::Counts;
use receiver::{Advanced, Answer, Receiver};
use station::Record;
use telling::{GROUP_ROOM, LINE_ROOM, STATION_ROOM};

// What is kept from bit to bit: the receiver, the station record, and the counts.
#[derive(Clone, Copy)]
pub struct Ear {
    pub receiver: Receiver,
    pub station: Record,
    pub counts: Counts,
}

const BYTE_BITS: u64 = 8;

// Nothing has come.
pub fn fresh() -> Ear
    ensures { result ≡ fresh_ear }
{
    Ear {
        receiver: Receiver::new(),
        station: station::fresh(),
        counts: counts::none(),
    }
}

// After an answer: the receiver's next state, the record with the group, and the counts with the answer.
pub fn heard(ear: Ear, taken: Advanced) -> Ear
    ensures { result ≡ heard_of ear taken }
{
    Ear {
        receiver: taken.next,
        station: station::updated(ear.station, taken.answer.group()),
        counts: counts::counted(ear.counts, taken.answer),
    }
}

// How many bits came, with so many bytes more; numbers go round at 2 to the 64.
pub fn bits_after(before: u64, bytes: usize) -> u64
    ensures { result ≡ bits_after before bytes }
{
    before.wrapping_add((bytes as u64).wrapping_mul(BYTE_BITS))
}

// The line of an answer's group, unless the summary alone is asked for.
pub fn group_line(ear: Ear, taken: Advanced, short: bool, out: &mut [u8; GROUP_ROOM]) -> usize
    ensures { Wrote out.old 0 (group_line short ear taken) out.new result
        × (result ≤ length out.new) }
{
    if short {
        return 0;
    }
    // An arm for each of the two that bring a group, so that a wrong line of one alone can be tried (locks_for_groups).
    match taken.answer {
        Answer::Group(group) => letters::written(telling::group(ear.counts.groups, group, out)),
        Answer::GroupAndLost(group) => {
            letters::written(telling::group(ear.counts.groups, group, out))
        }
        Answer::Nothing | Answer::Locked | Answer::Lost | Answer::Refused => 0,
    }
}

// The line of a lock that an answer took or lost, likewise; so many bits came before the piece.
pub fn lock_line(taken: Advanced, before: u64, short: bool, out: &mut [u8; LINE_ROOM]) -> usize
    ensures { Wrote out.old 0 (lock_line_of short before taken) out.new result
        × (result ≤ length out.new) }
{
    if short {
        return 0;
    }
    let bit = bit_before(before, taken.byte, taken.bit);
    match taken.answer {
        Answer::Locked => letters::written(telling::lock(bit, out)),
        Answer::Lost | Answer::GroupAndLost(_) => letters::written(telling::lost(bit, out)),
        Answer::Nothing | Answer::Group(_) | Answer::Refused => 0,
    }
}

// The lines of the station record.
pub fn record_lines(ear: Ear, out: &mut [u8; STATION_ROOM]) -> usize
    ensures { Wrote out.old 0 (record_text ear) out.new result
        × (result ≤ length out.new) }
{
    letters::written(telling::record_lines(ear.station, out))
}

// The lines of the counts.
pub fn count_lines(ear: Ear, out: &mut [u8; LINE_ROOM]) -> usize
    ensures { Wrote out.old 0 (counts_text ear) out.new result
        × (result ≤ length out.new) }
{
    letters::written(telling::count_lines(ear.counts, out))
}

// The number of the bit before a place, where so many bits came before the piece.
fn bit_before(before: u64, byte: usize, bit: u8) -> u64
    ensures { result ≡ bit_before before byte bit }
{
    bits_after(before, byte)
        .wrapping_add(u64::from(bit))
        .wrapping_sub(1)
}

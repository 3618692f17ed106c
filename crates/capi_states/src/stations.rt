// The station record after the groups in some bytes, as numbers of eight bytes each in a buffer. A group is nine bytes:
// four words, high byte first, and a byte whose low four bits say which were good, bit 3 for the first.
// Refused, with number 8: a buffer that is too short. It is then as it was.
ghost use Rattle.std.specs.Prelude.{◌≡◌, cond, ◌+◌, ◌*◌, ◌<◌, ◌≤◌, ltb, length};
ghost use Rattle.capi_states.specs.Stations.{judged_of, pair_at, group_at, record_in, pi_code, flag_code};
ghost use Rattle.capi_states.specs.Stations.{head_of, shown_number, number_of, byte_of};
ghost use Rattle.capi_states.specs.Stations.{record_size, record_buffer};

use blocks::{BlockError, Judged};
use groups::Group;
use station::Record;

// The bytes of a group.
const GROUP_SIZE: usize = 9;

// The numbers in front of the name's, the text's and the AF list's.
const NAME_AT: usize = 6;

const TEXT_AT: usize = 18;

const LIST_AT: usize = 114;

// The bytes of all numbers.
const RECORD_SIZE: usize = 1128;

// The number of the refusal: a caller in C is answered one number, and knows no `Result`.
const TOO_SHORT: u8 = 8;

// The record of the groups in some bytes, into a buffer.
#[tactic(auto, unfolding(crate::specs::Stations::record_buffer))]
pub fn bench_record(bytes: &[u8], out: &mut [u8]) -> u8
    ensures { (result ≡ cond (ltb (length out.old) record_size) 8 0)
        × (out.new ≡ record_buffer (record_in bytes.now) out.old) }
{
    if out.len() < RECORD_SIZE {
        return TOO_SHORT;
    }
    put_record(record_of(bytes), out);
    0
}

// A block with a word, good where the mark's last bit is 1.
fn judged(mark: u8, word: u16) -> Judged
    ensures { result ≡ judged_of mark word }
{
    if mark % 2 == 1 {
        return Ok(word);
    }
    Err(BlockError::Bad)
}

// The word at a place.
fn pair_at(bytes: &[u8], at: usize) -> u16
    requires { at + 2 ≤ length bytes.now }
    ensures { result ≡ pair_at bytes.now at }
{
    capi::af::word_of(bytes[at], bytes[at + 1])
}

// The group at a place.
#[tactic(auto, unfolding(crate::specs::Stations::group_at))]
fn group_at(bytes: &[u8], at: usize) -> Group
    requires { at + 9 ≤ length bytes.now }
    ensures { result ≡ group_at bytes.now at }
{
    let mask = bytes[at + 8];
    let one = groups::with_block(groups::empty(), 0, judged(mask / 8, pair_at(bytes, at)));
    let two = groups::with_block(one, 1, judged(mask / 4, pair_at(bytes, at + 2)));
    let three = groups::with_block(two, 2, judged(mask / 2, pair_at(bytes, at + 4)));
    groups::with_block(three, 3, judged(mask, pair_at(bytes, at + 6)))
}

// The record of the groups in some bytes.
fn record_of(bytes: &[u8]) -> Record
    ensures { result ≡ record_in bytes.now }
{
    let mut station = station::fresh();
    for group in bytes.chunks_exact(GROUP_SIZE) {
        station = station::taken(station, group_at(group, 0));
    }
    station
}

// The PI held.
fn pi_code(pi: Option<u16>) -> u64
    ensures { result ≡ pi_code pi }
{
    pi.map_or(0, |word| 0x10000 + u64::from(word))
}

// The text flag held.
fn flag_code(flag: Option<bool>) -> u64
    ensures { result ≡ flag_code flag }
{
    flag.map_or(0, |on| 2 + u64::from(on))
}

// The numbers in front.
fn head(station: Record, n: usize) -> u64
    ensures { result ≡ head_of station n }
{
    match n {
        0 => pi_code(station::read::pi(station)),
        1 => u64::from(station::read::pty(station)),
        2 => u64::from(station::read::tp(station)),
        3 => flag_code(station::read::text_flag(station)),
        4 => capi::times::held_code(station::read::held_clock(station)),
        _ => capi::times::local_code(station::read::local_date(station)),
    }
}

// The numbers of a name or a text: its characters, then which pairs of them were seen.
fn shown_number(characters: &[u8], seen: &[bool], n: usize) -> u64
    requires { n < length characters.now + length seen.now }
    ensures { result ≡ shown_number characters.now seen.now n }
{
    match characters.get(n) {
        Some(character) => u64::from(*character),
        None => u64::from(seen[n - characters.len()]),
    }
}

// Number n of a record.
#[tactic(auto, unfolding(crate::specs::Stations::number_of))]
fn number(station: Record, n: usize) -> u64
    ensures { result ≡ number_of station n }
{
    if n < NAME_AT {
        head(station, n)
    } else if n < TEXT_AT {
        let name = station.name;
        shown_number(&name.characters, &name.seen, n - NAME_AT)
    } else if n < LIST_AT {
        let text = station.text.pairs;
        shown_number(&text.characters, &text.seen, n - TEXT_AT)
    } else {
        u64::from(capi::af::list_code(station.af, n - LIST_AT))
    }
}

// Byte i of its numbers.
fn byte(station: Record, i: usize) -> u8
    ensures { result ≡ byte_of station i }
{
    number(station, i / 8).to_be_bytes()[i % 8]
}

// The numbers of a record into a buffer that has room for them. The places are counted, since of a buffer that is lent to
// a chain of iterators a proof knows no more than the length.
fn put_record(station: Record, out: &mut [u8])
    requires { record_size ≤ length out.old }
    ensures { out.new ≡ record_buffer station out.old }
{
    for i in 0..RECORD_SIZE {
        out[i] = byte(station, i);
    }
}

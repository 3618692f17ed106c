// AF codes and their frequencies, and the list of alternative frequencies that the words of 0A build up.
// Refused, as answer 11: the frequency of a code that has none, and the code of a frequency that none has.
#![tactic(auto)]

ghost use Rattle.std.specs.Prelude.{◌≡◌, cond};
ghost use Rattle.frequencies.specs.Frequency.{refused, khz_of, no_frequency, frequency_of};
ghost use Rattle.frequencies.specs.Frequency.{frequency_number, frequency_value};
ghost use Rattle.frequencies.specs.Frequency.{no_code, steps_above, code_of, code_number, code_value};
ghost use Rattle.frequencies.specs.AfList.{af_code, af_word, expecting, appended_of, told_of};
ghost use Rattle.frequencies.specs.AfList.{empty_of, taken_of, held_of, expected_of, at_of};

// The codes of frequencies: each stands for BASE + STEP times itself, in kHz.
const FIRST_CODE: u8 = 1;

const LAST_CODE: u8 = 204;

const BASE: u32 = 87_500;

const STEP: u32 = 100;

// The count codes: the code of none, and those of 1 to 25.
const NONE_EXPECTED: u8 = 224;

const FIRST_COUNT: u8 = 225;

const LAST_COUNT: u8 = 249;

// As many frequencies as the highest count.
const SLOTS: usize = 25;

// Refused, as answer 11: a code that has no frequency.
#[derive(Clone, Copy, PartialEq, Eq, Debug)]
pub struct NoFrequency;

// Refused, as answer 11: a frequency that has no code.
#[derive(Clone, Copy, PartialEq, Eq, Debug)]
pub struct NoCode;

// What a code tells a list.
#[derive(Clone, Copy)]
pub enum Meaning {
    // The list is emptied, and so many are expected.
    Count(u8),
    // A frequency, in kHz.
    Frequency(u32),
    NoChange,
}

// What the two codes of a word tell a list, one after the other.
#[derive(Clone, Copy)]
pub struct WordMeaning {
    pub first: Meaning,
    pub second: Meaning,
}

// The frequencies held, in order of arrival, with 0 in every slot that is not held, and how many are expected. The
// slots are fixed, with the number held beside them, since a list is a value that takes no memory of its own.
#[derive(Clone, Copy)]
pub struct AfList {
    pub khz: [u32; SLOTS],
    pub held: u8,
    pub expected: u8,
}

// What a code means to a list.
#[tactic(auto, unfolding(crate::specs::AfList::af_code))]
fn af_code(code: u8) -> Meaning
    ensures { result ≡ af_code code }
{
    match code {
        FIRST_COUNT..=LAST_COUNT => Meaning::Count(code - NONE_EXPECTED),
        NONE_EXPECTED => Meaning::Count(0),
        FIRST_CODE..=LAST_CODE => Meaning::Frequency(BASE + STEP * u32::from(code)),
        _ => Meaning::NoChange,
    }
}

// What the two codes of a word mean together: each by itself, high byte first.
#[tactic(auto, unfolding(crate::specs::AfList::af_word))]
fn af_word(word: u16) -> WordMeaning
    ensures { result ≡ af_word word }
{
    let [high, low] = word.to_be_bytes();
    WordMeaning {
        first: af_code(high),
        second: af_code(low),
    }
}

// The frequency of a code, or refusal 11: the one that it means to a list.
#[tactic(auto, unfolding(crate::specs::Frequency::frequency_of, crate::specs::AfList::af_code))]
pub fn frequency(code: u8) -> Result<u32, NoFrequency>
    ensures { (result ≡ frequency_of code)
        × (frequency_number result ≡ cond (no_frequency code) refused 0)
        × (frequency_value result ≡ cond (no_frequency code) 0 (khz_of code)) }
{
    match af_code(code) {
        Meaning::Frequency(khz) => Ok(khz),
        Meaning::Count(_) | Meaning::NoChange => Err(NoFrequency),
    }
}

// The code of a frequency, or refusal 11.
#[tactic(auto, unfolding(crate::specs::Frequency::code_of))]
pub fn code(khz: u32) -> Result<u8, NoCode>
    ensures { (result ≡ code_of khz)
        × (code_number result ≡ cond (no_code khz) refused 0)
        × (code_value result ≡ cond (no_code khz) 0 (steps_above khz)) }
{
    let above = khz.checked_sub(BASE).ok_or(NoCode)?;
    if above % STEP != 0 {
        return Err(NoCode);
    }
    match u8::try_from(above / STEP) {
        Ok(code @ FIRST_CODE..=LAST_CODE) => Ok(code),
        _ => Err(NoCode),
    }
}

// A list that holds none and expects so many.
fn expecting_only(count: u8) -> AfList
    ensures { result ≡ expecting count }
{
    AfList {
        khz: [0u32; SLOTS],
        held: 0,
        expected: count,
    }
}

// Appends a frequency, if it is not in the list and fewer are held than expected. The list is lent, here and in `tell`:
// by value it would be copied again and again for each word.
fn append(list: &mut AfList, khz: u32)
    ensures { list.new ≡ appended_of list.old khz }
{
    let at = usize::from(list.held);
    if list.expected <= list.held || SLOTS <= at || list.khz[..at].contains(&khz) {
        return;
    }
    list.khz[at] = khz;
    list.held += 1;
}

// Tells a list one meaning.
#[tactic(auto, unfolding(crate::specs::AfList::told_of))]
fn tell(list: &mut AfList, meaning: Meaning)
    ensures { list.new ≡ told_of list.old meaning }
{
    match meaning {
        Meaning::Count(count) => *list = expecting_only(count),
        Meaning::Frequency(khz) => append(list, khz),
        Meaning::NoChange => {}
    }
}

// A fresh list: none held, none expected.
pub fn empty() -> AfList
    ensures { result ≡ empty_of }
{
    expecting_only(0)
}

// The list after a word: its two codes, high byte first.
#[tactic(auto, unfolding(crate::specs::AfList::taken_of))]
pub fn taken(list: AfList, word: u16) -> AfList
    ensures { result ≡ taken_of list word }
{
    let meanings = af_word(word);
    let mut next = list;
    tell(&mut next, meanings.first);
    tell(&mut next, meanings.second);
    next
}

// How many are held.
pub fn held(list: AfList) -> u8
    ensures { result ≡ held_of list }
{
    list.held
}

// How many are expected.
pub fn expected(list: AfList) -> u8
    ensures { result ≡ expected_of list }
{
    list.expected
}

// Frequency i of those held, in kHz, from 0; 0 where there is none.
pub fn at(list: AfList, i: usize) -> u32
    ensures { result ≡ at_of list i }
{
    match list.khz.get(i) {
        Some(khz) if i < usize::from(list.held) => *khz,
        _ => 0,
    }
}

// The receiver: takes one bit and hands back its state with one answer. Hunts for two blocks that follow each other,
// locks on them, hands out groups, and gives the lock up where too many blocks are bad.
// Refuses, with number 9, a bit that is neither 0 nor 1.
#![tactic(auto)]

ghost use Rattle.std.specs.Prelude.{◌≡◌, cond, ◌<◌};
ghost use Rattle.receiver.specs.Rules.{follower_of, lock_of, say_of};
ghost use Rattle.receiver.specs.Answers.{answer_number, bit_number, group_of};
ghost use Rattle.receiver.specs.Machine.{shift_of, fresh_of, hunting_of, begin_of, place_of, third_place_of, locked_of};
ghost use Rattle.receiver.specs.Machine.{index_of, judge_at_of, after_of, given_of, bad_with_of, counted_of};
ghost use Rattle.receiver.specs.Machine.{hunt_of, end_of, follow_of, step_of};
ghost use Rattle.receiver.specs.Strides.{window_limit, lock_after_of, count_after_of, hunted_of, lock_answer_of};

use blocks::{BlockError, Judged, Kind};
use groups::Group;

mod feeding;

// Hunting; or locked, with the place of the block that is coming and the kind that a third one must have.
#[derive(Clone, Copy, PartialEq, Eq)]
pub enum Place {
    Hunting,
    First,
    Second,
    ThirdC,
    ThirdCPrime,
    ThirdBad,
    Fourth,
}

// What a bit is answered. A group that is answered is in the answer.
#[derive(Clone, Copy, PartialEq, Eq)]
pub enum Answer {
    Nothing,
    Locked,
    Group(Group),
    Lost,
    GroupAndLost(Group),
    Refused,
}

// Two blocks that lock: the kind and word of the older, and the word of the newer.
#[derive(Clone, Copy)]
pub struct Lock {
    pub kind: Kind,
    pub older: u16,
    pub newer: u16,
}

// A run of blocks: how many have come, how many of them were bad, and whether lock is lost with it. A loss has counts
// too, 0 and 0: `counted_of` says all three.
#[derive(Clone, Copy)]
pub struct Run {
    pub run: u8,
    pub bad: u8,
    pub lost: bool,
}

// The receiver's state. `window` holds the last bits as a number, `count` says how many: hunting, of the last 52;
// locked, of the block that is coming. `hand` is the group in hand, where `held` says that there is one. `run` and `bad`
// count the blocks of the run. The hand is no Option: a state is restored from any 25 bytes, and the promise of
// `bench_feed` says the hand's bytes afterwards, also where none is held.
#[derive(Clone, Copy)]
pub struct Receiver {
    pub window: u64,
    pub count: u8,
    pub place: Place,
    pub held: bool,
    pub hand: Group,
    pub run: u8,
    pub bad: u8,
}

// The next state with the answer.
#[derive(Clone, Copy)]
pub struct Step {
    pub next: Receiver,
    pub answer: Answer,
}

// Where feeding bytes stopped: the next state, the answer, and the place of the next bit, its byte and which bit of that
// byte, the highest being 0.
#[derive(Clone, Copy)]
pub struct Advanced {
    pub next: Receiver,
    pub answer: Answer,
    pub byte: usize,
    pub bit: u8,
}

// A place in bytes: a byte, and which bit of it, the highest being 0.
#[derive(Clone, Copy)]
pub struct Spot {
    pub byte: usize,
    pub bit: u8,
}

// The last bits with their count, where the bits up to a place were taken in.
#[derive(Clone, Copy)]
pub struct Filled {
    pub window: u64,
    pub count: u8,
    pub spot: Spot,
}

// The bits of a block, and of the pair that is tried.
const BLOCK_BITS: u8 = 26;

const PAIR_BITS: u8 = 52;

// One more than the largest number of 26 bits, and of 51.
const BLOCK_LIMIT: u64 = 0x4000000;

const KEPT_LIMIT: u64 = 0x8000000000000;

// The blocks of a run, and how many of them may be bad.
const RUN_BLOCKS: u8 = 50;

const BAD_LIMIT: u8 = 45;

// The place of a group's fourth block.
const FOURTH: usize = 3;

// The largest bit.
const ONE: u8 = 1;

// X's follower, by the word of X.
fn follower(kind: Kind, word: u16) -> Kind
    ensures { result ≡ follower_of kind word }
{
    match kind {
        Kind::A => Kind::B,
        Kind::B => groups::third_kind(word),
        Kind::C => Kind::D,
        Kind::CPrime => Kind::D,
        Kind::D => Kind::A,
    }
}

// Lock is taken when the older 26 bits are valid as X and the newer 26 as X's follower.
fn try_lock(older: u32, newer: u32) -> Option<Lock>
    ensures { result ≡ lock_of older newer }
{
    let Ok(Some(block)) = blocks::read(older) else {
        return None;
    };
    let Ok(word) = blocks::judge(newer, follower(block.kind, block.word)) else {
        return None;
    };
    Some(Lock {
        kind: block.kind,
        older: block.word,
        newer: word,
    })
}

// The place that expects a kind.
fn place_of(kind: Kind) -> Place
    ensures { result ≡ place_of kind }
{
    match kind {
        Kind::A => Place::First,
        Kind::B => Place::Second,
        Kind::C => Place::ThirdC,
        Kind::CPrime => Place::ThirdCPrime,
        Kind::D => Place::Fourth,
    }
}

// The place after the second, by how the second block was judged.
fn third_place(second: Judged) -> Place
    ensures { result ≡ third_place_of second }
{
    match second {
        Ok(word2) => place_of(groups::third_kind(word2)),
        Err(_) => Place::ThirdBad,
    }
}

// Hunting, with so many of the last bits.
fn hunting(window: u64, count: u8) -> Receiver
    ensures { result ≡ hunting_of window count }
{
    Receiver {
        window,
        count,
        place: Place::Hunting,
        held: false,
        hand: groups::empty(),
        run: 0,
        bad: 0,
    }
}

// A block begins at a place.
fn begin(place: Place, held: bool, hand: Group, run: u8, bad: u8) -> Receiver
    ensures { result ≡ begin_of place held hand run bad }
{
    Receiver {
        window: 0,
        count: 0,
        place,
        held,
        hand,
        run,
        bad,
    }
}

// The place after a lock, by the kind of the older block and the word of the newer.
fn locked_place(kind: Kind, newer: u16) -> Place
    ensures { result ≡ (locked_of kind 0 newer).place }
{
    match kind {
        Kind::A => third_place(Ok(newer)),
        Kind::B => Place::Fourth,
        Kind::C => Place::First,
        Kind::CPrime => Place::First,
        Kind::D => Place::Second,
    }
}

// Whether a group is in hand after a lock.
fn locked_held(kind: Kind) -> bool
    ensures { result ≡ (locked_of kind 0 0).held }
{
    !matches!(kind, Kind::B)
}

// After A,B the group in hand has two blocks; after D,A it has one.
fn locked_hand(kind: Kind, older: u16, newer: u16) -> Group
    ensures { result ≡ (locked_of kind older newer).hand }
{
    let empty = groups::empty();
    match kind {
        Kind::A => {
            let one = groups::with_block(empty, 0, Ok(older));
            groups::with_block(one, 1, Ok(newer))
        }
        Kind::B => empty,
        Kind::C => empty,
        Kind::CPrime => empty,
        Kind::D => groups::with_block(empty, 0, Ok(newer)),
    }
}

// The state after a lock.
fn locked(kind: Kind, older: u16, newer: u16) -> Receiver
    ensures { result ≡ locked_of kind older newer }
{
    begin(
        locked_place(kind, newer),
        locked_held(kind),
        locked_hand(kind, older, newer),
        0,
        0,
    )
}

// The place of a block in its group, from 0.
fn index(place: Place) -> usize
    ensures { result ≡ index_of place }
{
    match place {
        Place::Hunting => 0,
        Place::First => 0,
        Place::Second => 1,
        Place::ThirdC => 2,
        Place::ThirdCPrime => 2,
        Place::ThirdBad => 2,
        Place::Fourth => 3,
    }
}

// A block at its place: good exactly if valid as the expected kind; after a bad second block the third is bad.
fn judge_at(place: Place, bits: u32) -> Judged
    ensures { result ≡ judge_at_of place bits }
{
    match place {
        Place::Hunting => Err(BlockError::Bad),
        Place::First => blocks::judge(bits, Kind::A),
        Place::Second => blocks::judge(bits, Kind::B),
        Place::ThirdC => blocks::judge(bits, Kind::C),
        Place::ThirdCPrime => blocks::judge(bits, Kind::CPrime),
        Place::ThirdBad => Err(BlockError::Bad),
        Place::Fourth => blocks::judge(bits, Kind::D),
    }
}

// The place after a block's.
fn after(place: Place, judged: Judged) -> Place
    ensures { result ≡ after_of place judged }
{
    match place {
        Place::Hunting => Place::Hunting,
        Place::First => Place::Second,
        Place::Second => third_place(judged),
        Place::ThirdC => Place::Fourth,
        Place::ThirdCPrime => Place::Fourth,
        Place::ThirdBad => Place::Fourth,
        Place::Fourth => Place::First,
    }
}

// The bad blocks of a run with one block more.
fn bad_with(bad: u8, judged: Judged) -> u8
    ensures { result ≡ bad_with_of bad judged }
{
    if judged.is_err() && bad < RUN_BLOCKS {
        bad + 1
    } else {
        bad
    }
}

// The run with one block more.
fn counted(run: u8, bad: u8, judged: Judged) -> Run
    ensures { result ≡ counted_of run bad judged }
{
    let bads = bad_with(bad, judged);
    if run < RUN_BLOCKS - 1 {
        Run {
            run: run + 1,
            bad: bads,
            lost: false,
        }
    } else {
        Run {
            run: 0,
            bad: 0,
            lost: bads > BAD_LIMIT,
        }
    }
}

// What is answered at a block's end, where this group may be done.
fn say(done: bool, lost: bool, group: Group) -> Answer
    ensures { result ≡ say_of done lost group }
{
    match (done, lost) {
        (true, true) => Answer::GroupAndLost(group),
        (true, false) => Answer::Group(group),
        (false, true) => Answer::Lost,
        (false, false) => Answer::Nothing,
    }
}

// The window with one bit more.
fn shifted(window: u64, bit: u8) -> u64
    ensures { result ≡ shift_of window bit }
{
    window % KEPT_LIMIT * 2 + u64::from(bit)
}

// Whether the last 52 bits lock, once so many have come; `count` is how many there were before the last.
fn lock_after(window: u64, count: u8) -> Option<Lock>
    requires { window < window_limit }
    ensures { result ≡ lock_after_of window count }
{
    if count >= PAIR_BITS - 1 {
        return try_lock((window / BLOCK_LIMIT) as u32, (window % BLOCK_LIMIT) as u32);
    }
    None
}

// How many of the last bits there are, with one more.
fn count_after(count: u8) -> u8
    ensures { result ≡ count_after_of count }
{
    count.saturating_add(1).min(PAIR_BITS)
}

// The state where the last bits were tried: locked, or hunting on.
fn hunted(lock: Option<Lock>, window: u64, count: u8) -> Receiver
    ensures { result ≡ hunted_of lock window count }
{
    match lock {
        Some(lock) => locked(lock.kind, lock.older, lock.newer),
        None => hunting(window, count),
    }
}

// What is answered then.
fn lock_answer(lock: Option<Lock>) -> Answer
    ensures { result ≡ lock_answer_of lock }
{
    match lock {
        Some(_) => Answer::Locked,
        None => Answer::Nothing,
    }
}

// A bit while hunting.
fn hunt(window: u64, count: u8, bit: u8) -> Step
    requires { bit < 2 }
    ensures { result ≡ hunt_of window count bit }
{
    let moved = shifted(window, bit);
    let lock = lock_after(moved, count);
    Step {
        next: hunted(lock, moved, count_after(count)),
        answer: lock_answer(lock),
    }
}

// The group where there is one, else the empty one.
fn given(there: bool, group: Group) -> Group
    ensures { result ≡ given_of there group }
{
    if there { group } else { groups::empty() }
}

// The state after a block: hunting begins anew where lock is lost, else the next block begins.
fn next_after(run: Run, place: Place, held: bool, hand: Group) -> Receiver
    ensures { result ≡ cond run.lost fresh_of (begin_of place held hand run.run run.bad) }
{
    if run.lost {
        return hunting(0, 0);
    }
    begin(place, held, hand, run.run, run.bad)
}

// A block's end: the block goes into the group in hand and into the run. With the fourth block the group is answered.
fn end(receiver: Receiver, judged: Judged) -> Step
    ensures { result ≡ end_of receiver judged }
{
    let at = index(receiver.place);
    let fourth = at == FOURTH;
    let done = fourth & receiver.held;
    let group = groups::with_block(receiver.hand, at, judged);
    let run = counted(receiver.run, receiver.bad, judged);
    Step {
        next: next_after(
            run,
            after(receiver.place, judged),
            fourth | receiver.held,
            given(!fourth, group),
        ),
        answer: say(done, run.lost, group),
    }
}

// A bit while locked.
fn follow(receiver: Receiver, bit: u8) -> Step
    ensures { result ≡ follow_of receiver bit }
{
    let moved = shifted(receiver.window, bit);
    if receiver.count < BLOCK_BITS - 1 {
        let next = Receiver {
            window: moved,
            count: receiver.count + 1,
            ..receiver
        };
        return Step {
            next,
            answer: Answer::Nothing,
        };
    }
    end(
        receiver,
        judge_at(receiver.place, (moved % BLOCK_LIMIT) as u32),
    )
}

impl Answer {
    // The group that is answered; the empty one where none is.
    pub fn group(self) -> Group
        ensures { result ≡ group_of self }
    {
        match self {
            Answer::Group(group) | Answer::GroupAndLost(group) => group,
            Answer::Nothing | Answer::Locked | Answer::Lost | Answer::Refused => groups::empty(),
        }
    }
}

impl Receiver {
    // Hunting begins with no bits.
    pub fn new() -> Receiver
        ensures { result ≡ fresh_of }
    {
        hunting(0, 0)
    }

    // Takes one bit.
    pub fn step(self, bit: u8) -> Step
        ensures { (result ≡ step_of self bit) × (answer_number result.answer ≡ bit_number bit) }
    {
        if bit > ONE {
            return Step {
                next: self,
                answer: Answer::Refused,
            };
        }
        if self.place == Place::Hunting {
            hunt(self.window, self.count, bit)
        } else {
            follow(self, bit)
        }
    }
}

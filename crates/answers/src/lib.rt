// What the programs `mark` and `encode` write, for the bytes of a sheet and of an input, in a buffer that is lent; and
// how much of a sheet and an input they need read. There is no io here.
// Refused, with number 8: a buffer that is too short; it is then as it was.
#![tactic(auto)]

ghost use Rattle.std.specs.Prelude.{◌≡◌, ◌∷◌, ◌++◌, ◌+◌, ◌-◌, ◌≤◌, length, replicate};
ghost use Rattle.letters.specs.Letters.{Wrote, decimal_of};
ghost use Rattle.letters.specs.Told.{TellsWithin};
ghost use Rattle.answers.specs.Input.{exercise_in};
ghost use Rattle.answers.specs.Line.{with_verdict, marked_of, line_of, mark_line, line_room};
ghost use Rattle.encoder.specs.Answer.{encoded_number};
ghost use Rattle.answers.specs.Encoded.{written_of, output_of, error_text, error_of, output_room, error_room};
ghost use Rattle.answers.specs.Enough.{sheet_room, input_room};

use encoder::EncodeError;
use letters::TooShort;
use marker::Verdict;

// One byte past the limit of a sheet; the exercise, and one byte past the limit of a submission.
pub const SHEET_ROOM: usize = 20481;

pub const INPUT_ROOM: usize = 13314;

// Room that is always enough for the line of `mark`, for what `encode` writes to standard output, and for its refusal.
pub const LINE_ROOM: usize = 85;

pub const OUTPUT_ROOM: usize = 260;

pub const ERROR_ROOM: usize = 28;

// The character that ends a line.
const LINE_END: u8 = b'\n';

// An exercise, and the number and the place of its answer.
#[derive(Clone, Copy)]
pub struct MarkAnswer {
    pub exercise: u8,
    pub number: u8,
    pub place: usize,
}

// A buffer for a sheet.
pub fn sheet_buffer() -> [u8; SHEET_ROOM]
    ensures { result ≡ replicate sheet_room 0 }
{
    [0u8; SHEET_ROOM]
}

// A buffer for an input, with the exercise in front.
pub fn input_buffer(exercise: u8) -> [u8; INPUT_ROOM]
    ensures { result ≡ exercise ∷ replicate (input_room - 1) 0 }
{
    let mut input = [0u8; INPUT_ROOM];
    input[0] = exercise;
    input
}

// The answer to an input: one byte of exercise number, and then the submission.
pub fn marked(sheet: &[u8], input: &[u8]) -> MarkAnswer
    ensures { result ≡ marked_of sheet.now input.now }
{
    match input {
        [exercise, submission @ ..] => {
            with_verdict(
                *exercise,
                marker::mark(sheet, usize::from(*exercise), submission),
            )
        }
        [] => with_verdict(0, marker::mark(sheet, 0, input)),
    }
}

// The line of that answer. It is put together in a buffer of our own, with its length beside it, as the texts below
// are: a page that grows, as `telling` has one, asks that what it is given has room, and no public function asks
// anything.
pub fn mark_line(sheet: &[u8], input: &[u8], out: &mut [u8]) -> Result<usize, TooShort>
    ensures { TellsWithin line_room (mark_line sheet.now input.now)
        out.old result out.new }
{
    let mut own = [0u8; LINE_ROOM];
    let length = put_line(marked(sheet, input), &mut own);
    letters::tell(&own[..length], out)
}

// The same in a buffer that always has room for it, and how many characters it has; so for the texts below, a line each,
// since the claims state each of the three.
pub fn whole_line(sheet: &[u8], input: &[u8], out: &mut [u8; LINE_ROOM]) -> usize
    ensures { Wrote out.old 0 (mark_line sheet.now input.now) out.new result
        × (result ≤ length out.new) }
{
    letters::written(mark_line(sheet, input, out))
}

// What `encode` writes to standard output for the exercise of an input: the encoding, or nothing where it is refused.
pub fn encode_output(sheet: &[u8], input: &[u8], out: &mut [u8]) -> Result<usize, TooShort>
    ensures { TellsWithin output_room (output_of sheet.now (exercise_in input.now))
        out.old result out.new }
{
    let mut own = [0u8; OUTPUT_ROOM];
    let length = written(encoder::encode(sheet, exercise_in(input), &mut own));
    letters::tell(&own[..length], out)
}

// The same in a buffer that always has room for it.
pub fn whole_output(sheet: &[u8], input: &[u8], out: &mut [u8; OUTPUT_ROOM]) -> usize
    ensures { Wrote out.old 0 (output_of sheet.now (exercise_in input.now))
        out.new result × (result ≤ length out.new) }
{
    letters::written(encode_output(sheet, input, out))
}

// What it writes to standard error: the number of a refusal, or nothing.
pub fn encode_error(sheet: &[u8], input: &[u8], out: &mut [u8]) -> Result<usize, TooShort>
    ensures { TellsWithin error_room (error_of sheet.now (exercise_in input.now))
        out.old result out.new }
{
    let mut space = [0u8; OUTPUT_ROOM];
    let answer = number(encoder::encode(sheet, exercise_in(input), &mut space));
    let mut own = [0u8; ERROR_ROOM];
    let length = put_error(answer, &mut own);
    letters::tell(&own[..length], out)
}

// The same in a buffer that always has room for it.
pub fn whole_error(sheet: &[u8], input: &[u8], out: &mut [u8; ERROR_ROOM]) -> usize
    ensures { Wrote out.old 0 (error_of sheet.now (exercise_in input.now))
        out.new result × (result ≤ length out.new) }
{
    letters::written(encode_error(sheet, input, out))
}

// The exercise of an input, one byte; nothing at all counts as exercise 0.
fn exercise_in(input: &[u8]) -> usize
    ensures { result ≡ exercise_in input.now }
{
    usize::from(input.first().copied().unwrap_or(0))
}

// An exercise, with the number and the place of a verdict.
fn with_verdict(exercise: u8, verdict: Verdict) -> MarkAnswer
    ensures { result ≡ with_verdict exercise verdict }
{
    MarkAnswer {
        exercise,
        number: marker::number(verdict),
        place: marker::place(verdict),
    }
}

// How many bytes of the buffer the encoder has written.
fn written(encoded: Result<usize, EncodeError>) -> usize
    ensures { result ≡ written_of encoded }
{
    encoded.unwrap_or(0)
}

// The number of what the encoder answered.
fn number(encoded: Result<usize, EncodeError>) -> u64
    ensures { result ≡ encoded_number encoded }
{
    match encoded {
        Ok(_) => 0,
        Err(EncodeError::NoKey) => 1,
        Err(EncodeError::BadKey) => 2,
        Err(EncodeError::TooShort) => 8,
    }
}

// A number behind its label, in a buffer that has room for them. A buffer and a place in it go together, as
// `letters::put` takes them.
fn put_labelled(label: &[u8], number: u64, out: &mut [u8], at: usize) -> usize
    requires { at + length label.now + 20 ≤ length out.old }
    ensures { Wrote out.old at (label.now ++ decimal_of number) out.new result
        × (result ≤ at + length label.now + 20) }
{
    let next = letters::put(label, out, at);
    letters::put_number(number, out, next)
}

// The line of an answer, at the front of a buffer that has room for it.
fn put_line(marked: MarkAnswer, out: &mut [u8]) -> usize
    requires { line_room ≤ length out.old }
    ensures { Wrote out.old 0 (line_of marked) out.new result × (result ≤ line_room) }
{
    let one = put_labelled(b"exercise ", u64::from(marked.exercise), out, 0);
    let two = put_labelled(b" answer ", u64::from(marked.number), out, one);
    let three = put_labelled(b" place ", marked.place as u64, out, two);
    letters::put_byte(LINE_END, out, three)
}

// The line of a refusal, likewise; nothing where the number is 0.
fn put_error(number: u64, out: &mut [u8]) -> usize
    requires { error_room ≤ length out.old }
    ensures { Wrote out.old 0 (error_text number) out.new result × (result ≤ error_room) }
{
    if number == 0 {
        return 0;
    }
    let one = put_labelled(b"answer ", number, out, 0);
    letters::put_byte(LINE_END, out, one)
}

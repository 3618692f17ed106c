// Marks the cases on standard input, one after the other, and writes a line for each. A case is the sheet's length (two bytes, high
// first), the exercise (one byte), the submission's length (two bytes), the sheet and the submission.
#![tactic(auto)]

use std::io;
use std::io::Read;

// The most that is read of the cases.
const ROOM: usize = 300000;

// The most cases that are marked.
const CASES: usize = 2000;

#[derive(Clone, Copy)]
struct Case<'a> {
    sheet: &'a [u8],
    exercise: u8,
    submission: &'a [u8],
}

// The case at the front of the input, and what lies behind it; none where it is not whole.
fn split_case<'a>(input: &'a [u8]) -> Option<(Case<'a>, &'a [u8])> {
    let (head, rest) = input.split_first_chunk::<5>()?;
    let (sheet, rest) = rest.split_at_checked(length(head[0], head[1]))?;
    let (submission, rest) = rest.split_at_checked(length(head[3], head[4]))?;
    let exercise = head[2];
    Some((
        Case {
            sheet,
            exercise,
            submission,
        },
        rest,
    ))
}

// A length of two bytes, high first.
fn length(high: u8, low: u8) -> usize {
    usize::from(u16::from_be_bytes([high, low]))
}

// Marks the cases of the input in order, up to the first that is not whole.
fn run_cases(rt: &impl Print, input: &[u8]) -> io::Result<()> {
    let mut rest = input;
    for number in 0..CASES {
        let Some((case, behind)) = split_case(rest) else {
            return Ok(());
        };
        let exercise = case.exercise;
        let verdict = marker::mark(case.sheet, usize::from(exercise), case.submission);
        let answer = marker::number(verdict);
        let place = marker::place(verdict);
        println!(rt; "case {number} exercise {exercise} answer {answer} place {place}")?;
        rest = behind;
    }
    Ok(())
}

fn main(rt: HostRuntime) -> io::Result<()> {
    let mut input = [0u8; ROOM];
    let mut rest: &mut [u8] = &mut input;
    io::copy(&mut rt.reader().take(ROOM as u64), &mut rest)?;
    let length = ROOM.saturating_sub(rest.len());
    run_cases(&rt, &input[..length])
}

// The desk of the programs `mark` and `encode`: reads the key sheet and what is handed in, and writes what `answers`
// makes of them. It only moves bytes. `rt` is what a program runs on, and `errors` its standard error. What is read
// lies in arrays of a fixed size and no vector: a vector's memory can run out, and there would be one refusal more.
#![tactic(auto)]

ghost use Rattle.io.specs.Counts.{IsPrefixLen};

use answers::{ERROR_ROOM, LINE_ROOM, OUTPUT_ROOM};
use asking::exercise;
use files::arguments;
use files::arguments::NAME_ROOM;
use std::io::Print;
use std::rt::Runtime;

// What a program runs on, and its standard error.
#[derive(Drop)]
struct Desk<'a, R, E> {
    rt: &'a R,
    errors: &'a E,
}

// The program `mark`: one line, `exercise N answer A place P`. Without arguments the sheet is the file `key`, and the
// exercise and the submission come from standard input; else they are named, KEYFILE EXERCISE SUBMISSION.
pub fn mark(rt: &impl Runtime, errors: &impl Print) {
    let desk = Desk { rt, errors };
    match arguments::count(rt) {
        0 | 1 => desk.unnamed(&mut answers::input_buffer(0), |sheet, input| {
            desk.write_line(sheet, input)
        }),
        4 => desk.named(|sheet, exercise| desk.mark_submission(sheet, exercise)),
        _ => desk.say(b"mark takes no arguments, or KEYFILE EXERCISE SUBMISSION\n"),
    }
}

// The program `encode`: the encoding to standard output, or the number of its refusal to standard error. Without
// arguments the sheet is the file `key`, and the exercise comes from standard input, one byte; else they are named,
// KEYFILE EXERCISE.
pub fn encode(rt: &impl Runtime, errors: &impl Print) {
    let desk = Desk { rt, errors };
    match arguments::count(rt) {
        0 | 1 => desk.unnamed(&mut [0u8; 1], |sheet, input| {
            desk.write_encoding(sheet, input)
        }),
        3 => desk.named(|sheet, exercise| desk.write_encoding(sheet, &[exercise])),
        _ => desk.say(b"encode takes no arguments, or KEYFILE EXERCISE\n"),
    }
}

impl<R: Runtime, E: Print> Desk<'_, R, E> {
    // Takes a step with what the file `key` and standard input hold. Where there is no such file nothing is said of it.
    fn unnamed<S: FnOnce(&[u8], &[u8])>(&self, input: &mut [u8], step: S)
        requires { S.IsAlwaysCallable step }
    {
        let mut sheet = answers::sheet_buffer();
        let sheet_length = files::read_file(self.rt, self.errors, b"key", true, &mut sheet);
        let input_length = files::read_file(self.rt, self.errors, b"-", false, input);
        step(&sheet[..sheet_length], &input[..input_length]);
    }

    // Takes a step with what the file holds that the first argument names, and with the exercise that the second names.
    // One that is none is said, and no step is taken.
    fn named<S: FnOnce(&[u8], u8)>(&self, step: S)
        requires { S.IsAlwaysCallable step }
    {
        let mut text = [0u8; NAME_ROOM];
        let length = arguments::get(self.rt, 2, &mut text);
        match exercise::named(&text[..length]) {
            Some(exercise) => {
                let mut sheet = answers::sheet_buffer();
                let sheet_length = self.read_argument(1, &mut sheet);
                step(&sheet[..sheet_length], exercise);
            }
            None => self.say(b"an exercise is a decimal number from 0 to 255\n"),
        }
    }

    // Marks what the file holds that the third argument names; the exercise stands in front of it.
    fn mark_submission(&self, sheet: &[u8], exercise: u8) {
        let mut input = answers::input_buffer(exercise);
        let length = self.read_argument(3, &mut input[1..]);
        self.write_line(sheet, &input[..1 + length]);
    }

    // Reads the file that an argument names.
    fn read_argument(&self, number: usize, buffer: &mut [u8]) -> usize
        ensures { IsPrefixLen result buffer.new }
    {
        let mut name = [0u8; NAME_ROOM];
        let length = arguments::get(self.rt, number, &mut name);
        files::read_file(self.rt, self.errors, &name[..length], false, buffer)
    }

    // The line of `mark`, whole and by one call.
    fn write_line(&self, sheet: &[u8], input: &[u8]) {
        let mut line = [0u8; LINE_ROOM];
        let length = answers::whole_line(sheet, input, &mut line);
        self.write(&line[..length]);
    }

    // What `encode` writes.
    fn write_encoding(&self, sheet: &[u8], input: &[u8]) {
        let mut output = [0u8; OUTPUT_ROOM];
        let length = answers::whole_output(sheet, input, &mut output);
        self.write(&output[..length]);
        let mut error = [0u8; ERROR_ROOM];
        let said = answers::whole_error(sheet, input, &mut error);
        self.say(&error[..said]);
    }

    // Writes a text to standard output, by one call where that takes it whole.
    fn write(&self, text: &[u8]) {
        let _ = files::say_lost(self.errors, self.rt.write_all(text));
    }

    // Says why nothing was done. That this fails is not said. It stands here and in `files::failing`: as one for both
    // crates it would be public, with nothing that it could promise.
    fn say(&self, words: &[u8]) {
        let _ = self.errors.write_all(words);
    }
}

// The encoder and the marker: an answer's number, and its value or place.
ghost use Rattle.std.specs.Prelude.{◌≡◌, length};
ghost use Rattle.encoder.specs.Answer.{encode_of, out_of};
ghost use Rattle.marker.specs.Mark.{mark_number, mark_place};
ghost use Rattle.capi.specs.Marking.{encoded_code};

use encoder::EncodeError;

// The groups of an exercise's key at the front of a buffer.
pub fn bench_encode(sheet: &[u8], exercise: usize, out: &mut [u8]) -> usize
    ensures { (result ≡ encoded_code (encode_of sheet.now exercise (length out.old)))
        × (out.new ≡ out_of sheet.now exercise out.old) }
{
    encoded_code(encoder::encode(sheet, exercise, out))
}

fn encoded_code(encoded: Result<usize, EncodeError>) -> usize
    ensures { result ≡ encoded_code encoded }
{
    match encoded {
        Ok(count) => count,
        Err(EncodeError::NoKey) => 1,
        Err(EncodeError::BadKey) => 2,
        Err(EncodeError::TooShort) => 8,
    }
}

// The number of the answer for an exercise's submission.
pub fn bench_mark(sheet: &[u8], exercise: usize, submission: &[u8]) -> u8
    ensures { result ≡ mark_number sheet.now exercise submission.now }
{
    marker::number(marker::mark(sheet, exercise, submission))
}

// Its place.
pub fn bench_mark_place(sheet: &[u8], exercise: usize, submission: &[u8]) -> usize
    ensures { result ≡ mark_place sheet.now exercise submission.now }
{
    marker::place(marker::mark(sheet, exercise, submission))
}

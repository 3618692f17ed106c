// The encoder and the marker, as C calls them.
ghost use Rattle.std.specs.Prelude.{◌≡◌, length};
ghost use Rattle.encoder.specs.Answer.{encode_of, out_of};
ghost use Rattle.marker.specs.Mark.{mark_number, mark_place};
ghost use Rattle.capi.specs.Marking.{encoded_code};

// The groups of an exercise's key at the front of a buffer.
#[unsafe(no_mangle)]
pub extern "C" fn bench_encode(sheet: &[u8], exercise: usize, out: &mut [u8]) -> usize
    ensures { (result ≡ encoded_code (encode_of sheet.now exercise (length out.old)))
        × (out.new ≡ out_of sheet.now exercise out.old) }
{
    capi::marking::bench_encode(sheet, exercise, out)
}

// The number of the answer for an exercise's submission.
#[unsafe(no_mangle)]
pub extern "C" fn bench_mark(sheet: &[u8], exercise: usize, submission: &[u8]) -> u8
    ensures { result ≡ mark_number sheet.now exercise submission.now }
{
    capi::marking::bench_mark(sheet, exercise, submission)
}

// Its place.
#[unsafe(no_mangle)]
pub extern "C" fn bench_mark_place(sheet: &[u8], exercise: usize, submission: &[u8]) -> usize
    ensures { result ≡ mark_place sheet.now exercise submission.now }
{
    capi::marking::bench_mark_place(sheet, exercise, submission)
}

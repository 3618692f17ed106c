// An exercise as a person names it: a decimal number from 0 to 255. Leading zeros are just zeros.
ghost use Rattle.std.specs.Prelude.{◌≡◌};
ghost use Rattle.asking.specs.Exercise.{named_of};

// The exercise that a text names, or none. The library's `parse` would take a `+` in front of the digits too.
#[tactic(auto, using(crate::proofs::Digits::by_characters))]
pub fn named(text: &[u8]) -> Option<u8>
    ensures { result ≡ named_of text.now }
{
    if text.is_empty() {
        return None;
    }
    let mut exercise = 0u8;
    for character in text {
        if !character.is_ascii_digit() {
            return None;
        }
        let tens = exercise.checked_mul(10)?;
        exercise = tens.checked_add(*character - b'0')?;
    }
    Some(exercise)
}

// What is held between groups: the flag of the first 2A, and a mask of the addresses that came, from which answer 7
// is read.
ghost use Rattle.std.specs.Prelude.{◌≡◌, ◌||◌, ℕ, ◌<◌, eqb, None};
ghost use Rattle.marker.specs.Tests.{brings};
ghost use Rattle.marker.specs.Steps.{held_after, mask_bits, has, missing_in};

use crate::Verdict;
use groups::fields::Content;
use keys::Key;

// The first address of the text, after those of the name; a constant is no place for a call of `from`.
pub const TEXT: usize = keys::NAME_ADDRESSES as usize;

// Addresses that a mask has room for.
const MASK: usize = 32;

// The flag of the first 2A, once a group more has come.
pub(crate) fn held_after(held: Option<bool>, content: Content) -> Option<bool>
    ensures { result ≡ held_after held content }
{
    held.or(flag_of(content))
}

// The flag of a 2A.
fn flag_of(content: Content) -> Option<bool>
    ensures { result ≡ held_after None content }
{
    match content {
        Content::Text2A { flag, .. } => Some(flag),
        _ => None,
    }
}

// The addresses seen, once a group more has come. Each case is named, so that one more is looked at here.
pub(crate) fn seen_after(mask: u32, content: Content) -> u32
    ensures { (a : ℕ) → a < mask_bits → has result a ≡ (has mask a || brings content a) }
{
    match content {
        Content::Name0A { address, .. } | Content::Name0B { address, .. } => {
            with_address(mask, usize::from(address))
        }
        Content::Text2A { address, .. } => with_address(mask, TEXT + usize::from(address)),
        Content::Text2B { .. } | Content::Clock4A | Content::Other => mask,
    }
}

// A mask with an address more, if it has room for it.
fn with_address(mask: u32, address: usize) -> u32
    ensures { (a : ℕ) → a < mask_bits → has result a ≡ (has mask a || eqb address a) }
{
    if address >= MASK {
        return mask;
    }
    mask | 1 << address
}

// Answer 7: the lowest wanted address that never came, which the trailing zeros of the mask's complement give. Passed
// where there is none.
pub(crate) fn missing(key: Key, mask: u32) -> Verdict
    ensures { result ≡ missing_in key.bytes mask }
{
    let lowest = (!mask).trailing_zeros();
    if lowest >= u32::from(keys::addresses(key)) {
        return Verdict::Passed;
    }
    let missed = lowest as u8;
    Verdict::Missing(missed)
}

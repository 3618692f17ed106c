// What a case asks: bytes and numbers at its places, high byte first.
ghost use Rattle.std.specs.Prelude.{◌≤◌};

// The byte at a place; 0 past the end.
pub(crate) fn byte(case: &[u8], at: usize) -> u8 {
    case.get(at).copied().unwrap_or(0)
}

// A yes or no.
pub(crate) fn flag(case: &[u8], at: usize) -> bool {
    byte(case, at) == 1
}

// Two bytes.
pub(crate) fn word(case: &[u8], at: usize) -> u16
    requires { at ≤ 16 }
{
    u16::from_be_bytes([byte(case, at), byte(case, at + 1)])
}

// Four bytes.
pub(crate) fn long(case: &[u8], at: usize) -> u32
    requires { at ≤ 16 }
{
    u32::from_be_bytes([
        byte(case, at),
        byte(case, at + 1),
        byte(case, at + 2),
        byte(case, at + 3),
    ])
}

// Numbers in fields that may be too small for them.
ghost use Rattle.std.specs.Prelude.{◌≡◌};
ghost use Rattle.ppd_check_names.specs.Fitted.{fitted};

// A number in a field of 8 bits.
pub fn as_byte(number: u64) -> u8
    ensures { result ≡ fitted 8 number }
{
    match u8::try_from(number) {
        Ok(number) => number,
        Err(_) => u8::MAX,
    }
}

/// A number in a field of 16 bits.
pub fn as_short(number: u64) -> u16
    ensures { result ≡ fitted 16 number }
{
    match u16::try_from(number) {
        Ok(number) => number,
        Err(_) => u16::MAX,
    }
}

// A number in a field of 32 bits.
pub fn as_word(number: u64) -> u32
    ensures { result ≡ fitted 32 number }
{
    match u32::try_from(number) {
        Ok(number) => number,
        Err(_) => u32::MAX,
    }
}

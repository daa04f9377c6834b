// A decimal: an optional minus in front of its size.
ghost use Rattle.std.specs.Prelude.{◌≡◌, cond, Ok, Err};
ghost use Rattle.rules.specs.Raster.{is_minus, unsigned, size_of, is_decimal};

use crate::sizes;

// A decimal: whether a minus stands in front of it, and its size in micrometres. No equality is derived: 0 and -0 are one value.
#[derive(Clone, Copy, Debug)]
pub struct Decimal {
    pub minus: bool,
    pub size: u64,
}

// Of a word that is no decimal: whether a minus stands in front of it all the same.
#[derive(Clone, Copy, Debug, PartialEq, Eq)]
pub struct NoDecimal {
    pub minus: bool,
}

// Whether a minus stands in front of a word, a decimal or not.
pub fn is_minus(word: &[u8]) -> bool
    ensures { result ≡ is_minus word.now }
{
    word.starts_with(b"-")
}

// The word without its minus.
fn unsigned(word: &[u8]) -> &[u8]
    ensures { result.now ≡ unsigned word.now }
{
    if is_minus(word) { &word[1..] } else { word }
}

pub fn decimal_in(word: &[u8]) -> Result<Decimal, NoDecimal>
    ensures { result ≡ cond (is_decimal word.now) (Ok (record { minus = is_minus word.now; size = size_of (unsigned word.now) })) (Err (record { minus = is_minus word.now })) }
{
    let minus = is_minus(word);
    let Some(size) = sizes::size_in(unsigned(word)) else {
        return Err(NoDecimal { minus });
    };
    Ok(Decimal { minus, size })
}

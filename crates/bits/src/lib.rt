// A word's value and its bits, two's complement.
#![tactic(auto)]

ghost use Rattle.std.specs.Prelude.{◌≡◌};
ghost use Rattle.rules.specs.Sheet.{bits_of, value_of};

// The bits of a word: the definition's word, with std's cast inside.
pub fn bits_of(z: i32) -> u32
    ensures { result ≡ bits_of z }
{
    z.cast_unsigned()
}

// The word that has these bits: the definition's word, with std's cast inside.
pub fn value_of(b: u32) -> i32
    ensures { result ≡ value_of b }
{
    b.cast_signed()
}

// What an inspector typed becomes a height, or is refused. A float is compared with 0 and multiplied once; the rest is worked out from the product's bits, and no
// float is turned into an integer.
#![tactic(auto)]

ghost use Rattle.std.specs.Prelude.{◌≡◌, cond, T, pos};
ghost use Rattle.std.specs.Float.{binary64};
ghost use Rattle.std.specs.Float.Ieee.{mul, le, of_bits};
ghost use Rattle.std.specs.Float.Ieee.Positive.{positive};
ghost use Rattle.rules.specs.Staff.{product_fits, nearest_whole, with_height, without_height, measured as staff_measured};
ghost use Rattle.rules.specs.Answers.{staff_of};
ghost use Rattle.rules.specs.PublicContracts.{StaffContract, KindContract};
ghost use Rattle.staff.specs.Heights.{height_of, reading_of};

use rules::{Reading, Refusal};

// The height of a product that is 0.0 or above: the nearest whole number, halves up, unless it is above 50,000,000.
fn nearest(product: f64) -> Result<i32, Refusal>
    requires { T (le (of_bits binary64 0) product) }
    ensures { height_of result ≡ cond (product_fits product) (with_height (pos (nearest_whole product))) (without_height 3) }
{
    let bits = f64::to_bits(product);
    // -0.0, whose sign is the first of its bits.
    if bits == 0x8000_0000_0000_0000 {
        return Ok(0);
    }
    // The bits grow with what they stand for, and those of an infinity are the last. These are the bits of 50,000,000.
    if bits <= 0x4187_d784_0000_0000 {
        // Below the exponent 1022 the product is less than a half. From there on its significand has a leading 1 that is not among the bits, and the product is
        // significand / 2 ^ (1075 - exponent).
        let exponent = bits / 0x10_0000_0000_0000;
        if exponent < 1022 {
            return Ok(0);
        }
        let significand = 0x10_0000_0000_0000 + bits % 0x10_0000_0000_0000;
        let unit = 1u64 << (1075 - exponent);
        let whole = significand / unit;
        let rest = significand % unit;
        // Both casts fit, by proof: a TryFrom would have an unwrap behind it.
        if unit <= 2 * rest {
            let up = (whole + 1) as i32;
            return Ok(up);
        }
        let height = whole as i32;
        return Ok(height);
    }
    Err(Refusal::Value)
}

// The height of a value in a unit, if it is at or above 0, which a NaN is not and -0.0 is. The product of an infinity is above 50,000,000.
fn measured(value: f64, factor: f64) -> Result<i32, Refusal>
    requires { T (positive factor) }
    ensures { height_of result ≡ staff_measured value (mul binary64 value factor) }
{
    if 0.0 <= value {
        return nearest(value * factor);
    }
    Err(Refusal::Value)
}

// The height of a reading, which may be none.
pub fn staff_height(reading: Reading) -> Result<Option<i32>, Refusal>
    ensures { StaffContract reading (staff_of result) }
{
    match reading {
        Reading::Metres(metres) => Ok(Some(measured(metres, 1000000.0)?)),
        Reading::Feet(feet) => Ok(Some(measured(feet, 304800.0)?)),
        Reading::Nothing => Ok(None),
    }
}

// A reading by its kind, as it comes across C.
fn reading_of(kind: u32, value: f64) -> Result<Reading, Refusal>
    ensures { result ≡ reading_of kind value }
{
    match kind {
        0 => Ok(Reading::Nothing),
        1 => Ok(Reading::Metres(value)),
        2 => Ok(Reading::Feet(value)),
        _ => Err(Refusal::Value),
    }
}

// The height of a reading by its kind.
pub fn staff_of_kind(kind: u32, value: f64) -> Result<Option<i32>, Refusal>
    ensures { KindContract kind value (staff_of result) }
{
    staff_height(reading_of(kind, value)?)
}

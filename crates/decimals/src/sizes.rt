// A decimal without its sign: one to twelve digits, and optionally a point and one to six digits. Its size is in micrometres.
ghost use Rattle.std.specs.Prelude.{◌≡◌, cond, Some, None, ◌+◌, ◌*◌, ◌-◌, ◌^◌, ◌≤◌, ◌<◌, drop};
ghost use Rattle.rules.specs.Raster.{unsigned_fits, size_of, fraction_fits, fraction};
ghost use Rattle.raster_laws.specs.Digits.{Behind};

use crate::counts;

// A number of so many places behind the point, in micrometres. No `pow`: with it, reading a raster of 128 by 128 values took 675 µs instead of 606.
fn scaled(number: u64, places: usize) -> u64
    requires { (places ≤ 6) × (number < 10 ^ (13 + places)) }
    ensures { result ≡ number * 10 ^ (6 - places) }
{
    let mut n = number;
    for k in places..6 {
        n = n * 10;
    }
    n
}

// What stands from `at` on, behind the digits that made `number`: nothing, or a point and one to six digits.
fn fraction_from(word: &[u8], at: usize, number: u64) -> Option<u64>
    requires { Behind word.now at number }
    ensures { result ≡ cond (fraction_fits (drop at word.now)) (Some (number * 1000000 + fraction (drop at word.now))) None }
{
    let n = word.len();
    if at == n {
        return Some(number * 1000000);
    }
    if word[at] != b'.' {
        return None;
    }
    let places = n - at - 1;
    let digits = counts::digits_from(word, at + 1, number);
    if (digits.end != n) | !counts::one_to(6, places) {
        return None;
    }
    Some(scaled(digits.number, places))
}

// No such decimal has more than 19 bytes: twelve digits, a point and six digits.
pub fn size_in(word: &[u8]) -> Option<u64>
    ensures { result ≡ cond (unsigned_fits word.now) (Some (size_of word.now)) None }
{
    if 19 < word.len() {
        return None;
    }
    let whole = counts::digits_from(word, 0, 0);
    if !counts::one_to(12, whole.end) {
        return None;
    }
    fraction_from(word, whole.end, whole.number)
}

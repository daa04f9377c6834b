// The digits in front of a word, and a word of digits only.
ghost use Rattle.std.specs.Prelude.{◌≡◌, cond, Some, None};
ghost use Rattle.rules.specs.Site.{within};
ghost use Rattle.rules.specs.Raster.{is_digit, digits_fit, number_of};
ghost use Rattle.raster_laws.specs.Digits.{Room, DigitsFrom};

// A number, and where the digits end that made it.
#[derive(Clone, Copy, Debug, PartialEq, Eq)]
pub struct Digits {
    pub number: u64,
    pub end: usize,
}

fn is_digit(b: u8) -> bool
    ensures { result ≡ is_digit b }
{
    b.is_ascii_digit()
}

// The digits from `at` on, put behind those that made `number`. A word of at most 19 bytes has no number that passes 64 bits. `i` is answered too: it is where the digits end.
pub fn digits_from(word: &[u8], at: usize, number: u64) -> Digits
    requires { Room word.now at number }
    ensures { DigitsFrom word.now at number result.number result.end }
{
    let mut n = number;
    for i in at..word.len() {
        let b = word[i];
        if !is_digit(b) {
            return Digits { number: n, end: i };
        }
        n = n * 10 + u64::from(b - 48);
    }
    Digits {
        number: n,
        end: word.len(),
    }
}

// Whether so many digits are one to `most`: the definition's word `within`, with std's method inside; one for each type.
pub fn one_to(most: usize, n: usize) -> bool
    ensures { result ≡ within 1 most n }
{
    (1..=most).contains(&n)
}

// A count: one to twelve digits and nothing else.
pub fn count_in(word: &[u8]) -> Option<u64>
    ensures { result ≡ cond (digits_fit 12 word.now) (Some (number_of word.now)) None }
{
    let n = word.len();
    if !one_to(12, n) {
        return None;
    }
    let digits = digits_from(word, 0, 0);
    if digits.end != n {
        return None;
    }
    Some(digits.number)
}

// The values of a raster: how many there are, and whether each is a decimal, lies in its range and is not the no-data value.
ghost use Rattle.std.specs.Prelude.{◌≡◌, ◌&&◌, ◌≤◌, false, length, drop, MatchOption, option_map};
ghost use Rattle.std.specs.Int.Signed.{le_z};
ghost use Rattle.rules.specs.Raster.{words_of};
ghost use Rattle.decimals.specs.Values.{value_of};
ghost use Rattle.raster_laws.specs.Looks.{Looked, all_decimals, is_given, value_fits};

use decimals::Decimal;

// How many values there are, and whether each fits. Both are told whatever `fit` says: the count decides for 10 and 2, which come before 3.
#[derive(Clone, Copy, Debug, PartialEq, Eq)]
pub struct Look {
    pub count: usize,
    pub fit: bool,
}

// Whether two decimals are the same number. 0 has no sign, so this is no derived equality.
fn is_same(value: Decimal, other: Decimal) -> bool
    ensures { result ≡ (le_z (value_of value) (value_of other) && le_z (value_of other) (value_of value)) }
{
    let signs = value.minus == other.minus;
    (value.size == other.size) & (signs | (value.size == 0))
}

// Whether a value is the no-data value, where one is given.
fn is_given(no_data: Option<Decimal>, value: Decimal) -> bool
    ensures { result ≡ is_given (option_map value_of no_data) (value_of value) }
{
    match no_data {
        Some(other) => is_same(value, other),
        None => false,
    }
}

// Whether a value lies in its range and is not the no-data value.
fn value_fits(value: Decimal, no_data: Option<Decimal>) -> bool
    ensures { result ≡ value_fits (option_map value_of no_data) (value_of value) }
{
    (value.size <= 50000000) & !is_given(no_data, value)
}

// The look over all words from `at` on, as long as each is a decimal. `p` is a place in the text, found anew behind each word: it counts nothing that a `for` could.
pub fn look_over(text: &[u8], at: usize, no_data: Option<Decimal>) -> Option<Look>
    requires { at ≤ length text.now }
    ensures { MatchOption result (all_decimals (words_of (drop at text.now)) ≡ false) (λ look. Looked (words_of (drop at text.now)) (option_map value_of no_data) look.count look.fit) }
{
    let mut fit = true;
    let mut count = 0;
    let mut p = text_words::word_start(text, at);
    while p < text.len() {
        let end = text_words::word_end(text, p);
        let value = decimals::decimal_in(&text[p..end]).ok()?;
        fit = fit & value_fits(value, no_data);
        count += 1;
        p = text_words::word_start(text, end);
    }
    Some(Look { count, fit })
}

// A key and the word behind it. A text that is no raster is refused at its first wrong word: nothing behind it is looked at.
ghost use Rattle.std.specs.Prelude.{◌≡◌, ◌≤◌, false, length, drop, MatchOption, option_map};
ghost use Rattle.rules.specs.Raster.{words_of, word, is_key, count_at, decimal_at};
ghost use Rattle.raster_laws.specs.Fields.{NamedAt, CountedAt, MeasuredAt, NoDataAt, no_data_fits};
ghost use Rattle.decimals.specs.Values.{value_of};

use crate::keys;
use decimals::Decimal;

// A key, and the word behind it; also where that ends.
fn name_at<'a>(text: &'a [u8], at: usize, key: &[u8]) -> Option<(&'a [u8], usize)>
    requires { at ≤ length text.now }
    ensures { MatchOption result (is_key key.now (word (words_of (drop at text.now)) 0) ≡ false) (λ found. NamedAt text.now at key.now found.0.now found.1) }
{
    let name = text_words::next_word(text, at);
    if !keys::is_key(key, &text[name.start..name.end]) {
        return None;
    }
    let value = text_words::next_word(text, name.end);
    Some((&text[value.start..value.end], value.end))
}

// A key and a count.
pub fn count_at(text: &[u8], at: usize, key: &[u8]) -> Option<(u64, usize)>
    requires { at ≤ length text.now }
    ensures { MatchOption result (count_at (words_of (drop at text.now)) key.now 0 ≡ false) (λ found. CountedAt text.now at key.now found.0 found.1) }
{
    let (word, end) = name_at(text, at, key)?;
    Some((decimals::count_in(word)?, end))
}

// A key and a decimal.
pub fn measure_at(text: &[u8], at: usize, key: &[u8]) -> Option<(Decimal, usize)>
    requires { at ≤ length text.now }
    ensures { MatchOption result (decimal_at (words_of (drop at text.now)) key.now 0 ≡ false) (λ found. MeasuredAt text.now at key.now (value_of found.0) found.1) }
{
    let (word, end) = name_at(text, at, key)?;
    Some((decimals::decimal_in(word).ok()?, end))
}

// The key for no data with its decimal, or another word, which is the first value; also where the values begin.
pub fn no_data_at(text: &[u8], at: usize) -> Option<(Option<Decimal>, usize)>
    requires { at ≤ length text.now }
    ensures { MatchOption result (no_data_fits (words_of (drop at text.now)) ≡ false) (λ found. NoDataAt text.now at (option_map value_of found.0) found.1) }
{
    let Some((word, end)) = name_at(text, at, b"nodata_value") else {
        return Some((None, at));
    };
    Some((Some(decimals::decimal_in(word).ok()?), end))
}

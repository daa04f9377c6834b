// The values of a raster that passes, read into a list: a raster has the northern row first, and a site the southern one.
ghost use Rattle.std.specs.Prelude.{◌≡◌, map, ◌+◌, ◌*◌, ◌≤◌, ◌<◌, length, drop, take};
ghost use Rattle.rules.specs.Raster.{words_of, decimal_value, raster_ground};
ghost use Rattle.decimals.specs.Values.{value_of};
ghost use Rattle.raster_laws.specs.Decisions.{Passes};
ghost use Rattle.raster_laws.specs.Filled.{Readable, Left};

use decimals::Decimal;

// A value as a word.
fn value_of(value: Decimal) -> i32
    requires { value.size ≤ 50000000 }
    ensures { result ≡ value_of value }
{
    let z = value.size as i32;
    if value.minus {
        return -z;
    }
    z
}

// As many values as the row has, from `at` on; answers where the last one ends.
fn fill_row(text: &[u8], at: usize, row: &mut [i32]) -> usize
    requires { Readable text.now at (length row.old) }
    ensures row { row.new ≡ take (length row.old) (map decimal_value (words_of (drop at text.now))) }
    ensures left { Left text.now at (length row.old) result }
{
    let mut p = at;
    for cell in row {
        let start = text_words::word_start(text, p);
        let end = text_words::word_end(text, start);
        let value = decimals::decimal_in(&text[start..end]).unwrap();
        *cell = value_of(value);
        p = end;
    }
    p
}

// Where a row begins in a list by rows.
fn row_start(row: usize, wide: usize, high: usize) -> usize
    requires { (row < high) × (high ≤ 128) × (wide ≤ 128) }
    ensures { (result ≡ row * wide) × (result + wide ≤ high * wide) }
{
    row * wide
}

// All values, from `at` on: the northern row is the last of the list. No `chunks_exact_mut(wide).rev()`: it asks that no row is empty, which `Passes` does not say.
pub fn fill(text: &[u8], at: usize, columns: u32, rows: u32, land: &mut [i32])
    requires { Passes text.now (length land.old) columns rows at }
    ensures { land.new ≡ raster_ground (words_of text.now) }
{
    let wide = columns as usize;
    let high = rows as usize;
    let mut p = at;
    for n in 0..high {
        let start = row_start(high - 1 - n, wide, high);
        let end = start + wide;
        p = fill_row(text, p, &mut land[start..end]);
    }
}

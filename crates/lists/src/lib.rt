// Lists of words: one word by column and row, a whole list copied, and the greatest word.
#![tactic(auto)]

ghost use Rattle.std.specs.Prelude.{◌≡◌, ◌+◌, ◌*◌, ◌≤◌, ◌<◌, pos, length, get_or, set};
ghost use Rattle.rules.specs.Grid.{greatest as grid_greatest};

// The word at a column and a row of the grid of so many columns that starts at `base`.
pub fn word(s: &[i32], base: usize, columns: usize, i: usize, j: usize) -> i32
    requires { base + (j * columns + i) < length s.now }
    ensures { result ≡ get_or s.now (base + (j * columns + i)) (pos 0) }
{
    s[base + (j * columns + i)]
}

// Stores a word at a column and a row of a grid of so many columns.
pub fn put(part: &mut [i32], columns: usize, i: usize, j: usize, v: i32)
    requires { j * columns + i < length part.old }
    ensures { part.new ≡ set part.old (j * columns + i) v }
{
    part[j * columns + i] = v;
}

// A copy of a list over one as long. It is a loop and not `copy_from_slice`, which calls C's memmove where the compiler cannot see that the lists lie apart:
// an archive for C asks for memcpy and memset alone.
pub fn copy(to: &mut [i32], from: &[i32])
    requires { length to.old ≡ length from.now }
    ensures { to.new ≡ from.now }
{
    for k in 0..from.len() {
        to[k] = from[k];
    }
}

// The greatest of 0 and the first n words.
pub fn greatest(s: &[i32], n: usize) -> i32
    requires { n ≤ length s.now }
    ensures { result ≡ grid_greatest n (λ k. get_or s.now k (pos 0)) }
{
    s[..n].iter().copied().fold(0, i32::max)
}

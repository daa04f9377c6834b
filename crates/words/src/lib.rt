// Words as bytes, four each, the most significant byte first.
#![tactic(auto)]

ghost use Rattle.std.specs.Prelude.{◌≡◌, ◌+◌, ◌*◌, ◌≤◌, length, drop};
ghost use Rattle.rules.specs.Sheet.{number_in, bytes_of, words_in, words_bytes};
ghost use Rattle.laws.specs.Laid.{laid};
ghost use Rattle.laws.specs.Words.{word_at};

// The number in the four bytes from index `at` on. It is read with the least significant byte first, as the machine loads it, and then swapped:
// so a loop over words is a loop over loads, which the compiler takes several at a time.
fn word(s: &[u8], at: usize) -> u32
    requires { at + 4 ≤ length s.now }
    ensures { result ≡ number_in 4 (drop at s.now) }
{
    u32::from_le_bytes([s[at], s[at + 1], s[at + 2], s[at + 3]]).swap_bytes()
}

// Lays a number's four bytes from index `at` on.
fn put_word(out: &mut [u8], at: usize, n: u32)
    requires { at + 4 ≤ length out.old }
    ensures { out.new ≡ laid out.old at (bytes_of 4 n) }
{
    out[at..at + 4].copy_from_slice(&n.to_be_bytes());
}

// The word at place k of those that stand from index `at` on.
pub fn word_at(s: &[u8], at: usize, k: usize) -> i32
    requires { at + 4 * k + 4 ≤ length s.now }
    ensures { result ≡ word_at s.now at k }
{
    bits::value_of(word(s, at + 4 * k))
}

// Reads as many words as the list has.
pub fn get_words(s: &[u8], at: usize, words: &mut [i32])
    requires { at + 4 * length words.old ≤ length s.now }
    ensures { words.new ≡ words_in (length words.old) (drop at s.now) }
{
    for (i, word) in words.iter_mut().enumerate() {
        *word = word_at(s, at, i);
    }
}

// Lays the words of a list from index `at` on.
pub fn put_words(out: &mut [u8], at: usize, words: &[i32])
    requires { at + 4 * length words.now ≤ length out.old }
    ensures { out.new ≡ laid out.old at (words_bytes words.now) }
{
    for (i, &z) in words.iter().enumerate() {
        put_word(out, at + 4 * i, bits::bits_of(z));
    }
}

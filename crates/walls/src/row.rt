// A row of words, in a list or in the bytes of a sheet: what looks at the values of a site is written once for both.
ghost use Rattle.std.specs.Prelude.{◌≡◌, ◌+◌, ◌<◌, List, ℤ, pos, length, get_or};

pub trait Words {
    ghost words: { Self → List ℤ };

    // The word at place k of those from place `from` on.
    fn word(&self, from: usize, k: usize) -> i32
        requires { from + k < length (words self.now) }
        ensures { result ≡ get_or (words self.now) (from + k) (pos 0) };
}

impl Words for &[i32] {
    ghost words = { λ list. list.now };

    fn word(&self, from: usize, k: usize) -> i32 {
        self[from + k]
    }
}

// Numbers as bytes, the most significant byte first.
#![tactic(auto)]

ghost use Rattle.std.specs.Prelude.{◌≡◌, ◌+◌, ◌≤◌, length, drop};
ghost use Rattle.rules.specs.Sheet.{number_in, bytes_of};
ghost use Rattle.laws.specs.Laid.{laid};
ghost use Rattle.numbers.specs.Asked.{BytesAt};

// The number in the k bytes from index `at` on.
pub fn number(s: &[u8], at: usize, k: usize) -> u32
    requires { BytesAt s.now at k }
    ensures { result ≡ number_in k (drop at s.now) }
{
    let mut n = 0u32;
    for &byte in &s[at..at + k] {
        n = n * 256 + u32::from(byte);
    }
    n
}

// Lays a number's k bytes from index `at` on, the last byte first.
pub fn put_number(out: &mut [u8], at: usize, k: usize, n: u32)
    requires { at + k ≤ length out.old }
    ensures { out.new ≡ laid out.old at (bytes_of k n) }
{
    let mut rest = n;
    for i in (0..k).rev() {
        out[at + i] = (rest % 256) as u8;
        rest = rest / 256;
    }
}

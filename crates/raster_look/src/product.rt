// Whether a number is the product of two others, each of up to twelve digits: their product may pass 64 bits, and is not made.
ghost use Rattle.std.specs.Prelude.{◌≡◌, ◌*◌, eqb};

pub fn is_product(n: u64, columns: u64, rows: u64) -> bool
    ensures { result ≡ eqb n (rows * columns) }
{
    if columns == 0 {
        return n == 0;
    }
    (n % columns == 0) & (n / columns == rows)
}

// Micrometres as metres with six places, laid into a list from `at` on, and how long that is.
ghost use Rattle.std.specs.Prelude.{◌≡◌, ◌∷◌, ◌+◌, ◌≤◌, ◌<◌, nat_abs, length};
ghost use Rattle.rules.specs.Text.{decimal};
ghost use Rattle.rules.specs.Raster.{six_places, metres as raster_metres, signed_metres};
ghost use Rattle.laws.specs.Laid.{laid};
ghost use Rattle.print.specs.Appended.{Appended};
ghost use Rattle.raster_writer.specs.Lines.{minus_text};

// How long a size is.
fn metres_size(n: u32) -> usize
    requires { n < 100000000 }
    ensures { result ≡ length (raster_metres n) }
{
    if n < 10000000 {
        return 8;
    }
    9
}

// How long a value is.
pub fn value_size(z: i32) -> usize
    requires { nat_abs z ≤ 50000000 }
    ensures { result ≡ length (signed_metres z) }
{
    let size = metres_size(print::size(z));
    if z < 0 {
        return size + 1;
    }
    size
}

// The whole metres, below 100. By hand: `append_decimal` asks for room for ten digits, and the last value has just its own.
fn put_whole(n: u32, out: &mut [u8], at: usize) -> usize
    requires { (n < 100) × (at + length (decimal n) ≤ length out.old) }
    ensures { Appended (decimal n) at result out.old out.new }
{
    if n < 10 {
        out[at] = 48 + n as u8;
        return at + 1;
    }
    out[at] = 48 + (n / 10) as u8;
    out[at + 1] = 48 + (n % 10) as u8;
    at + 2
}

// A point and six digits.
fn put_places(n: u32, out: &mut [u8], at: usize)
    requires { at + 7 ≤ length out.old }
    ensures { out.new ≡ laid out.old at (46 ∷ six_places n) }
{
    out[at] = b'.';
    out[at + 1] = 48 + (n / 100000 % 10) as u8;
    out[at + 2] = 48 + (n / 10000 % 10) as u8;
    out[at + 3] = 48 + (n / 1000 % 10) as u8;
    out[at + 4] = 48 + (n / 100 % 10) as u8;
    out[at + 5] = 48 + (n / 10 % 10) as u8;
    out[at + 6] = 48 + (n % 10) as u8;
}

// A size.
pub fn put_metres(n: u32, out: &mut [u8], at: usize) -> usize
    requires { (n < 100000000) × (at + length (raster_metres n) ≤ length out.old) }
    ensures { Appended (raster_metres n) at result out.old out.new }
{
    let point = put_whole(n / 1000000, out, at);
    put_places(n, out, point);
    point + 7
}

// A minus where a value is below 0.
fn put_sign(z: i32, out: &mut [u8], at: usize) -> usize
    requires { at + length (minus_text z) ≤ length out.old }
    ensures { Appended (minus_text z) at result out.old out.new }
{
    if z < 0 {
        out[at] = b'-';
        return at + 1;
    }
    at
}

// A value.
pub fn put_value(z: i32, out: &mut [u8], at: usize) -> usize
    requires { (nat_abs z ≤ 50000000) × (at + length (signed_metres z) ≤ length out.old) }
    ensures { Appended (signed_metres z) at result out.old out.new }
{
    let start = put_sign(z, out, at);
    put_metres(print::size(z), out, start)
}

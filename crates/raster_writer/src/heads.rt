// The lines of the keys, at most 63 bytes, laid into room for 80: a number is lent room for any.
ghost use Rattle.std.specs.Prelude.{◌≡◌, true, ◌++◌, ◌+◌, ◌≤◌, length};
ghost use Rattle.rules.specs.Text.{decimal};
ghost use Rattle.rules.specs.Play.{line_feed};
ghost use Rattle.rules.specs.Raster.{key_lines};
ghost use Rattle.rules.specs.Site.{card_fits};
ghost use Rattle.print.specs.Appended.{Appended};

use crate::metres;
use rules::Card;

// A count and a line feed.
fn count_line(n: u32, out: &mut [u8], at: usize) -> usize
    requires { at + 11 ≤ length out.old }
    ensures text { Appended (decimal n ++ line_feed) at result out.old out.new }
    ensures end { result ≤ at + 11 }
{
    let end = print::append_decimal(n, out, at);
    print::append(b"\n", out, end)
}

// The five lines.
pub fn key_lines(card: Card, out: &mut [u8]) -> usize
    requires { (card_fits card ≡ true) × (80 ≤ length out.old) }
    ensures text { Appended (key_lines card) 0 result out.old out.new }
    ensures end { result ≤ 80 }
{
    let columns = print::append(b"ncols ", out, 0);
    let second = count_line(card.columns, out, columns);
    let rows = print::append(b"nrows ", out, second);
    let corner = count_line(card.rows, out, rows);
    let side = print::append(b"xllcorner 0\nyllcorner 0\ncellsize ", out, corner);
    let end = metres::put_metres(card.dx, out, side);
    print::append(b"\n", out, end)
}

// Printing: onto a page, and into a lent list, where each function lays its text from `at` on and answers where it ends.
#![tactic(auto)]

mod page;

ghost use Rattle.std.specs.Prelude.{◌≡◌, ◌+◌, ◌≤◌, ◌++◌, nat_abs, length};
ghost use Rattle.rules.specs.Text.{decimal};
ghost use Rattle.rules.specs.Pumps.{progress_of};
ghost use Rattle.rules.specs.Play.{refused_line, tally_line};
ghost use Rattle.print.specs.Appended.{Appended};

pub use page::Page;
use rules::Tally;

// This and `append_decimal` keep a list and a place: they write into a list that a caller lends, of any length (raster_writer), and a page has its own room.
pub fn append(text: &[u8], out: &mut [u8], at: usize) -> usize
    requires { at + length text.now ≤ length out.old }
    ensures { Appended text.now at result out.old out.new }
{
    let k = put::put_front(text, &mut out[at..]);
    at + k
}

pub fn append_decimal(n: u32, out: &mut [u8], at: usize) -> usize
    requires { at + 10 ≤ length out.old }
    ensures text { Appended (decimal n) at result out.old out.new }
    ensures end { result ≤ at + 10 }
{
    let k = put::put_decimal(n, &mut out[at..]);
    at + k
}

// The size of a number, which may be negative.
pub fn size(top: i32) -> u32
    ensures { result ≡ nat_abs top }
{
    top.unsigned_abs()
}

// `refused`, a space and a number.
pub fn refused_line(number: u32, page: &mut Page)
    requires { length page.old + 19 ≤ 9298 }
    ensures { page.new ≡ page.old ++ refused_line number }
{
    page.put_labelled(b"refused ", number);
    page.put(b"\n");
}

// Steps done, reason and top.
pub fn tally_line(tally: Tally, page: &mut Page)
    requires { length page.old + 50 ≤ 9298 }
    ensures text { page.new ≡ page.old ++ tally_line (progress_of tally) }
    ensures end { length page.new ≤ length page.old + 50 }
{
    page.put_labelled(b"steps ", tally.steps);
    page.put_labelled(b" reason ", tally.reason);
    page.put_labelled(b" top ", size(tally.top));
    page.put(b"\n");
}

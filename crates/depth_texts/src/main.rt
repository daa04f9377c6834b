// The depth text as its callers in Rattle have it: the part that is handed back, and the whole scratch once that part's loan is over.
// The contract does not say what the rest of the scratch holds, so the stored output does. Each line ends with what `spoilt` leaves, which meets the same contract.
#![tactic(auto)]

mod spoilt;

ghost use Rattle.std.specs.Prelude.{◌≡◌, ◌≤◌, length};

use std::io;

fn say(rt: &impl Print, text: &[u8]) -> io::Result<()> {
    rt.write_all(text)
}

// A part that was handed back: its length and its bytes.
fn say_part(rt: &impl Print, part: &[u8]) -> io::Result<()> {
    rt.print(part.len())?;
    say(rt, b" [")?;
    say(rt, part)?;
    say(rt, b"] in [")
}

// What becomes of a scratch: the part that `text` hands back, and then the whole.
fn say_text<Text: Fn(i32, &mut [u8]) -> &mut [u8]>(
    rt: &impl Print,
    height: i32,
    scratch: &mut [u8],
    text: Text,
) -> io::Result<()>
    requires { Text.IsAlwaysCallable text }
{
    let part = text(height, scratch);
    say_part(rt, part)?;
    say(rt, scratch)?;
    say(rt, b"]")
}

// A scratch of ten bytes that no text has, each another.
const LETTERS: [u8; 10] = *b"ABCDEFGHIJ";

// One line: a height, and what becomes of the first so many letters.
fn say_line(rt: &impl Print, name: &[u8], height: i32, bytes: usize) -> io::Result<()>
    requires { bytes ≤ 10 }
{
    say(rt, name)?;
    say(rt, b": ")?;
    let mut scratch = LETTERS;
    say_text(rt, height, &mut scratch[..bytes], water::depth_text)?;
    say(rt, b"; spoilt ")?;
    let mut other = LETTERS;
    say_text(rt, height, &mut other[..bytes], spoilt::depth_text)?;
    say(rt, b"\n")
}

// A scratch of each length: none, too short, just right, and longer.
fn say_lines(rt: &impl Print, name: &[u8], height: i32) -> io::Result<()> {
    for bytes in 0..=10 {
        say_line(rt, name, height, bytes)?;
    }
    Ok(())
}

// Both ends of the numbers, of the range, of each kind of text, and of a rounding.
fn main(rt: HostRuntime) -> io::Result<()> {
    say_lines(&rt, b"-2,147,483,648", -2147483648)?;
    say_lines(&rt, b"-1", -1)?;
    say_lines(&rt, b"0", 0)?;
    say_lines(&rt, b"1", 1)?;
    say_lines(&rt, b"9,999", 9999)?;
    say_lines(&rt, b"10,000", 10000)?;
    say_lines(&rt, b"14,999", 14999)?;
    say_lines(&rt, b"15,000", 15000)?;
    say_lines(&rt, b"50,000,000", 50000000)?;
    say_lines(&rt, b"50,000,001", 50000001)?;
    say_lines(&rt, b"2,147,483,647", 2147483647)
}

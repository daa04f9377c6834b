// The sheet player: reads one sheet on standard input, and writes what the player prints.
#![tactic(auto)]

use std::io;
use std::io::Read;

// The contract of `play` says that 9,298 bytes hold whatever is printed.
fn answer(rt: &impl Print, input: &[u8]) -> io::Result<()> {
    let mut out = [0u8; 9298];
    let n = play::play(input, &mut out);
    rt.write_all(&out[..n])
}

// One byte more than a sheet may have is enough to see that there are too many.
fn main(rt: HostRuntime) -> io::Result<()> {
    let mut input = [0u8; 16660];
    let mut reader = rt.reader();
    let mut n = 0;
    // A `while`: how many bytes a turn brings is the reader's to say, so there is nothing to count through, and no heap for `read_to_end`.
    while n < 16660 {
        let more = reader.read(&mut input[n..])?;
        if more == 0 {
            break;
        }
        n += more;
    }
    answer(&rt, &input[..n])
}

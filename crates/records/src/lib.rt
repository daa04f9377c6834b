// Finding chambers in a row of chamber records: they are gathered into one array of numbers, and the search is over that.
#![tactic(auto)]

ghost use Rattle.std.specs.Prelude.{◌≡◌, ◌≤◌, ◌<◌, length};
ghost use Rattle.records.specs.Row.{put_at, gathered, to_read, Readable};
ghost use Rattle.records.specs.Gathered.{PartsContract, GatheredAnswer};

use rules::{Card, Chamber, Found, Window, outcome_number};
use search::search_lists;

// How many of a register's n chambers are to be read: all, or none where the card or a length is refused. So a refusal of these reads no chamber.
pub fn to_read(card: Card, land: &[i32], state: &[i32], n: usize) -> usize
    ensures { result ≡ to_read card land.now state.now n }
{
    match site::front(card, land, state, true, n <= 1000) {
        Ok(()) => n,
        Err(_) => 0,
    }
}

// Lays one chamber at place i: its x there, its y 1,000 places on.
fn put(both: &mut [i64; 2000], i: usize, chamber: Chamber)
    requires { i < 1000 }
    ensures { both.new ≡ put_at both.old i chamber }
{
    let x = chamber.x;
    let y = chamber.y;
    both[i] = x;
    both[1000 + i] = y;
}

// The row's first n chambers, each laid at its place.
pub fn gather(row: &[Chamber], n: usize) -> [i64; 2000]
    requires { Readable row.now n }
    ensures { result ≡ gathered row.now n }
{
    let mut both = [0i64; 2000];
    for (i, chamber) in row[..n].iter().enumerate() {
        put(&mut both, i, *chamber);
    }
    both
}

// The search over n chambers gathered into one list: x in front, y from place 1,000 on.
fn search_parts(
    card: Card,
    land: &[i32],
    state: &[i32],
    both: &[i64],
    n: usize,
    window: Window,
    depth: i32,
    found: &mut [u32],
) -> Found
    requires { (n ≤ 1000) × (length both.now ≡ 2000) }
    ensures { PartsContract card land.now state.now both.now n window depth found.old result found.new }
{
    search_lists(
        card,
        land,
        state,
        &both[..n],
        &both[1000..][..n],
        window,
        depth,
        found,
    )
}

// The same where n may be over 1,000: those were not gathered, and are refused. Where the card or a length is refused none was gathered either, and the search
// over the two parts refuses before it looks at them.
pub fn search_gathered(
    card: Card,
    land: &[i32],
    state: &[i32],
    both: [i64; 2000],
    n: usize,
    window: Window,
    depth: i32,
    found: &mut [u32],
) -> Found
    ensures { GatheredAnswer card land.now state.now both n window depth found.old result found.new }
{
    if 1000 < n {
        let front = site::front(card, land, state, true, false);
        return Found {
            number: outcome_number(front),
            count: 0,
        };
    }
    search_parts(card, land, state, &both, n, window, depth, found)
}

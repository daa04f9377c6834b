// What crosses each face in one step: the part of the tide behind the heights. One division for each inner face that has a velocity and water behind it; no
// face is looked at in a still row.
#![tactic(auto)]

ghost use Rattle.std.specs.Prelude.{◌≡◌, ◌*◌, drop};
ghost use Rattle.rules.specs.Grid.{grid};
ghost use Rattle.rules.specs.Site.{read_state};
ghost use Rattle.rules.specs.Step.{transfer};
ghost use Rattle.transfers.specs.Tide.{crossings};
ghost use Rattle.transfers.specs.Known.{InCrossing, LimitedFace, FacesRoom, CrossingsRoom, TideRoom};
ghost use Rattle.layout.specs.Ways as Ways;

use layout::ways::Way;
use layout::words;
use rules::Card;

// What crosses the face between K and L, where the step limit bounds it.
fn crossing(hk: i32, hl: i32, u: i32, dt: u32, d: u32) -> i32
    requires { InCrossing hk hl u dt d }
    ensures { result ≡ transfer dt d hk hl u }
{
    face::transfer(hk, hl, u, dt, d) as i32
}

// What crosses one face of this way. Where the velocity is 0, no height is read.
fn over_face(card: Card, way: Way, state: &[i32], i: usize, j: usize) -> i32
    requires { LimitedFace card state.now way i j }
    ensures { result ≡ Ways.transfers card (read_state card state.now) way i j }
{
    if way.is_wall(card, i, j) {
        return 0;
    }
    let u = words::face_at(card, way, state, i, j);
    if u == 0 {
        0
    } else {
        let k = words::height_at(card, state, way.back_column(i), way.back_row(j));
        let l = words::height_at(card, state, i, j);
        crossing(k, l, u, card.dt, way.side(card))
    }
}

// What crosses every face of this way.
fn over_faces(card: Card, way: Way, state: &[i32], marks: &[bool], part: &mut [i32])
    requires { FacesRoom card state.now marks.now way part.old }
    ensures { part.new ≡ grid (Ways.wide card way) (Ways.high card way) (Ways.transfers card (read_state card state.now) way) }
{
    let wide = way.wide(card);
    let high = way.high(card);
    // By row and column, the numbers that a face's place and its two cells take.
    for j in 0..high {
        let still = still::both_still(card, way, marks, j);
        for i in 0..wide {
            let crossed = if still {
                0
            } else {
                over_face(card, way, state, i, j)
            };
            lists::put(part, wide, i, j, crossed);
        }
    }
}

// Eastward ones, then northward ones, in a part that starts behind the heights.
fn both_ways(card: Card, state: &[i32], marks: &[bool], part: &mut [i32])
    requires { CrossingsRoom card state.now marks.now part.old }
    ensures { part.new ≡ crossings card (read_state card state.now) }
{
    let columns = card.columns as usize;
    let rows = card.rows as usize;
    let faces = rows * (columns + 1);
    over_faces(card, Way::East, state, marks, &mut part[..faces]);
    over_faces(card, Way::North, state, marks, &mut part[faces..]);
}

// Into the tide, behind its heights.
pub fn transfers(card: Card, state: &[i32], marks: &[bool], tide: &mut [i32])
    requires { TideRoom card state.now marks.now tide.old }
    ensures { drop (card.rows * card.columns) tide.new ≡ crossings card (read_state card state.now) }
{
    let columns = card.columns as usize;
    let rows = card.rows as usize;
    let cells = rows * columns;
    both_ways(card, state, marks, &mut tide[cells..]);
}

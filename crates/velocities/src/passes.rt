// The velocities of the next state, in the part of it that starts behind the heights: two passes, each left at the first velocity out of
// range. At most two divisions for each inner face, by the textbook engine three; none on the walls. Four numbers are read for a face, and eighteen where it has
// water and no dry bank; of the rows that are still the first engine reads no more than the four.
ghost use Rattle.std.specs.Prelude.{◌≡◌, suc, ◌+◌, ◌*◌};
ghost use Rattle.rules.specs.Grid.{grid, all_at};
ghost use Rattle.rules.specs.Site.{read_ground, read_state, speed_fits};
ghost use Rattle.rules.specs.Step.{new_velocities_fit};
ghost use Rattle.laws.specs.Engines.{engine};
ghost use Rattle.laws.specs.Tested.{Filled};
ghost use Rattle.layout.specs.Ways as Ways;
ghost use Rattle.velocities.specs.Velocities.{OnFace, Room, flow_speeds, next_velocities};

use crate::inner;
use around::flow::Flow;
use layout::ways::Way;
use velocity::engines::Engine;

// The new velocity of a face, a wall or an inner one, in a row that is passed over as still or in any other.
fn velocity<E: Engine>(flow: &Flow, way: Way, i: usize, j: usize, still: bool) -> i64
    requires { OnFace flow.now.card flow.now.state.now way i j still E.TEXTBOOK }
    ensures { result ≡ flow_speeds (engine E.TEXTBOOK) flow.now way i j }
{
    if way.is_wall(flow.card, i, j) {
        return 0;
    }
    let k = way.back_column(i);
    let l = way.back_row(j);
    inner::velocity::<E>(flow, way, k, l, still)
}

// Those of the faces that point one way.
fn pass<E: Engine>(flow: &Flow, way: Way, marks: &[bool], part: &mut [i32]) -> bool
    requires { Room flow.now.card flow.now.state.now marks.now (Ways.high flow.now.card way * Ways.wide flow.now.card way) part.old }
    ensures { Filled (all_at (Ways.wide flow.now.card way) (Ways.high flow.now.card way) (λ i j. speed_fits (flow_speeds (engine E.TEXTBOOK) flow.now way i j)))
        (grid (Ways.wide flow.now.card way) (Ways.high flow.now.card way) (flow_speeds (engine E.TEXTBOOK) flow.now way)) result part.new }
{
    // A copy of its own: for all that the compiler knows, a word that is put could lie in the flow that is lent, and each face would have it read again.
    let own = *flow;
    let card = own.card;
    let wide = way.wide(card);
    let high = way.high(card);
    // By row and column, the numbers that all that stands around a face takes.
    for j in 0..high {
        // The textbook engine passes over none: when it was tried, with a test for it on every still face, a lake took the first engine a quarter longer.
        let still = !E::TEXTBOOK & still::both_still(card, way, marks, j);
        for i in 0..wide {
            let u = velocity::<E>(&own, way, i, j, still);
            if !velocity::speed_fits(u) {
                return false;
            }
            lists::put(part, wide, i, j, u as i32);
        }
    }
    true
}

// Both, in the part of the next state that starts behind the heights. Where one is out of range, nothing is promised of the part's words.
pub fn velocities<E: Engine>(flow: &Flow, marks: &[bool], part: &mut [i32]) -> bool
    requires { Room flow.now.card flow.now.state.now marks.now (flow.now.card.rows * suc flow.now.card.columns + suc flow.now.card.rows * flow.now.card.columns) part.old }
    ensures { Filled (new_velocities_fit (engine E.TEXTBOOK) flow.now.card (read_ground flow.now.card flow.now.land.now) (read_state flow.now.card flow.now.state.now))
        (next_velocities (engine E.TEXTBOOK) flow.now.card flow.now.land.now flow.now.state.now) result part.new }
{
    let columns = flow.card.columns as usize;
    let rows = flow.card.rows as usize;
    let faces = rows * (columns + 1);
    pass::<E>(flow, Way::East, marks, &mut part[..faces])
        && pass::<E>(flow, Way::North, marks, &mut part[faces..])
}

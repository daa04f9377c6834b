// The new velocity of an inner face, by the first engine or the textbook's. Its levels, four numbers, say whether it is 0, without water and on a dry bank, and give
// the rise. Only then are the eighteen numbers around it gathered, for what is carried: were they read before the levels are looked at, the compiler would keep
// them all on the stack across it.
ghost use Rattle.std.specs.Prelude.{◌≡◌};
ghost use Rattle.laws.specs.Engines.{engine};
ghost use Rattle.layout.specs.Ways as Ways;
ghost use Rattle.around.specs.Faces.{flow_face};
ghost use Rattle.velocities.specs.Velocities.{OnInner};

use around::flow::Flow;
use around::{faces, levels};
use layout::ways::Way;
use velocity::engines::Engine;

// The face of which (k, l) is cell K, in a row that is passed over as still or in any other.
pub fn velocity<E: Engine>(flow: &Flow, way: Way, k: usize, l: usize, still: bool) -> i64
    requires { OnInner flow.now.card flow.now.state.now way k l still E.TEXTBOOK }
    ensures { result ≡ engine E.TEXTBOOK flow.now.card.dt (Ways.side flow.now.card way) (flow_face flow.now way k l) }
{
    let card = flow.card;
    let levels = levels::still_face(card, way, flow.land, flow.tide, k, l);
    if still {
        return velocity::still_velocity(levels, card.dt, way.side(card));
    }
    if velocity::no_water(levels) {
        return 0;
    }
    if velocity::banks::dry_bank(levels) {
        return 0;
    }
    let rise = E::rise(levels);
    velocity::new_velocity(faces::face(flow, way, k, l), rise, card.dt, way.side(card))
}

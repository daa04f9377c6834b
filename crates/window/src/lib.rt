// The window that a finger drew: four floats, taken as they were given.
#![tactic(auto)]

ghost use Rattle.std.specs.Prelude.{◌≡◌, T};
ghost use Rattle.std.specs.Float.{binary64};
ghost use Rattle.std.specs.Float.Ieee.{in_float};
ghost use Rattle.rules.specs.Search.{edges_finite, inside as search_inside};

use rules::Window;

// Whether no edge is a NaN or an infinity.
pub fn edges_finite(window: Window) -> bool
    ensures { result ≡ edges_finite window }
{
    window.west.is_finite()
        & window.south.is_finite()
        & window.east.is_finite()
        & window.north.is_finite()
}

// Whether west ≤ x ≤ east and south ≤ y ≤ north, x and y turned into floats. The two are joined by a branch: four float tests joined without one
// the compiler makes into vectors, which takes longer.
pub fn inside(window: Window, x: i64, y: i64) -> bool
    requires { T (in_float binary64 x) × T (in_float binary64 y) }
    ensures { result ≡ search_inside window x y }
{
    let x = x as f64;
    let y = y as f64;
    let x_inside = (window.west <= x) & (x <= window.east);
    let y_inside = (window.south <= y) & (y <= window.north);
    if x_inside {
        return y_inside;
    }
    false
}

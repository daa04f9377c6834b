// Dry banks: where one of a face's cells is dry after the step and its ground is at or above the other's new surface, the new velocity is 0.
ghost use Rattle.std.specs.Prelude.{◌≡◌};
ghost use Rattle.rules.specs.Step as step;
ghost use Rattle.momentum.specs.Fits.{FaceFits};

use rules::Face;

// Whether a cell is a dry bank beside another whose new surface is given.
fn is_bank(height: i32, land: i32, surface: i32) -> bool
    ensures { result ≡ step.is_bank height land surface }
{
    (height == 0) & (surface <= land)
}

// Whether one of the face's cells is a dry bank beside the other.
pub fn dry_bank(f: Face) -> bool
    requires { FaceFits f }
    ensures { result ≡ step.dry_bank f }
{
    let hk = f.new_k;
    let zk = f.ground_k;
    let hl = f.new_l;
    let zl = f.ground_l;
    let surface_k = hk + zk;
    let surface_l = hl + zl;
    is_bank(hk, zk, surface_l) | is_bank(hl, zl, surface_k)
}

// The arithmetic of one face's new velocity, by the first engine or the textbook's (engines.rt): what each function returns is said by definitions of `rules`. Two divisions, none
// where what it would divide is 0; the textbook's rise takes one more.
#![tactic(auto)]

pub mod banks;
pub mod engines;
mod textbook;

ghost use Rattle.std.specs.Prelude.{◌≡◌, ◌-ℤ◌};
ghost use Rattle.std.specs.Int.Signed.{quot_z};
ghost use Rattle.rules.specs.Site.{is_zero, speed_fits};
ghost use Rattle.rules.specs.Step as step;
ghost use Rattle.momentum.specs.Fits.{FaceFits};
ghost use Rattle.velocity.specs.Fits.{InQuotient, InVelocity, InSlope, InStillVelocity};

use rules::Face;

// The quotient towards zero. Most faces of a site carry nothing, and a test costs less than a division.
fn quotient(a: i64, b: i64) -> i64
    requires { InQuotient a b }
    ensures { result ≡ quot_z a b }
{
    if a == 0 {
        return 0;
    }
    a / b
}

// How much higher the new surface stands in L than in K.
fn rise(f: Face) -> i32
    requires { FaceFits f }
    ensures { result ≡ step.rise f }
{
    let hk = f.new_k;
    let zk = f.ground_k;
    let hl = f.new_l;
    let zl = f.ground_l;
    (hl + zl) - (hk + zk)
}

// Where both new surfaces stand level there is nothing to multiply and nothing to divide.
fn slope(rise: i64, dt: u32, d: u32) -> i64
    requires { InSlope rise dt d }
    ensures { result ≡ step.slope dt d rise }
{
    if rise == 0 {
        return 0;
    }
    let pull = 9806650 * (dt as i64) * rise;
    let below = 1000 * (d as i64);
    pull / below
}

// H', the water on both sides of the face after the step.
fn new_sum(f: Face) -> i32
    requires { FaceFits f }
    ensures { result ≡ step.new_sum f }
{
    let k = f.new_k;
    let l = f.new_l;
    k + l
}

// Whether there is none: then the new velocity is 0.
pub fn no_water(f: Face) -> bool
    requires { FaceFits f }
    ensures { result ≡ is_zero (step.new_sum f) }
{
    new_sum(f) == 0
}

// The new velocity of an inner face with water and no dry bank, once its rise is known.
pub fn new_velocity(f: Face, rise: i64, dt: u32, d: u32) -> i64
    requires { InVelocity f rise dt d }
    ensures { result ≡ step.carried_part f -ℤ step.slope dt d rise }
{
    quotient(momentum::carried(f), new_sum(f) as i64) - slope(rise, dt, d)
}

// By the first engine, that of a face which carries nothing, as all do between still rows; on a level surface, as of a lake, no bank is looked for. It is a
// function of its own: of one for both kinds of rows the compiler would make one place, and every still face would go through the products of one that moves.
pub fn still_velocity(f: Face, dt: u32, d: u32) -> i64
    requires { InStillVelocity f dt d }
    ensures { result ≡ step.new_velocity dt d f }
{
    if new_sum(f) == 0 {
        return 0;
    }
    let rise = rise(f);
    if rise == 0 {
        return 0;
    }
    if banks::dry_bank(f) {
        return 0;
    }
    -slope(rise as i64, dt, d)
}

// Whether a new velocity lies in its range.
pub fn speed_fits(v: i64) -> bool
    ensures { result ≡ speed_fits v }
{
    (-20000000..=20000000).contains(&v)
}

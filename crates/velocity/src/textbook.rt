// The rise as the textbook engine works it out: the pressure term and the ground term of (7d) apart, both doubled so that they stay whole, and their sum
// divided by H'.
ghost use Rattle.std.specs.Prelude.{◌≡◌};
ghost use Rattle.rules.specs.Textbook as book;
ghost use Rattle.momentum.specs.Fits.{FaceFits};
ghost use Rattle.velocity.specs.Fits.{WetFace};

use rules::Face;

// The difference of the squared new heights, (7c) with (11).
fn pressure_term(f: Face) -> i64
    requires { FaceFits f }
    ensures { result ≡ book.pressure_term f }
{
    let k = f.new_k as i64;
    let l = f.new_l as i64;
    l * l - k * k
}

// Twice the mean height, (17).
fn mean_height(f: Face) -> i64
    requires { FaceFits f }
    ensures { result ≡ book.mean_height f }
{
    let hk = f.new_k as i64;
    let hl = f.new_l as i64;
    hk + hl
}

// The mean height times the ground's difference.
fn ground_term(f: Face) -> i64
    requires { FaceFits f }
    ensures { result ≡ book.ground_term f }
{
    let zk = f.ground_k as i64;
    let zl = f.ground_l as i64;
    mean_height(f) * (zl - zk)
}

// Both terms over H'. The division leaves no rest, but it is made.
pub fn rise(f: Face) -> i64
    requires { WetFace f }
    ensures { result ≡ book.textbook_rise f }
{
    let terms = pressure_term(f) + ground_term(f);
    terms / (crate::new_sum(f) as i64)
}

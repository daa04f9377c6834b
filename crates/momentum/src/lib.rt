// The momentum that the flows carry into the cell of one face: what each function returns is a definition of `rules`.
#![tactic(auto)]

ghost use Rattle.std.specs.Prelude.{◌≡◌};
ghost use Rattle.rules.specs.Step as step;
ghost use Rattle.momentum.specs.Fits.{FaceFits, Flow};

use rules::Face;

fn out_ahead(f: Face) -> i32
    requires { FaceFits f }
    ensures { result ≡ step.out_ahead f }
{
    let own = f.own;
    let ahead = f.ahead;
    own + ahead
}

fn out_behind(f: Face) -> i32
    requires { FaceFits f }
    ensures { result ≡ step.out_behind f }
{
    let own = f.own;
    let behind = f.behind;
    -(own + behind)
}

fn out_above(f: Face) -> i32
    requires { FaceFits f }
    ensures { result ≡ step.out_above f }
{
    let k = f.above_k;
    let l = f.above_l;
    k + l
}

fn out_below(f: Face) -> i32
    requires { FaceFits f }
    ensures { result ≡ step.out_below f }
{
    let k = f.below_k;
    let l = f.below_l;
    -(k + l)
}

#[tactic(auto, using(crate::proofs::Laws::positive_max))]
// The definition's word in the code, with std's method inside.
fn positive(flow: i32) -> i32
    ensures { result ≡ step.positive flow }
{
    flow.max(0)
}

// Own share: what stays in the face's cell.
fn own_share(f: Face) -> i32
    requires { FaceFits f }
    ensures { result ≡ step.own_share f }
{
    let k = f.old_k;
    let l = f.old_l;
    let along = positive(out_ahead(f)) + positive(out_behind(f));
    let across = positive(out_above(f)) + positive(out_below(f));
    k + l - (along + across)
}

// Flow in, times the velocity of the parallel face that it comes from.
fn brought(out: i32, v: i32) -> i64
    requires { Flow out v }
    ensures { result ≡ step.brought out v }
{
    (positive(-out) as i64) * (v as i64)
}

pub fn carried(f: Face) -> i64
    requires { FaceFits f }
    ensures { result ≡ step.carried f }
{
    let u = f.u;
    let kept = (own_share(f) as i64) * (u as i64);
    let along = brought(out_ahead(f), f.u_ahead) + brought(out_behind(f), f.u_behind);
    let across = brought(out_above(f), f.u_above) + brought(out_below(f), f.u_below);
    kept + (along + across)
}

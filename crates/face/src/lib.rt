// The arithmetic of one cell and of what crosses one face, for the first half of a step: what each function returns is a definition of
// `rules`. One division, for a transfer, and none where the upwind cell is empty.
#![tactic(auto)]

ghost use Rattle.std.specs.Prelude.{◌≡◌, cond, ◌+◌, ◌*◌, pos, nat_abs, ◌+ℤ◌, ◌-ℤ◌, leb};
ghost use Rattle.std.specs.Int.Signed.{lt_z};
ghost use Rattle.rules.specs.Step as step;
ghost use Rattle.face.specs.Ranges.{Speed, InTransfer, InLimit, InHeight};
ghost use Rattle.face.specs.Counts.{counts};

// ---- Transfer

// The height of the cell that the water leaves: L's where u < 0, K's else. Where u is 0 nothing leaves, whichever it is.
fn upwind(hk: i32, hl: i32, u: i32) -> i32
    ensures { result ≡ cond (lt_z u (pos 0)) hl hk }
{
    if u < 0 { hl } else { hk }
}

// What crosses the face between K and L in one step.
pub fn transfer(hk: i32, hl: i32, u: i32, dt: u32, d: u32) -> i64
    requires { InTransfer hk hl u dt d }
    ensures { result ≡ step.transfer dt d hk hl u }
{
    let h = upwind(hk, hl, u);
    if h == 0 {
        return 0;
    }
    let top = (h as i64) * (u as i64) * (dt as i64);
    let below = 1000 * (d as i64);
    top / below
}

// ---- Step limit

// What a face counts in a cell's limit: its speed where its velocity points out of the cell, else nothing.
#[tactic(auto, unfolding(crate::specs::Counts::counts))]
fn counted(v: i32, out: bool) -> u64
    requires { Speed v }
    ensures { result ≡ counts out v }
{
    if out { u64::from(v.unsigned_abs()) } else { 0 }
}

// Whether a cell with these face velocities keeps the step limit: its seven numbers.
pub fn keeps_limit(west: i32, east: i32, south: i32, north: i32, dt: u32, dx: u32, dy: u32) -> bool
    requires { InLimit west east south north dt dx dy }
    ensures { result ≡ leb (dt * ((step.backward west + step.forward east) * dy + (step.backward south + step.forward north) * dx)) (1000 * (dx * dy)) }
{
    let x = dx as u64;
    let y = dy as u64;
    let west_east = counted(west, west < 0) + counted(east, east > 0);
    let south_north = counted(south, south < 0) + counted(north, north > 0);
    (dt as u64) * (west_east * y + south_north * x) <= 1000 * (x * y)
}

// ---- New height

// The old height, less what leaves and plus what enters over the four faces.
pub fn new_height(h: i32, west: i32, east: i32, south: i32, north: i32) -> i32
    requires { InHeight h west east south north }
    ensures { result ≡ h +ℤ west -ℤ east +ℤ south -ℤ north }
{
    h + west - east + south - north
}

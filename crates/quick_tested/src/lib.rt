// Number 10 by one test: what a step on a contact without a flaw would write is finite exactly where the six numbers of the
// velocities that it leaves are; and one sum of the six tells that, but for sums that pass the largest float.
#![tactic(auto)]

ghost use Rattle.std.specs.Prelude.{◌≡◌, true};
ghost use Rattle.elem_leaves.specs.Finite.{finite};
ghost use Rattle.step_values.specs.Values.{not_finite_vels};

use elem_velocity::Vels;
use step_values::not_finite_vels;

// The largest float.
const LARGEST: f32 = f32::MAX;

// Told by two comparisons, so that a NaN and the infinities fail.
fn in_reach(x: f32) -> bool
    ensures { result ≡ true → finite x ≡ true }
{
    (-LARGEST <= x) & (x <= LARGEST)
}

// Whether one of the six numbers is not finite. A sum that is finite has finite parts; where it is not, each is looked at.
pub fn lost_vels(vels: Vels) -> bool
    ensures { result ≡ not_finite_vels vels }
{
    let v1 = vels.v1;
    let v2 = vels.v2;
    let x = v1.linear.x + v2.linear.x + v1.angular;
    let y = v1.linear.y + v2.linear.y + v2.angular;
    if in_reach(x + y) {
        return false;
    }
    not_finite_vels(vels)
}

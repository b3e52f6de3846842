// The tangent part of a contact point, as in the Rust's contact_constraint_element.rs for one lane
// of f32 in the plane, with its names. A routine takes the part and the two velocities by value and
// gives the new ones back. tangent1, im1, im2 and vels are parameters of their own, as there.
#![tactic(auto)]

ghost use Rattle.std.specs.Prelude.{◌≡◌};
ghost use Rattle.elem_leaves.specs.Floats.{◌+f◌};
ghost use Rattle.elem_tangent.specs.Tangent.{friction, tangent_warm, tangent_zero};

use elem_leaves::{Vec2, clamp};
use elem_velocity::Vels;

// Rubbing, along the contact's tangent.
#[derive(Clone, Copy)]
pub struct ContactConstraintTangentPart {
    pub torque_dir1: f32,
    pub torque_dir2: f32,
    pub ii_torque_dir1: f32,
    pub ii_torque_dir2: f32,
    pub rhs: f32,
    pub impulse: f32,
    pub impulse_accumulator: f32,
    pub r: f32,
}

#[derive(Clone, Copy)]
pub struct TangentSolved {
    pub part: ContactConstraintTangentPart,
    pub vels: Vels,
}

impl ContactConstraintTangentPart {
    // Document 01 wants both: a named constant, and the Rust's zero().
    pub const ZERO: ContactConstraintTangentPart = ContactConstraintTangentPart {
        torque_dir1: 0.0,
        torque_dir2: 0.0,
        ii_torque_dir1: 0.0,
        ii_torque_dir2: 0.0,
        rhs: 0.0,
        impulse: 0.0,
        impulse_accumulator: 0.0,
        r: 0.0,
    };

    #[tactic(auto, unfolding(crate::specs::Tangent::tangent_zero))]
    pub fn zero() -> ContactConstraintTangentPart
        ensures { result ≡ tangent_zero }
    {
        ContactConstraintTangentPart::ZERO
    }

    // What the point has pushed over all turns of the recording. (This and warmstart stand in both parts, as in the Rust: a
    // trait of the two would name four fields to save these two bodies.)
    pub fn total_impulse(self) -> f32
        ensures { result ≡ self.impulse_accumulator +f self.impulse }
    {
        self.impulse_accumulator + self.impulse
    }

    #[tactic(auto, unfolding(crate::specs::Tangent::tangent_warm))]
    pub fn warmstart(self, tangent1: Vec2, im1: Vec2, im2: Vec2, vels: Vels) -> Vels
        ensures { result ≡ tangent_warm self tangent1 im1 im2 vels }
    {
        vels.push(
            tangent1,
            im1,
            im2,
            self.ii_torque_dir1,
            self.ii_torque_dir2,
            self.impulse,
        )
    }

    #[tactic(auto, unfolding(crate::specs::Tangent::friction, crate::specs::Tangent::tangent_with))]
    pub fn solve(
        self,
        tangent1: Vec2,
        im1: Vec2,
        im2: Vec2,
        limit: f32,
        vels: Vels,
    ) -> TangentSolved
        ensures { result ≡ friction self tangent1 im1 im2 limit vels }
    {
        let dvel = vels.dvel(tangent1, self.torque_dir1, self.torque_dir2, self.rhs);
        let n = clamp(self.impulse - self.r * dvel, limit);
        let dlambda = n - self.impulse;
        TangentSolved {
            part: ContactConstraintTangentPart { impulse: n, ..self },
            vels: vels.push(
                tangent1,
                im1,
                im2,
                self.ii_torque_dir1,
                self.ii_torque_dir2,
                dlambda,
            ),
        }
    }
}

// The normal part of a contact point, alone and in pairs, as in the Rust's
// contact_constraint_element.rs for one lane of f32 in the plane: the same names in the same order.
// A routine takes the part and the two velocities by value and gives the new ones back. dir1, im1, im2
// and vels are parameters of their own, since the Rust's signatures have them so, and PartsPush too.
#![tactic(auto)]

ghost use Rattle.std.specs.Prelude.{◌≡◌};
ghost use Rattle.elem_leaves.specs.Floats.{◌+f◌};
ghost use Rattle.elem_impulse.specs.Pair.{choice};
ghost use Rattle.elem_normal.specs.Normal.{normal, normal_moved, normal_warm, normal_with, normal_zero};
ghost use Rattle.elem_normal.specs.Normal.{restitution};
ghost use Rattle.elem_normal.specs.Pair.{pair, pair_choice, pair_dvel, pair_moved, pair_push};

use elem_impulse::{Branch, PairChoice, choice, normal_impulse, restitution_impulse};
use elem_leaves::Vec2;
use elem_velocity::Vels;

// Pushing, along the contact's direction.
#[derive(Clone, Copy)]
pub struct ContactConstraintNormalPart {
    pub torque_dir1: f32,
    pub torque_dir2: f32,
    pub ii_torque_dir1: f32,
    pub ii_torque_dir2: f32,
    pub rhs: f32,
    pub impulse: f32,
    pub impulse_accumulator: f32,
    pub r: f32,
    // The point's softness.
    pub cfm_factor: f32,
    // The speed at which it bounces, below zero where it does.
    pub seed: f32,
}

#[derive(Clone, Copy)]
pub struct NormalSolved {
    pub part: ContactConstraintNormalPart,
    pub vels: Vels,
}

#[derive(Clone, Copy)]
pub struct PairSolved {
    pub a: ContactConstraintNormalPart,
    pub b: ContactConstraintNormalPart,
    pub vels: Vels,
    pub branch: Branch,
}

impl ContactConstraintNormalPart {
    // Document 01 wants both: a named constant, and the Rust's zero().
    pub const ZERO: ContactConstraintNormalPart = ContactConstraintNormalPart {
        torque_dir1: 0.0,
        torque_dir2: 0.0,
        ii_torque_dir1: 0.0,
        ii_torque_dir2: 0.0,
        rhs: 0.0,
        impulse: 0.0,
        impulse_accumulator: 0.0,
        r: 0.0,
        cfm_factor: 0.0,
        seed: 0.0,
    };

    #[tactic(auto, unfolding(crate::specs::Normal::normal_zero))]
    pub fn zero() -> ContactConstraintNormalPart
        ensures { result ≡ normal_zero }
    {
        ContactConstraintNormalPart::ZERO
    }

    // What the point has pushed over all turns of the recording. (This and warmstart stand in both parts, as in the Rust.)
    pub fn total_impulse(self) -> f32
        ensures { result ≡ self.impulse_accumulator +f self.impulse }
    {
        self.impulse_accumulator + self.impulse
    }

    #[tactic(auto, unfolding(crate::specs::Normal::normal_warm))]
    pub fn warmstart(self, dir1: Vec2, im1: Vec2, im2: Vec2, vels: Vels) -> Vels
        ensures { result ≡ normal_warm self dir1 im1 im2 vels }
    {
        vels.push(
            dir1,
            im1,
            im2,
            self.ii_torque_dir1,
            self.ii_torque_dir2,
            self.impulse,
        )
    }

    #[tactic(auto, unfolding(crate::specs::Normal::normal_with))]
    fn with_impulse(self, n: f32) -> ContactConstraintNormalPart
        ensures { result ≡ normal_with self n }
    {
        ContactConstraintNormalPart { impulse: n, ..self }
    }

    // The change to n is pushed, even when it is zero, and n stored.
    #[tactic(auto, unfolding(crate::specs::Normal::normal_moved))]
    fn moved(self, n: f32, dir1: Vec2, im1: Vec2, im2: Vec2, vels: Vels) -> NormalSolved
        ensures { result ≡ normal_moved self n dir1 im1 im2 vels }
    {
        let dlambda = n - self.impulse;
        NormalSolved {
            part: self.with_impulse(n),
            vels: vels.push(
                dir1,
                im1,
                im2,
                self.ii_torque_dir1,
                self.ii_torque_dir2,
                dlambda,
            ),
        }
    }

    #[tactic(auto, unfolding(crate::specs::Normal::normal))]
    pub fn solve(self, dir1: Vec2, im1: Vec2, im2: Vec2, vels: Vels) -> NormalSolved
        ensures { result ≡ normal self dir1 im1 im2 vels }
    {
        let dvel = vels.dvel(dir1, self.torque_dir1, self.torque_dir2, self.rhs);
        let n = normal_impulse(self.cfm_factor, self.impulse, self.r, dvel);
        self.moved(n, dir1, im1, im2, vels)
    }

    #[tactic(auto, unfolding(crate::specs::Normal::restitution))]
    pub fn solve_restitution(self, dir1: Vec2, im1: Vec2, im2: Vec2, vels: Vels) -> NormalSolved
        ensures { result ≡ restitution self dir1 im1 im2 vels }
    {
        let dvel = vels.dvel(dir1, self.torque_dir1, self.torque_dir2, self.seed);
        let total = self.total_impulse();
        let n = restitution_impulse(self.seed, total, self.impulse, self.r, dvel);
        self.moved(n, dir1, im1, im2, vels)
    }

    // New impulses for two coupled points. It sees no part, and so stands in elem_impulse; here it has the Rust's name.
    pub fn solve_mlcp_two_constraints(
        dvel: Vec2,
        degraded_dvel: f32,
        prev: Vec2,
        ra: f32,
        rb: f32,
        k12: f32,
        flag: f32,
        cfm: Vec2,
    ) -> PairChoice
        ensures { result ≡ choice dvel degraded_dvel prev ra rb k12 flag cfm }
    {
        choice(dvel, degraded_dvel, prev, ra, rb, k12, flag, cfm)
    }

    #[tactic(auto, unfolding(crate::specs::Pair::pair))]
    pub fn solve_pair(
        a: ContactConstraintNormalPart,
        b: ContactConstraintNormalPart,
        dir1: Vec2,
        im1: Vec2,
        im2: Vec2,
        k12: f32,
        flag: f32,
        vels: Vels,
    ) -> PairSolved
        ensures { result ≡ pair a b dir1 im1 im2 k12 flag vels }
    {
        let chosen = pair_choice(a, b, dir1, k12, flag, vels);
        pair_moved(a, b, chosen, dir1, im1, im2, vels)
    }
}

// A pair's dvel at one point: what the two share first. It differs in rounding from Vels::dvel.
#[tactic(auto, unfolding(crate::specs::Pair::pair_dvel))]
fn pair_dvel(lin: f32, part: ContactConstraintNormalPart, vels: Vels) -> f32
    ensures { result ≡ pair_dvel lin part vels }
{
    lin + part.torque_dir1 * vels.v1.angular + part.torque_dir2 * vels.v2.angular + part.rhs
}

#[tactic(auto, unfolding(crate::specs::Pair::pair_choice))]
fn pair_choice(
    a: ContactConstraintNormalPart,
    b: ContactConstraintNormalPart,
    dir1: Vec2,
    k12: f32,
    flag: f32,
    vels: Vels,
) -> PairChoice
    ensures { result ≡ pair_choice a b dir1 k12 flag vels }
{
    let linear1 = vels.v1.linear;
    let linear2 = vels.v2.linear;
    let lin = dir1.dot(linear1) - dir1.dot(linear2);
    let dvela = pair_dvel(lin, a, vels);
    let dvelb = pair_dvel(lin, b, vels);
    let degraded_dvel = vels.dvel(dir1, a.torque_dir1, a.torque_dir2, a.rhs);
    ContactConstraintNormalPart::solve_mlcp_two_constraints(
        Vec2 { x: dvela, y: dvelb },
        degraded_dvel,
        Vec2 {
            x: a.impulse,
            y: b.impulse,
        },
        a.r,
        b.r,
        k12,
        flag,
        Vec2 {
            x: a.cfm_factor,
            y: b.cfm_factor,
        },
    )
}

// Both velocities after the changes x of point a and y of point b.
#[tactic(auto, unfolding(crate::specs::Pair::pair_push))]
fn pair_push(
    a: ContactConstraintNormalPart,
    b: ContactConstraintNormalPart,
    x: f32,
    y: f32,
    dir1: Vec2,
    im1: Vec2,
    im2: Vec2,
    vels: Vels,
) -> Vels
    ensures { result ≡ pair_push a b x y dir1 im1 im2 vels }
{
    let v1 = vels.v1;
    let v2 = vels.v2;
    let turn1 = a.ii_torque_dir1 * x + b.ii_torque_dir1 * y;
    let turn2 = a.ii_torque_dir2 * x + b.ii_torque_dir2 * y;
    Vels {
        v1: v1.moved(dir1, im1, x + y, turn1),
        v2: v2.moved(dir1, im2, -x - y, turn2),
    }
}

#[tactic(auto, unfolding(crate::specs::Pair::pair_moved))]
fn pair_moved(
    a: ContactConstraintNormalPart,
    b: ContactConstraintNormalPart,
    chosen: PairChoice,
    dir1: Vec2,
    im1: Vec2,
    im2: Vec2,
    vels: Vels,
) -> PairSolved
    ensures { result ≡ pair_moved a b chosen dir1 im1 im2 vels }
{
    let n = chosen.impulse;
    let branch = chosen.branch;
    let x = n.x - a.impulse;
    let y = n.y - b.impulse;
    PairSolved {
        a: a.with_impulse(n.x),
        b: b.with_impulse(n.y),
        vels: pair_push(a, b, x, y, dir1, im1, im2, vels),
        branch,
    }
}

// The lent stretches as tables of rows: a row is lent as a part and read as a record. A row that a
// table does not have reads as zero; velocity_in and contact_in ask that it is there. (A row is read by a function and no
// From: how long the part is, is asked. The stretches are those of the C interface.)
#![tactic(auto)]

ghost use Rattle.std.specs.Prelude.{◌≡◌, min, ◌<◌, length};
ghost use Rattle.base_places.specs.Places.{body_width, floats_width, head_width, normal_width, numbers_width};
ghost use Rattle.base_places.specs.Places.{point_width, step_width, tangent_width};
ghost use Rattle.base_rows.specs.Rows.{rows};
ghost use Rattle.list_tables.specs.Tables.{contact_at, contact_of, head_of, normal_of, point_of};
ghost use Rattle.list_tables.specs.Tables.{step_at, step_of, tangent_of, vel_at, vel_of};

use base_places::{
    ACCUMULATOR, BODY_WIDTH, FLOATS_WIDTH, HEAD_WIDTH, IMPULSE, NORMAL_WIDTH, NUMBERS_WIDTH,
    POINT_A, POINT_B, POINT_WIDTH, STEP_WIDTH,
};
use elem_leaves::Vec2;
use elem_normal::ContactConstraintNormalPart;
use elem_tangent::ContactConstraintTangentPart;
use elem_velocity::SolverVel;
use step_contact::{Contact, ContactHead, ContactPoint, FLOOR};

// A contact's number and the kind of the step.
#[derive(Clone, Copy)]
pub struct Step {
    pub contact: u16,
    pub kind: u16,
}

fn velocity_of(s: &[f32]) -> SolverVel
    requires { length s.now ≡ body_width }
    ensures { result ≡ vel_of s.now }
{
    SolverVel {
        linear: Vec2 { x: s[0], y: s[1] },
        angular: s[2],
    }
}

// The velocity of a body that is the floor, which rests, or has its row.
pub fn velocity_in(bodies: &[f32], body: u16) -> SolverVel
    requires { (body ≡ 65535 → ⊥) → body < rows body_width bodies.now }
    ensures { result ≡ vel_at bodies.now body }
{
    if body == FLOOR {
        return SolverVel::zero();
    }
    let i = (body as usize) * BODY_WIDTH;
    velocity_of(&bodies[i..i + BODY_WIDTH])
}

// The velocity of any body; a number without a row rests too.
pub fn velocity_at(bodies: &[f32], body: u16) -> SolverVel
    ensures { result ≡ vel_at bodies.now body }
{
    if body == FLOOR {
        return SolverVel::zero();
    }
    if (body as usize) < bodies.len() / BODY_WIDTH {
        return velocity_in(bodies, body);
    }
    SolverVel::zero()
}

fn head_of(numbers: &[u16], s: &[f32]) -> ContactHead
    requires numbers_len { length numbers.now ≡ numbers_width }
    requires s_len { length s.now ≡ head_width }
    ensures { result ≡ head_of numbers.now s.now }
{
    ContactHead {
        body1: numbers[0],
        body2: numbers[1],
        count: numbers[2],
        dir1: Vec2 { x: s[0], y: s[1] },
        im1: Vec2 { x: s[2], y: s[3] },
        im2: Vec2 { x: s[4], y: s[5] },
        friction: s[6],
        k12: s[7],
        flag: s[8],
    }
}

fn normal_of(s: &[f32]) -> ContactConstraintNormalPart
    requires { length s.now ≡ normal_width }
    ensures { result ≡ normal_of s.now }
{
    ContactConstraintNormalPart {
        torque_dir1: s[0],
        torque_dir2: s[1],
        ii_torque_dir1: s[2],
        ii_torque_dir2: s[3],
        rhs: s[4],
        impulse: s[IMPULSE],
        impulse_accumulator: s[ACCUMULATOR],
        r: s[7],
        cfm_factor: s[8],
        seed: s[9],
    }
}

fn tangent_of(s: &[f32]) -> ContactConstraintTangentPart
    requires { length s.now ≡ tangent_width }
    ensures { result ≡ tangent_of s.now }
{
    ContactConstraintTangentPart {
        torque_dir1: s[0],
        torque_dir2: s[1],
        ii_torque_dir1: s[2],
        ii_torque_dir2: s[3],
        rhs: s[4],
        impulse: s[IMPULSE],
        impulse_accumulator: s[ACCUMULATOR],
        r: s[7],
    }
}

fn point_of(s: &[f32]) -> ContactPoint
    requires { length s.now ≡ point_width }
    ensures { result ≡ point_of s.now }
{
    let normal_part = normal_of(&s[0..NORMAL_WIDTH]);
    let tangent_part = tangent_of(&s[NORMAL_WIDTH..POINT_WIDTH]);
    ContactPoint {
        normal_part,
        tangent_part,
    }
}

fn contact_of(numbers: &[u16], s: &[f32]) -> Contact
    requires numbers_len { length numbers.now ≡ numbers_width }
    requires s_len { length s.now ≡ floats_width }
    ensures { result ≡ contact_of numbers.now s.now }
{
    let head = head_of(numbers, &s[0..HEAD_WIDTH]);
    let a = point_of(&s[POINT_A..POINT_B]);
    let b = point_of(&s[POINT_B..FLOATS_WIDTH]);
    Contact { head, a, b }
}

// Contact k, which has its row in both stretches.
pub fn contact_in(numbers: &[u16], floats: &[f32], k: usize) -> Contact
    requires k_bound { k < rows numbers_width numbers.now }
    requires k_bound_2 { k < rows floats_width floats.now }
    ensures { result ≡ contact_at numbers.now floats.now k }
{
    let i = k * NUMBERS_WIDTH;
    let j = k * FLOATS_WIDTH;
    contact_of(&numbers[i..i + NUMBERS_WIDTH], &floats[j..j + FLOATS_WIDTH])
}

// Contact k, if it has its row in both stretches; else the zero contact.
pub fn contact_at(numbers: &[u16], floats: &[f32], k: usize) -> Contact
    ensures { result ≡ contact_at numbers.now floats.now k }
{
    if numbers.len() / NUMBERS_WIDTH <= k {
        return Contact::zero();
    }
    if floats.len() / FLOATS_WIDTH <= k {
        return Contact::zero();
    }
    contact_in(numbers, floats, k)
}

fn step_of(s: &[u16]) -> Step
    requires { length s.now ≡ step_width }
    ensures { result ≡ step_of s.now }
{
    Step {
        contact: s[0],
        kind: s[1],
    }
}

// Step i of the list.
pub fn step_at(steps: &[u16], i: usize) -> Step
    ensures { result ≡ step_at steps.now i }
{
    if i < steps.len() / STEP_WIDTH {
        let j = i * STEP_WIDTH;
        return step_of(&steps[j..j + STEP_WIDTH]);
    }
    Step {
        contact: 0,
        kind: 0,
    }
}

// How many of its first n steps a list has.
pub fn steps_among(steps: &[u16], n: usize) -> usize
    ensures { result ≡ min n (rows step_width steps.now) }
{
    let all = steps.len() / STEP_WIDTH;
    n.min(all)
}

// Numbers 8, 9 and 10 of document 01's table: what a step refuses by the floats of its contact, by
// the velocities of its bodies, and by what it would write. Each public function is true where its
// number's condition holds, but for finite_head and finite_point, 8's parts, which quick_flaws asks
// one after the other. They read; nothing here changes a contact.
#![tactic(auto)]

ghost use Rattle.std.specs.Prelude.{◌≡◌, ◌&&◌, Option, ltb};
ghost use Rattle.elem_impulse.specs.declared.Branch.{Branch};
ghost use Rattle.step_values.specs.Values.{below_count, finite_head, finite_normal, finite_point};
ghost use Rattle.step_values.specs.Values.{finite_tangent, finite_vel, floor_moves, head_out};
ghost use Rattle.step_values.specs.Values.{lost_cell, lost_impulse, lost_vel, not_finite, not_finite_vels, out_of_range, point_out, unwritable};

use base_places::Cell;
use elem_leaves::is_finite;
use elem_normal::ContactConstraintNormalPart;
use elem_tangent::ContactConstraintTangentPart;
use elem_velocity::{SolverVel, Vels};
use step_contact::{Contact, ContactHead, ContactPoint, FLOOR};
use step_kinds::stores;

// Whether a test holds at a point below count, given whether it holds at a and at b.
#[tactic(auto, unfolding(crate::specs::Values::below_count))]
fn below_count(head: ContactHead, at_a: bool, at_b: bool) -> bool
    ensures { result ≡ below_count head at_a at_b }
{
    ((0 < head.count) & at_a) | ((1 < head.count) & at_b)
}

// 8, of one velocity: all its numbers are finite.
#[tactic(auto, unfolding(crate::specs::Values::finite_vel))]
fn finite_vel(v: SolverVel) -> bool
    ensures { result ≡ finite_vel v }
{
    is_finite(v.linear.x) & is_finite(v.linear.y) & is_finite(v.angular)
}

#[tactic(auto, unfolding(crate::specs::Values::finite_head))]
pub fn finite_head(head: ContactHead) -> bool
    ensures { result ≡ finite_head head }
{
    is_finite(head.dir1.x)
        & is_finite(head.dir1.y)
        & is_finite(head.im1.x)
        & is_finite(head.im1.y)
        & is_finite(head.im2.x)
        & is_finite(head.im2.y)
        & is_finite(head.friction)
        & is_finite(head.k12)
        & is_finite(head.flag)
}

// A normal part and, below, a tangent part: what the two would share is this list of their floats alone, as document 01 has
// two kinds of part.
#[tactic(auto, unfolding(crate::specs::Values::finite_normal))]
fn finite_normal(part: ContactConstraintNormalPart) -> bool
    ensures { result ≡ finite_normal part }
{
    is_finite(part.torque_dir1)
        & is_finite(part.torque_dir2)
        & is_finite(part.ii_torque_dir1)
        & is_finite(part.ii_torque_dir2)
        & is_finite(part.rhs)
        & is_finite(part.impulse)
        & is_finite(part.impulse_accumulator)
        & is_finite(part.r)
        & is_finite(part.cfm_factor)
        & is_finite(part.seed)
}

#[tactic(auto, unfolding(crate::specs::Values::finite_tangent))]
fn finite_tangent(part: ContactConstraintTangentPart) -> bool
    ensures { result ≡ finite_tangent part }
{
    is_finite(part.torque_dir1)
        & is_finite(part.torque_dir2)
        & is_finite(part.ii_torque_dir1)
        & is_finite(part.ii_torque_dir2)
        & is_finite(part.rhs)
        & is_finite(part.impulse)
        & is_finite(part.impulse_accumulator)
        & is_finite(part.r)
}

#[tactic(auto, unfolding(crate::specs::Values::finite_point))]
pub fn finite_point(point: ContactPoint) -> bool
    ensures { result ≡ finite_point point }
{
    finite_normal(point.normal_part) & finite_tangent(point.tangent_part)
}

// 8, of the contact: a float of its head or of a point below count is not finite.
#[tactic(auto, unfolding(crate::specs::Values::not_finite))]
pub fn not_finite(contact: Contact) -> bool
    ensures { result ≡ not_finite contact }
{
    let Contact { head, a, b } = contact;
    !finite_head(head) | below_count(head, !finite_point(a), !finite_point(b))
}

// 8, of its bodies: a velocity is not finite.
#[tactic(auto, unfolding(crate::specs::Values::not_finite_vels))]
pub fn not_finite_vels(vels: Vels) -> bool
    ensures { result ≡ not_finite_vels vels }
{
    !finite_vel(vels.v1) | !finite_vel(vels.v2)
}

// A side that may be the floor's has one of two numbers other than zero.
#[tactic(auto, unfolding(crate::specs::Values::floor_moves))]
fn floor_moves(body: u16, x: f32, y: f32) -> bool
    ensures { result ≡ floor_moves body x y }
{
    (body == FLOOR) & ((x != 0.0) | (y != 0.0))
}

#[tactic(auto, unfolding(crate::specs::Values::head_out))]
fn head_out(head: ContactHead) -> bool
    ensures { result ≡ head_out head }
{
    (head.im1.x < 0.0)
        | (head.im1.y < 0.0)
        | (head.im2.x < 0.0)
        | (head.im2.y < 0.0)
        | (head.friction < 0.0)
        | floor_moves(head.body1, head.im1.x, head.im1.y)
        | floor_moves(head.body2, head.im2.x, head.im2.y)
}

#[tactic(auto, unfolding(crate::specs::Values::point_out))]
fn point_out(head: ContactHead, point: ContactPoint) -> bool
    ensures { result ≡ point_out head point }
{
    let ContactPoint {
        normal_part,
        tangent_part,
    } = point;
    let cfm = normal_part.cfm_factor;
    (normal_part.r < 0.0)
        | (tangent_part.r < 0.0)
        | (normal_part.impulse < 0.0)
        | !((cfm > 0.0) & (cfm <= 1.0))
        | floor_moves(
            head.body1,
            normal_part.ii_torque_dir1,
            tangent_part.ii_torque_dir1,
        )
        | floor_moves(
            head.body2,
            normal_part.ii_torque_dir2,
            tangent_part.ii_torque_dir2,
        )
}

// 9: a number is outside what it may be, or the floor would move.
#[tactic(auto, unfolding(crate::specs::Values::out_of_range))]
pub fn out_of_range(contact: Contact) -> bool
    ensures { result ≡ out_of_range contact }
{
    let Contact { head, a, b } = contact;
    head_out(head) | below_count(head, point_out(head, a), point_out(head, b))
}

// A cell that the kind stores is not finite. Here and below the tests come one after the other, and not all at once: this
// is the path of every step that is done.
fn lost_cell(kind: u16, point: ContactPoint, cell: Cell) -> bool
    ensures { result ≡ lost_cell kind point cell }
{
    stores(kind, cell) && !is_finite(point.in_cell(cell))
}

// Some cell of a point.
#[tactic(auto, unfolding(crate::specs::Values::lost_impulse, base_order::specs::OneByOne::any))]
fn lost_impulse(kind: u16, point: ContactPoint) -> bool
    ensures { result ≡ lost_impulse kind point }
{
    lost_cell(kind, point, Cell::NormalImpulse) || lost_cell(kind, point, Cell::TangentImpulse)
}

// The same at a place, if it is below count.
fn lost_at(kind: u16, place: u16, count: u16, point: ContactPoint) -> bool
    ensures { result ≡ (ltb place count && lost_impulse kind point) }
{
    place < count && lost_impulse(kind, point)
}

// A velocity of a real body is not finite.
fn lost_vel(body: u16, v: SolverVel) -> bool
    ensures { result ≡ lost_vel body v }
{
    body != FLOOR && !finite_vel(v)
}

// 10: what the routine made cannot be written, whatever branch it took.
#[tactic(auto, unfolding(crate::specs::Values::unwritable, crate::specs::Values::below_count))]
pub fn unwritable(kind: u16, contact: Contact, vels: Vels) -> bool
    ensures { (branch : Option Branch) → result ≡ unwritable kind (record { branch = branch; contact = contact; vels = vels }) }
{
    let Contact { head, a, b } = contact;
    let Vels { v1, v2 } = vels;
    lost_vel(head.body1, v1)
        || lost_vel(head.body2, v2)
        || lost_at(kind, 0, head.count, a)
        || lost_at(kind, 1, head.count, b)
}

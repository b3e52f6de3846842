// What is wrong with a contact. Where nothing is, that stays so from step to step, so that it is asked once. The tests of 8
// and 9 come one after the other here, where step_values makes all at once: a contact's first step in a list waits for them.
#![tactic(auto)]

ghost use Rattle.std.specs.Prelude.{◌≡◌, false};
ghost use Rattle.base_refusals.specs.Numbers.{number_of};
ghost use Rattle.step_shape.specs.Shape.{wrong_count};
ghost use Rattle.step_values.specs.Values.{floor_moves, head_out, not_finite, out_of_range, point_out};
ghost use Rattle.quick_flaws.specs.Flaws.{flaw};

use base_refusals::Refusal;
use step_contact::{Contact, ContactHead, ContactPoint, FLOOR};
use step_shape::{wrong_bodies, wrong_count};
use step_values::{finite_head, finite_point};

// A side of the floor has one of two numbers other than zero.
fn side_moves(body: u16, x: f32, y: f32) -> bool
    ensures { result ≡ floor_moves body x y }
{
    if body == FLOOR {
        return (x != 0.0) | (y != 0.0);
    }
    false
}

// 9, of the head, one kind of test after the other.
fn head_out(head: ContactHead) -> bool
    ensures { result ≡ head_out head }
{
    let below = (head.im1.x < 0.0)
        | (head.im1.y < 0.0)
        | (head.im2.x < 0.0)
        | (head.im2.y < 0.0)
        | (head.friction < 0.0);
    if below {
        return true;
    }
    if side_moves(head.body1, head.im1.x, head.im1.y) {
        return true;
    }
    side_moves(head.body2, head.im2.x, head.im2.y)
}

// 9, of a point, likewise.
fn point_out(head: ContactHead, point: ContactPoint) -> bool
    ensures { result ≡ point_out head point }
{
    let normal = point.normal_part;
    let tangent = point.tangent_part;
    let below = (normal.r < 0.0) | (tangent.r < 0.0) | (normal.impulse < 0.0);
    if below {
        return true;
    }
    let cfm = normal.cfm_factor;
    if !((cfm > 0.0) & (cfm <= 1.0)) {
        return true;
    }
    if side_moves(head.body1, normal.ii_torque_dir1, tangent.ii_torque_dir1) {
        return true;
    }
    side_moves(head.body2, normal.ii_torque_dir2, tangent.ii_torque_dir2)
}

// 8, of a contact with one point or two: its head, point a, point b.
fn not_finite_by_turns(contact: Contact) -> bool
    requires { wrong_count contact.head ≡ false }
    ensures { result ≡ not_finite contact }
{
    let head = contact.head;
    let a = contact.a;
    let b = contact.b;
    if !finite_head(head) {
        return true;
    }
    if !finite_point(a) {
        return true;
    }
    if head.count == 2 {
        return !finite_point(b);
    }
    false
}

// 9, likewise.
fn out_of_range_by_turns(contact: Contact) -> bool
    requires { wrong_count contact.head ≡ false }
    ensures { result ≡ out_of_range contact }
{
    let head = contact.head;
    let a = contact.a;
    let b = contact.b;
    if head_out(head) {
        return true;
    }
    if point_out(head, a) {
        return true;
    }
    if head.count == 2 {
        return point_out(head, b);
    }
    false
}

// What is wrong with a contact, if anything is; rows is how many bodies the table has.
pub fn flaw(contact: Contact, rows: usize) -> Option<Refusal>
    ensures { number_of result ≡ flaw rows contact }
{
    let head = contact.head;
    if wrong_bodies(head, rows) {
        return Some(Refusal::WrongBodies);
    }
    if wrong_count(head) {
        return Some(Refusal::WrongCount);
    }
    if not_finite_by_turns(contact) {
        return Some(Refusal::NotFinite);
    }
    if out_of_range_by_turns(contact) {
        return Some(Refusal::OutOfRange);
    }
    None
}

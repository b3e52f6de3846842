// The quick engine's step on the tables. A contact is looked at until it is found without a flaw and the velocities of its
// bodies finite; then it is trusted, and a step on it is worked without a look at its floats, on rows that are known to be
// there, and tested once. Every other step is turned away without any work: a kind is worked in one arm alone, and no
// second, slower way works it, which is what lets the compiler put the routines there.
#![tactic(auto)]

ghost use Rattle.std.specs.Prelude.{◌<◌, false, ◌≡◌};
ghost use Rattle.base_places.specs.Places.{body_width, floats_width, numbers_width};
ghost use Rattle.base_refusals.specs.Numbers.{number_of};
ghost use Rattle.base_rows.specs.Rows.{rows};
ghost use Rattle.list_tables.specs.Tables.{contact_at};
ghost use Rattle.step_shape.specs.Shape.{wrong_bodies, wrong_count};
ghost use Rattle.list_rules.specs.Sweep.{step_on, tables, vels_at};
ghost use Rattle.quick_step.specs.Trusted.{Left, Looked, StillLent, Trusted, tables_of};

use base_places::{BODY_WIDTH, FLOATS_WIDTH};
use base_refusals::Refusal;
use elem_velocity::Vels;
use list_cells::{Answer, put_impulses_in, put_velocity_in};
use list_tables::{Step, contact_at, contact_in, velocity_at, velocity_in};
use quick_flaws::flaw;
use quick_tested::lost_vels;
use step_contact::{Contact, ContactHead};
use step_kinds::{ContactSolved, Rule, over_points, solve_pair, warmstart};
use step_shape::{kind_above, pair_of_one};

// The body table and the contact table, in two stretches, as the caller lends them.
#[derive(Drop)]
pub struct Lent<'a> {
    pub bodies: &'a mut [f32],
    pub numbers: &'a [u16],
    pub floats: &'a mut [f32],
}

// Copies of the velocities of a contact's bodies, whatever their numbers are.
fn velocities_at(bodies: &[f32], head: ContactHead) -> Vels
    ensures { result ≡ vels_at bodies.now head }
{
    Vels {
        v1: velocity_at(bodies, head.body1),
        v2: velocity_at(bodies, head.body2),
    }
}

// What turns the step away before it is worked; nothing where its contact is to be trusted. It only reads, and so takes
// stretches that need not be lent to be written.
pub fn look(bodies: &[f32], numbers: &[u16], floats: &[f32], s: Step) -> Option<Refusal>
    ensures { Looked s (tables bodies.now numbers.now floats.now) (number_of result) }
{
    let k = s.contact as usize;
    let contact = contact_at(numbers, floats, k);
    let head = contact.head;
    let found = flaw(contact, bodies.len() / BODY_WIDTH);
    let lost = lost_vels(velocities_at(bodies, head));
    if found.is_none() & !lost {
        return None;
    }
    if floats.len() / FLOATS_WIDTH <= k {
        return Some(Refusal::NoContact);
    }
    if kind_above(s.kind) {
        return Some(Refusal::KindAbove);
    }
    if (found == Some(Refusal::WrongBodies)) | (found == Some(Refusal::WrongCount)) {
        return found;
    }
    if pair_of_one(s.kind, head) {
        return Some(Refusal::PairOfOne);
    }
    if (found == Some(Refusal::NotFinite)) | lost {
        return Some(Refusal::NotFinite);
    }
    Some(Refusal::OutOfRange)
}

// The same copies, of bodies that are there.
fn velocities_in(lent: &Lent<'_>, head: ContactHead) -> Vels
    requires { wrong_bodies head (rows body_width lent.now.bodies.now) ≡ false }
    ensures { result ≡ vels_at lent.now.bodies.now head }
{
    Vels {
        v1: velocity_in(lent.bodies, head.body1),
        v2: velocity_in(lent.bodies, head.body2),
    }
}

// A count that is 1 or 2, in a form by which the compiler knows it.
fn one_or_two(count: u16) -> u16
    requires { (count ≡ 1 → ⊥) → count ≡ 2 }
    ensures { result ≡ count }
{
    if count == 1 {
        return 1;
    }
    2
}

// Contact k, which is there and has one point or two.
fn its_contact(lent: &Lent<'_>, k: usize) -> Contact
    requires k_bound { k < rows numbers_width lent.now.numbers.now }
    requires k_bound_2 { k < rows floats_width lent.now.floats.now }
    requires k_value { wrong_count (contact_at lent.now.numbers.now lent.now.floats.now k).head ≡ false }
    ensures { result ≡ contact_at lent.now.numbers.now lent.now.floats.now k }
{
    let read = contact_in(lent.numbers, lent.floats, k);
    let mut head = read.head;
    head.count = one_or_two(head.count);
    let a = read.a;
    let b = read.b;
    Contact { head, a, b }
}

// What was worked out of contact k is written, all of it, if its velocities are finite; its answer.
fn kept(lent: &mut Lent<'_>, k: usize, kind: u16, solved: ContactSolved) -> Answer
    requires bodies_value { wrong_bodies solved.contact.head (rows body_width lent.old.bodies.now) ≡ false }
    requires k_bound { k < rows floats_width lent.old.floats.now }
    ensures left { Left solved k kind lent.old.bodies.now lent.old.floats.now result lent.new.bodies.now lent.new.floats.now }
    ensures still_lent { StillLent lent.old lent.new }
{
    let after = solved.vels;
    if lost_vels(after) {
        return Answer::from(Refusal::Unwritable);
    }
    let contact = solved.contact;
    let head = contact.head;
    let v1 = after.v1;
    let v2 = after.v2;
    put_velocity_in(&mut *lent.bodies, head.body1, v1);
    put_velocity_in(&mut *lent.bodies, head.body2, v2);
    put_impulses_in(&mut *lent.floats, k, kind, contact);
    Answer {
        number: 0,
        branch: solved.branch_word(),
    }
}

// A step on a trusted contact. Its numbers are read first; its floats in each arm, so that a kind reads what it uses, and
// what was made is kept there, so that a kind stores what it stores. (A kind is a number, and every other number has the
// last arm, as document 01 has it.)
pub fn step_on(lent: &mut Lent<'_>, s: Step) -> Answer
    requires { Trusted (tables_of lent.old) s.contact }
    ensures stepped { record { answer = result; after = tables_of lent.new } ≡ step_on s (tables_of lent.old) }
    ensures still_lent { StillLent lent.old lent.new }
{
    let k = s.contact as usize;
    let contact = its_contact(&*lent, k);
    let head = contact.head;
    let vels = velocities_in(&*lent, head);
    let kind = s.kind;
    match kind {
        0 => {
            let made = warmstart(its_contact(&*lent, k), vels);
            kept(&mut *lent, k, kind, made)
        }
        1 => {
            let made = over_points(its_contact(&*lent, k), Rule::Normal, vels);
            kept(&mut *lent, k, kind, made)
        }
        2 => {
            let made = over_points(its_contact(&*lent, k), Rule::Friction, vels);
            kept(&mut *lent, k, kind, made)
        }
        3 => {
            let made = over_points(its_contact(&*lent, k), Rule::Restitution, vels);
            kept(&mut *lent, k, kind, made)
        }
        4 => {
            if pair_of_one(kind, head) {
                return Answer::from(Refusal::PairOfOne);
            }
            let made = solve_pair(its_contact(&*lent, k), vels);
            kept(&mut *lent, k, kind, made)
        }
        5..=65535 => Answer::from(Refusal::KindAbove),
    }
}

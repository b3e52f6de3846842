// One step on copies: a contact and the velocities of its two bodies go in by value, and the outcome says what is to be
// written. It tests one condition after the other, in the order of judging, and remembers nothing: this is the step that
// the plain engine of request E13 walks with. What ships today is the quick engine's step, in quick_step; both meet
// the same definition.
#![tactic(auto)]

ghost use Rattle.std.specs.Prelude.{◌≡◌, [], ◌∷◌};
ghost use Rattle.step_kinds.specs.Table.{routine};
ghost use Rattle.step_values.specs.Values.{unwritable};
ghost use Rattle.base_refusals.specs.Refusals.{◌when◌};
ghost use Rattle.step_rules.specs.Step.{Done, as_read, as_written, first_or, outcome_of, reads, step};
ghost use Rattle.step_rules.specs.Step.{tried, writes, written_vels};

use base_refusals::Refusal;
use elem_velocity::{SolverVel, Vels};
use step_contact::{Contact, ContactHead, FLOOR};
use step_kinds::{ContactSolved, routine};
use step_rules::Outcome;
use step_shape::{kind_above, pair_of_one, wrong_bodies, wrong_count};
use step_values::{not_finite, not_finite_vels, out_of_range, unwritable};

// What a body's velocity reads as.
fn reads(body: u16, v: SolverVel) -> SolverVel
    ensures { result ≡ reads body v }
{
    if body == FLOOR {
        return SolverVel::zero();
    }
    v
}

// What stands at a body after a step.
fn writes(body: u16, old: SolverVel, new: SolverVel) -> SolverVel
    ensures { result ≡ writes body old new }
{
    if body == FLOOR {
        return old;
    }
    new
}

fn as_read(head: ContactHead, vels: Vels) -> Vels
    ensures { result ≡ as_read head vels }
{
    let v1 = vels.v1;
    let v2 = vels.v2;
    Vels {
        v1: reads(head.body1, v1),
        v2: reads(head.body2, v2),
    }
}

fn written_vels(head: ContactHead, old: Vels, new: Vels) -> Vels
    ensures { result ≡ written_vels head old new }
{
    let old1 = old.v1;
    let old2 = old.v2;
    let new1 = new.v1;
    let new2 = new.v2;
    Vels {
        v1: writes(head.body1, old1, new1),
        v2: writes(head.body2, old2, new2),
    }
}

// A done step, with what is given for the floor as it was.
fn as_written(head: ContactHead, old: Vels, solved: ContactSolved) -> ContactSolved
    ensures { Done result ≡ as_written head old (Done solved) }
{
    let new = solved.vels;
    ContactSolved {
        vels: written_vels(head, old, new),
        ..solved
    }
}

// The routine's result, unless it cannot be written.
fn worked(contact: Contact, kind: u16, vels: Vels) -> Outcome
    ensures { outcome_of result ≡ first_or (10 when unwritable kind (routine kind contact vels) ∷ []) (routine kind contact vels) }
{
    let solved = routine(contact, kind, vels);
    if unwritable(kind, solved.contact, solved.vels) {
        return Err(Refusal::Unwritable);
    }
    Ok(solved)
}

// A step with the velocities as they read. (Contact, kind and velocities are three parameters, as the definitions have them.)
fn tried(contact: Contact, kind: u16, vels: Vels, rows: usize) -> Outcome
    ensures { outcome_of result ≡ tried contact kind vels rows }
{
    let head = contact.head;
    if kind_above(kind) {
        return Err(Refusal::KindAbove);
    }
    if wrong_bodies(head, rows) {
        return Err(Refusal::WrongBodies);
    }
    if wrong_count(head) {
        return Err(Refusal::WrongCount);
    }
    if pair_of_one(kind, head) {
        return Err(Refusal::PairOfOne);
    }
    if not_finite(contact) | not_finite_vels(vels) {
        return Err(Refusal::NotFinite);
    }
    if out_of_range(contact) {
        return Err(Refusal::OutOfRange);
    }
    worked(contact, kind, vels)
}

// One step of a kind; rows is how many bodies the table has. What is given for the floor is neither
// read nor changed.
pub fn step(contact: Contact, kind: u16, vels: Vels, rows: usize) -> Outcome
    ensures { outcome_of result ≡ step contact kind vels rows }
{
    let head = contact.head;
    let solved = tried(contact, kind, as_read(head, vels), rows)?;
    Ok(as_written(head, vels, solved))
}

// Numbers 1 to 4, which refuse a whole call: they look at all that is lent, before any step.
#![tactic(auto)]

ghost use Rattle.std.specs.Prelude.{◌≡◌};
ghost use Rattle.base_refusals.specs.Numbers.{number_told};
ghost use Rattle.base_refusals.specs.Refusals.{first};
ghost use Rattle.list_rules.specs.Sweep.{tables};
ghost use Rattle.list_checks.specs.Checks.{some_uneven, too_many, whole_call, wrong_sizes};
ghost use Rattle.list_checks.specs.LargestOf.{largest};

use base_places::{
    ANSWER_WIDTH, BODY_WIDTH, FLOATS_WIDTH, MOST_BODIES, MOST_CONTACTS, MOST_STEPS, NUMBERS_WIDTH,
    STEP_WIDTH,
};
use base_refusals::Refusal;
use list_tables::step_at;
use step_shape::kind_above;

// The largest contact number and the largest kind of a list; 0 and 0 where it is empty, as the definition `largest` has it:
// whether there is a step is asked beside it.
#[derive(Clone, Copy)]
pub struct Most {
    pub contact: u16,
    pub kind: u16,
}

// What is lent comes as the call has it, here and below: nothing is written, and a struct of stretches to be written, as the
// engine's, would ask more of who looks.
fn too_many(bodies: &[f32], numbers: &[u16], floats: &[f32], steps: &[u16]) -> bool
    ensures { result ≡ too_many (tables bodies.now numbers.now floats.now) steps.now }
{
    (MOST_BODIES < bodies.len() / BODY_WIDTH)
        | (MOST_CONTACTS < floats.len() / FLOATS_WIDTH)
        | (MOST_STEPS < steps.len() / STEP_WIDTH)
}

// A stretch is no whole number of rows.
fn some_uneven(bodies: &[f32], numbers: &[u16], floats: &[f32], steps: &[u16], room: &[u16]) -> bool
    ensures { result ≡ some_uneven (tables bodies.now numbers.now floats.now) steps.now room.now }
{
    (bodies.len() % BODY_WIDTH != 0)
        | (numbers.len() % NUMBERS_WIDTH != 0)
        | (floats.len() % FLOATS_WIDTH != 0)
        | (steps.len() % STEP_WIDTH != 0)
        | (room.len() % ANSWER_WIDTH != 0)
}

fn wrong_sizes(bodies: &[f32], numbers: &[u16], floats: &[f32], steps: &[u16], room: &[u16]) -> bool
    ensures { result ≡ wrong_sizes (tables bodies.now numbers.now floats.now) steps.now room.now }
{
    let differ = numbers.len() / NUMBERS_WIDTH != floats.len() / FLOATS_WIDTH;
    too_many(bodies, numbers, floats, steps)
        | some_uneven(bodies, numbers, floats, steps, room)
        | differ
}

// One walk over the list for 2 and 3, without a way out, so that the compiler makes vectors of it; by `step_at`, which is how
// the definitions see a step.
fn largest(steps: &[u16]) -> Most
    ensures { result ≡ largest steps.now }
{
    let n = steps.len() / STEP_WIDTH;
    let mut contact = 0u16;
    let mut kind = 0u16;
    for i in 0..n {
        let s = step_at(steps, i);
        contact = contact.max(s.contact);
        kind = kind.max(s.kind);
    }
    Most { contact, kind }
}

// What refuses the call, if anything does.
pub fn whole_call(
    bodies: &[f32],
    numbers: &[u16],
    floats: &[f32],
    steps: &[u16],
    room: &[u16],
) -> Result<(), Refusal>
    ensures { number_told result ≡ first (whole_call (tables bodies.now numbers.now floats.now) steps.now room.now) }
{
    let contacts = floats.len() / FLOATS_WIDTH;
    if wrong_sizes(bodies, numbers, floats, steps, room) {
        return Err(Refusal::WrongSizes);
    }
    let most = largest(steps);
    let some = 0 < steps.len() / STEP_WIDTH;
    let no_contact = some & !((most.contact as usize) < contacts);
    let no_kind = some & kind_above(most.kind);
    if no_contact {
        return Err(Refusal::NoContact);
    }
    if no_kind {
        return Err(Refusal::KindAbove);
    }
    if room.len() / ANSWER_WIDTH < steps.len() / STEP_WIDTH {
        return Err(Refusal::NoRoom);
    }
    Ok(())
}

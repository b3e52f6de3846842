// A list of steps, one after the other. A contact is looked at by the first step that names it; where it is trusted, a flag
// says that it need not be looked at again. What a list comes to is the same without flags.
#![tactic(auto)]

ghost use Rattle.std.specs.Prelude.{◌≡◌, ◌≤◌};
ghost use Rattle.base_places.specs.Places.{most_contacts};
ghost use Rattle.base_refusals.specs.Numbers.{number_of};
ghost use Rattle.base_words.specs.Choice.{if◌then◌otherwise◌};
ghost use Rattle.list_rules.specs.Sweep.{is_refused, step_on, sweep, swept};
ghost use Rattle.quick_step.specs.Trusted.{Looked, StillLent, tables_of};
ghost use Rattle.quick_sweep.specs.Flags.{Trusting, flagged, raised};
ghost use Rattle.quick_sweep.specs.Next.{StepDone};

use base_places::{FLOATS_WIDTH, MOST_CONTACTS};
use base_refusals::Refusal;
use list_cells::{Answer, put_answer};
use list_tables::{Step, step_at, steps_among};
use quick_step::{Lent, look, step_on};

// So many flags do for a table of few contacts.
const FEW: usize = 256;

// Whether the flag of contact k is up; one that has no flag has none up.
fn raised(flags: &[bool], k: usize) -> bool
    ensures { result ≡ raised flags.now k }
{
    flags.get(k).copied().unwrap_or(false)
}

// Puts the flag of contact k up, if it has one. (By its index: `get_mut` promises nothing of what the slice ends as.)
fn raise(flags: &mut [bool], k: usize)
    ensures { flags.new ≡ flagged flags.old k }
{
    if k < flags.len() {
        flags[k] = true;
    }
}

// What turns the step away before it is worked: nothing, if its contact's flag is up, and else what a look finds. Where
// it finds nothing, the flag goes up. (What the flags say, they say of the tables as they stand: it is asked beside them, and
// is no fact of a type of flags alone.)
fn turned_away(lent: &Lent<'_>, flags: &mut [bool], s: Step) -> Option<Refusal>
    requires { Trusting flags.old (tables_of lent.now) }
    ensures looked { Looked s (tables_of lent.now) (number_of result) }
    ensures trusting { Trusting flags.new (tables_of lent.now) }
{
    let k = s.contact as usize;
    if raised(flags, k) {
        return None;
    }
    let found = look(lent.bodies, lent.numbers, lent.floats, s);
    if found.is_none() {
        raise(flags, k);
    }
    found
}

// One step on the tables: turned away, or worked on a contact that is trusted.
fn answer_to(lent: &mut Lent<'_>, flags: &mut [bool], s: Step) -> Answer
    requires { Trusting flags.old (tables_of lent.old) }
    ensures stepped { record { answer = result; after = tables_of lent.new } ≡ step_on s (tables_of lent.old) }
    ensures trusting { Trusting flags.new (tables_of lent.new) }
    ensures still_lent { StillLent lent.old lent.new }
{
    match turned_away(&*lent, flags, s) {
        None => step_on(lent, s),
        Some(refusal) => Answer::from(refusal),
    }
}

// Step i of the list: its answer, laid into row i of the room.
fn next_step(
    lent: &mut Lent<'_>,
    steps: &[u16],
    room: &mut [u16],
    flags: &mut [bool],
    i: usize,
) -> Answer
    requires { Trusting flags.old (tables_of lent.old) }
    ensures step_done { StepDone steps.now i (tables_of lent.old) room.old result (tables_of lent.new) room.new }
    ensures trusting { Trusting flags.new (tables_of lent.new) }
    ensures still_lent { StillLent lent.old lent.new }
{
    let s = step_at(steps, i);
    let answer = answer_to(lent, flags, s);
    put_answer(room, i, answer);
    answer
}

// 1 for a refusal, else 0.
fn refusal(answer: Answer) -> usize
    ensures { result ≡ (if is_refused answer then 1 otherwise 0) }
{
    usize::from(answer.number != 0)
}

// The first n steps of the list, or all that it has, one by one; a refused step does not stop it. How many were refused.
fn walk(lent: &mut Lent<'_>, steps: &[u16], room: &mut [u16], flags: &mut [bool], n: usize) -> usize
    requires { Trusting flags.old (tables_of lent.old) }
    ensures swept { swept (tables_of lent.new) room.new result ≡ sweep steps.now n (tables_of lent.old) room.old }
    ensures still_lent { StillLent lent.old lent.new }
{
    let last = steps_among(steps, n);
    // lent on from here: where the stretches lie is then known to the compiler, which would look it up at every step
    let mut near = Lent {
        bodies: &mut *lent.bodies,
        numbers: lent.numbers,
        floats: &mut *lent.floats,
    };
    let mut refused = 0;
    for i in 0..last {
        let answer = next_step(&mut near, steps, room, flags, i);
        refused += refusal(answer);
    }
    refused
}

// The same with N flags, of which none is up at first.
fn sweep_with<const N: usize>(
    lent: &mut Lent<'_>,
    steps: &[u16],
    room: &mut [u16],
    n: usize,
) -> usize
    requires { N ≤ most_contacts }
    ensures swept { swept (tables_of lent.new) room.new result ≡ sweep steps.now n (tables_of lent.old) room.old }
    ensures still_lent { StillLent lent.old lent.new }
{
    let mut flags = [false; N];
    walk(lent, steps, room, &mut flags, n)
}

// The list and the room stand beside what is lent, here and above: a step reads one row of the first, and writes one of the
// second. A few flags do for a table of few contacts, so that little has to be cleared; else there is one for each contact that a
// call may have.
pub fn sweep(lent: &mut Lent<'_>, steps: &[u16], room: &mut [u16], n: usize) -> usize
    ensures swept { swept (tables_of lent.new) room.new result ≡ sweep steps.now n (tables_of lent.old) room.old }
    ensures still_lent { StillLent lent.old lent.new }
{
    if lent.floats.len() / FLOATS_WIDTH <= FEW {
        return sweep_with::<FEW>(lent, steps, room, n);
    }
    sweep_with::<MOST_CONTACTS>(lent, steps, room, n)
}

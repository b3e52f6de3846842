// The call that the workshop's programs make: tables, a list of steps and room for answers are lent,
// and the steps are done one by one, unless the whole call is refused. It asks nothing of its caller.
#![tactic(auto)]

ghost use Rattle.std.specs.Prelude.{◌≡◌};
ghost use Rattle.list_rules.specs.Sweep.{tables};
ghost use Rattle.call.specs.Ended.{ended};
ghost use Rattle.call_rules.specs.Call.{lend};
ghost use Rattle.call_rules.specs.Demands.{Demand2};

use base_refusals::Refusal;
use list_checks::whole_call;
use list_tables::steps_among;
use quick_step::Lent;
use quick_sweep::sweep;

// How many steps were done, and how many of those were refused.
#[derive(Clone, Copy, PartialEq, Eq)]
pub struct Done {
    pub done: usize,
    pub refused: usize,
}

// The rows of each stretch are as wide as base_places says. Bodies: x, y and angular w. Contacts: numbers (body 1, body 2,
// count), and floats (the head, point a, point b). Steps: contact, kind. Room: number, branch. They come one by one, as the
// exported call takes them.
pub fn call(
    bodies: &mut [f32],
    numbers: &[u16],
    floats: &mut [f32],
    steps: &[u16],
    room: &mut [u16],
    budget: usize,
) -> Result<Done, Refusal>
    ensures { Demand2 (lend (tables bodies.old numbers.now floats.old) steps.now room.old) budget (ended result (tables bodies.new numbers.now floats.new) room.new) }
{
    whole_call(bodies, numbers, floats, steps, room)?;
    let done = steps_among(steps, budget);
    let mut lent = Lent {
        bodies,
        numbers,
        floats,
    };
    let refused = sweep(&mut lent, steps, room, done);
    Ok(Done { done, refused })
}

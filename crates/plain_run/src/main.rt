// Runs single steps on copies, by the plain engine's code: every choice of what can be wrong with a step, and the
// floor's side. A line is what was tried, the answer and the branch; the file `stdout` beside src/ has what document 01
// says. (What each kind does, and both sides of each edge, is tried by the host package, on the call.)
#![tactic(auto)]

use elem_leaves::Vec2;
use elem_normal::ContactConstraintNormalPart;
use elem_tangent::ContactConstraintTangentPart;
use elem_velocity::{SolverVel, Vels};
use plain_step::step;
use std::io;
use std::io::Write;
use step_contact::{Contact, ContactHead, ContactPoint, FLOOR};
use step_rules::{answer, branch};

const ROWS: usize = 2;

const LARGE: f32 = 3e38;

fn nan() -> f32 {
    let zero = 0.0;
    zero / zero
}

// A point that pushes as fast as it sinks.
fn plain_point() -> ContactPoint {
    let mut normal_part = ContactConstraintNormalPart::zero();
    normal_part.r = 1.0;
    normal_part.cfm_factor = 1.0;
    let mut tangent_part = ContactConstraintTangentPart::zero();
    tangent_part.r = 1.0;
    ContactPoint {
        normal_part,
        tangent_part,
    }
}

// Body 0 on the floor, with one point.
fn on_floor() -> Contact {
    let up = Vec2 { x: 0.0, y: 1.0 };
    let light = Vec2 { x: 1.0, y: 1.0 };
    let mut head = ContactHead::zero();
    head.body2 = FLOOR;
    head.count = 1;
    head.dir1 = up;
    head.im1 = light;
    let a = plain_point();
    let b = ContactPoint::zero();
    Contact { head, a, b }
}

// The same with two points: M1's matrix.
fn on_two_points() -> Contact {
    let mut c = on_floor();
    let b = plain_point();
    c.b = b;
    c.head.count = 2;
    c.head.k12 = 1.0;
    c.head.flag = 1.0;
    c.a.normal_part.r = 0.5;
    c
}

// Body 0 slides and falls at these speeds; the second body rests.
fn moving(slide: f32, fall: f32) -> Vels {
    Vels {
        v1: SolverVel {
            linear: Vec2 { x: slide, y: -fall },
            angular: 0.0,
        },
        v2: SolverVel::zero(),
    }
}

fn falling() -> Vels {
    moving(0.0, 2.0)
}

fn with_count(mut c: Contact, count: u16) -> Contact {
    c.head.count = count;
    c
}

fn with_bodies(mut c: Contact, body1: u16, body2: u16) -> Contact {
    c.head.body1 = body1;
    c.head.body2 = body2;
    c
}

fn with_friction(mut c: Contact, friction: f32) -> Contact {
    c.head.friction = friction;
    c
}

fn with_impulse(mut c: Contact, impulse: f32) -> Contact {
    c.a.normal_part.impulse = impulse;
    c
}

fn with_r(mut c: Contact, r: f32) -> Contact {
    c.a.normal_part.r = r;
    c
}

fn with_rhs(mut c: Contact, at_a: f32, at_b: f32) -> Contact {
    c.a.normal_part.rhs = at_a;
    c.b.normal_part.rhs = at_b;
    c
}

// What is given for the second body.
fn with_second(mut vels: Vels, turning: f32) -> Vels {
    vels.v2.angular = turning;
    vels
}

fn show<W: Write>(
    to: &mut W,
    what: &str,
    contact: Contact,
    kind: u16,
    vels: Vels,
) -> io::Result<()> {
    let outcome = step(contact, kind, vels, ROWS);
    let answer = answer(outcome);
    let branch = branch(outcome);
    writeln!(to, "{what}\t{answer}\t{branch}")
}

// Kinds 1, 4 and 5, of which the last has no routine.
fn kind_of(n: u16) -> u16 {
    match n {
        0 => 1,
        1 => 4,
        _ => 5,
    }
}

fn put_if<W: Write>(to: &mut W, wrong: bool, what: &str) -> io::Result<()> {
    if wrong {
        write!(to, "{what}")?;
    }
    Ok(())
}

fn choose<T: Copy>(wrong: bool, right: T, other: T) -> T {
    if wrong { other } else { right }
}

// One choice of what is wrong, by the digits of n: where several conditions hold, the lowest number
// is given. (6 and 7 cannot hold together.)
fn choice<W: Write>(to: &mut W, n: u16) -> io::Result<()> {
    let kind = kind_of(n / 32);
    let nowhere = n / 16 % 2 == 1;
    let three = n / 8 % 2 == 1;
    let broken = n / 4 % 2 == 1;
    let pulls = n / 2 % 2 == 1;
    let hard = n % 2 == 1;
    let bodies = with_bodies(on_floor(), choose(nowhere, 0, 2), FLOOR);
    let counted = with_count(bodies, choose(three, 1, 3));
    let rubbing = with_friction(counted, choose(broken, 0.0, nan()));
    let pushed = with_impulse(rubbing, choose(pulls, 0.0, -1.0));
    let contact = with_r(pushed, choose(hard, 1.0, 2.0));
    write!(to, "kind {kind}")?;
    put_if(&mut *to, nowhere, ", no such body")?;
    put_if(&mut *to, three, ", three points")?;
    put_if(&mut *to, broken, ", a NaN")?;
    put_if(&mut *to, pulls, ", a pull")?;
    put_if(&mut *to, hard, ", too hard")?;
    show(to, "", contact, kind, moving(0.0, choose(hard, 2.0, LARGE)))
}

fn choices<W: Write>(to: &mut W) -> io::Result<()> {
    for n in 0..96 {
        choice(&mut *to, n)?;
    }
    Ok(())
}

// What is given for the floor is neither read nor refused; of a real body it is.
fn floor_side<W: Write>(to: &mut W) -> io::Result<()> {
    let wild = with_second(falling(), nan());
    show(&mut *to, "a NaN given for the floor", on_floor(), 1, wild)?;
    let two_bodies = with_bodies(on_floor(), 0, 1);
    show(&mut *to, "a NaN at a real second body", two_bodies, 1, wild)?;
    let pair = with_rhs(on_two_points(), -5.0, -3.0);
    show(to, "a pair", pair, 4, moving(0.0, 0.0))
}

fn main(rt: HostRuntime) -> io::Result<()> {
    let mut out = rt.stdout();
    choices(&mut out)?;
    floor_side(&mut out)
}

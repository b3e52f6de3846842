// What a step writes into the lent stretches, cell by cell, and nothing else. The engine knows that the rows of a step's
// bodies and of its contact are there; an answer's row need not be, and then it is not written. (Records are written to rows
// by functions that ask how long the part is, as list_tables reads them.)
#![tactic(auto)]

ghost use Rattle.std.specs.Prelude.{◌≡◌, ◌<◌, length};
ghost use Rattle.base_rows.specs.Rows.{rows};
ghost use Rattle.base_places.specs.Places.{answer_width, body_width, floats_width, place, point_width};
ghost use Rattle.step_contact.specs.Cells.{in_cell};
ghost use Rattle.list_cells.specs.Cells.{answer_row, put_answer, put_contact, put_if, put_impulses, refused_by};
ghost use Rattle.list_cells.specs.Cells.{put_point, put_vel, vel_row};

use base_places::{ANSWER_WIDTH, BODY_WIDTH, Cell, FLOATS_WIDTH, POINT_A, POINT_B};
use base_refusals::Refusal;
use elem_velocity::SolverVel;
use step_contact::{Contact, ContactHead, ContactPoint, FLOOR};
use step_kinds::stores;

// The number of a refusal, or 0; and how a pair was solved, or 0. As two numbers, since it is a row of the room, as
// document 01 has it.
#[derive(Clone, Copy)]
pub struct Answer {
    pub number: u16,
    pub branch: u16,
}

impl From<Refusal> for Answer {
    ghost from_gives = { λ refusal answer. answer ≡ refused_by refusal };

    fn from(refusal: Refusal) -> Answer {
        Answer {
            number: u16::from(refusal),
            branch: 0,
        }
    }
}

fn store_velocity(s: &mut [f32], v: SolverVel)
    requires { length s.old ≡ body_width }
    ensures { s.new ≡ vel_row v }
{
    s[0] = v.linear.x;
    s[1] = v.linear.y;
    s[2] = v.angular;
}

// A body's velocity into its row, which is there. The floor is never written.
pub fn put_velocity_in(bodies: &mut [f32], body: u16, v: SolverVel)
    requires { (body ≡ 65535 → ⊥) → body < rows body_width bodies.old }
    ensures { bodies.new ≡ put_vel bodies.old body v }
{
    if body == FLOOR {
        return;
    }
    let i = (body as usize) * BODY_WIDTH;
    store_velocity(&mut bodies[i..i + BODY_WIDTH], v);
}

// Place i takes x if it is to be stored.
fn store_if(s: &mut [f32], i: usize, stored: bool, x: f32)
    requires { i < length s.old }
    ensures { s.new ≡ put_if stored i x s.old }
{
    if stored {
        s[i] = x;
    }
}

// A cell takes its float if it is to be stored.
fn store_cell(s: &mut [f32], cell: Cell, stored: bool, p: ContactPoint)
    requires { length s.old ≡ point_width }
    ensures { s.new ≡ put_if stored (place cell) (in_cell cell p) s.old }
{
    store_if(s, cell.place(), stored, p.in_cell(cell));
}

// The cells that a kind stores, at the point of a place, if it is below count.
fn store_point(s: &mut [f32], kind: u16, head: ContactHead, place: u16, p: ContactPoint)
    requires { length s.old ≡ point_width }
    ensures { s.new ≡ put_point kind head place p s.old }
{
    let below = place < head.count;
    let normal = stores(kind, Cell::NormalImpulse);
    let tangent = stores(kind, Cell::TangentImpulse);
    store_cell(s, Cell::NormalImpulse, below & normal, p);
    store_cell(s, Cell::TangentImpulse, below & tangent, p);
}

fn store_contact(s: &mut [f32], kind: u16, c: Contact)
    requires { length s.old ≡ floats_width }
    ensures { s.new ≡ put_contact kind c s.old }
{
    let head = c.head;
    let a = c.a;
    let b = c.b;
    store_point(&mut s[POINT_A..POINT_B], kind, head, 0, a);
    store_point(&mut s[POINT_B..FLOATS_WIDTH], kind, head, 1, b);
}

// What a step of a kind stores, into its cells of contact k's row, which is there.
pub fn put_impulses_in(floats: &mut [f32], k: usize, kind: u16, c: Contact)
    requires { k < rows floats_width floats.old }
    ensures { floats.new ≡ put_impulses floats.old k kind c }
{
    let i = k * FLOATS_WIDTH;
    store_contact(&mut floats[i..i + FLOATS_WIDTH], kind, c);
}

fn store_answer(s: &mut [u16], a: Answer)
    requires { length s.old ≡ answer_width }
    ensures { s.new ≡ answer_row a }
{
    s[0] = a.number;
    s[1] = a.branch;
}

// The answer of step i, into row i of the room.
pub fn put_answer(room: &mut [u16], i: usize, a: Answer)
    ensures { room.new ≡ put_answer room.old i a }
{
    if i < room.len() / ANSWER_WIDTH {
        let j = i * ANSWER_WIDTH;
        store_answer(&mut room[j..j + ANSWER_WIDTH], a);
    }
}

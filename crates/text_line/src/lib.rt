// A line of the text form: whether its letter is known and in order, its fields are well formed and its tables have
// room, and what it adds to them.
#![tactic(auto)]

ghost use Rattle.std.specs.Prelude.{◌≡◌, ◌+◌, ◌≤◌, ltb, length};
ghost use Rattle.base_places.specs.Places.{normal_width};
ghost use Rattle.text_fields.specs.Got.{Small, most};
ghost use Rattle.text_fields.specs.Letters.{adds};
ghost use Rattle.text_fields.specs.declared.Form.TheVariants.{Decimal};
ghost use Rattle.text_line.specs.Lines.{asks_floats, in_contact, next_place};
ghost use Rattle.text_line.specs.Filled.{Appended, Full, HasRoom, Put, ReadLine, SameTables, Sane, lent_cells, reason_number, room_of};

use base_places::{FLOATS_WIDTH, NORMAL_WIDTH};
use text_fields::{Counts, Letter, Row};

// The place in the order of lines: among the bodies; in a contact, before its N, T, N or T; after a contact; among the
// steps.
#[derive(Clone, Copy, PartialEq, Eq)]
pub enum Place {
    Bodies,
    NormalA,
    TangentA,
    NormalB,
    TangentB,
    Contacts,
    Steps,
}

// The place in the order of lines, and how many numbers of each table are filled.
#[derive(Clone, Copy)]
pub struct State {
    pub place: Place,
    pub bodies: usize,
    pub numbers: usize,
    pub floats: usize,
    pub steps: usize,
}

// The tables that lines are read into, lent by whoever owns them: bodies, contacts' numbers and floats, steps.
#[derive(Drop)]
pub struct Tables<'a> {
    pub bodies: &'a mut [u32],
    pub numbers: &'a mut [u16],
    pub floats: &'a mut [u32],
    pub steps: &'a mut [u16],
}

impl Tables<'_> {
    // How many numbers each table holds.
    #[tactic(auto, unfolding(crate::specs::Filled::room_of))]
    pub fn room(&self) -> Counts
        ensures { result ≡ room_of (lent_cells self.now) }
    {
        Counts {
            bodies: self.bodies.len(),
            numbers: self.numbers.len(),
            floats: self.floats.len(),
            steps: self.steps.len(),
        }
    }
}

// Why a line is bad: document 01's reasons, with their numbers.
#[derive(Clone, Copy, PartialEq, Eq)]
pub enum BadLine {
    TooLong = 1,
    NoLetter = 2,
    OutOfOrder = 3,
    BadField = 4,
    NoRoom = 5,
}

impl From<BadLine> for u8 {
    ghost from_gives = { λ reason n. n ≡ reason_number reason };

    fn from(reason: BadLine) -> u8 {
        reason as u8
    }
}

// Where a letter leads from a place; nowhere, where it is out of order.
fn next_place(l: Letter, p: Place) -> Option<Place>
    ensures { result ≡ next_place l p }
{
    match (p, l) {
        (Place::Bodies, Letter::Body) => Some(Place::Bodies),
        (Place::Bodies | Place::Contacts, Letter::Contact) => Some(Place::NormalA),
        (Place::NormalA, Letter::Normal) => Some(Place::TangentA),
        (Place::TangentA, Letter::Tangent) => Some(Place::NormalB),
        (Place::NormalB, Letter::Normal) => Some(Place::TangentB),
        (Place::TangentB, Letter::Tangent) => Some(Place::Contacts),
        (Place::Bodies | Place::Contacts | Place::Steps, Letter::Step) => Some(Place::Steps),
        _ => None,
    }
}

// Whether a contact's lines are not all there yet.
pub fn in_contact(p: Place) -> bool
    ensures { result ≡ in_contact p }
{
    matches!(
        p,
        Place::NormalA | Place::TangentA | Place::NormalB | Place::TangentB
    )
}

// Whether a table of `size` numbers, of which `used` are filled, has no room for more.
fn lacks(size: usize, used: usize, more: usize) -> bool
    requires { used ≤ size }
    ensures { result ≡ ltb size (used + more) }
{
    size - used < more
}

// How many floats a line asks for: a contact's are asked for whole, at its C line.
fn asks_floats(l: Letter, floats: usize) -> usize
    requires { floats ≡ (adds l).floats }
    ensures { result ≡ asks_floats l }
{
    if l == Letter::Contact {
        FLOATS_WIDTH
    } else {
        floats
    }
}

// Whether there is no room for a letter's numbers.
fn is_full(l: Letter, st: State, t: &Tables<'_>) -> bool
    requires { Sane st (lent_cells t.now) }
    ensures { Full l st (lent_cells t.now) result }
{
    let counts = text_fields::adds(l);
    let no_bodies = lacks(t.bodies.len(), st.bodies, counts.bodies);
    let no_numbers = lacks(t.numbers.len(), st.numbers, counts.numbers);
    let no_floats = lacks(t.floats.len(), st.floats, asks_floats(l, counts.floats));
    let no_steps = lacks(t.steps.len(), st.steps, counts.steps);
    no_bodies | no_numbers | no_floats | no_steps
}

// More numbers, put to the end of a table that is filled as far as `at`; and how far it is then. Most lines have none for
// three of the four tables: then no copy is begun.
pub fn append<T: Copy>(t: &mut [T], at: usize, more: &[T]) -> usize
    requires { at + length more.now ≤ length t.old }
    ensures { Appended t.old at more.now t.new result }
{
    if more.is_empty() {
        return at;
    }
    let end = at + more.len();
    t[at..end].copy_from_slice(more);
    end
}

// Decimal numbers fit in 16 bits. (By index: `zip` over `iter_mut` tells no name of what it writes, and `map` of an array asks
// that of every number which holds of these.)
fn narrowed(row: [u32; NORMAL_WIDTH]) -> [u16; NORMAL_WIDTH]
    requires { Small (most Decimal) row }
    ensures { result ≡ row }
{
    let mut narrow = [0u16; NORMAL_WIDTH];
    for (i, n) in row.iter().enumerate() {
        narrow[i] = *n as u16;
    }
    narrow
}

// What a line says, put to the end of the tables.
fn put_row(l: Letter, place: Place, st: State, row: Row, t: &mut Tables<'_>) -> State
    requires { HasRoom l st (lent_cells t.old) × Small (most Decimal) row.numbers }
    ensures same { SameTables t.old t.new }
    ensures put { Put l place st row.numbers row.bits (lent_cells t.old) result (lent_cells t.new) }
{
    let counts = text_fields::adds(l);
    let said = narrowed(row.numbers);
    let bits = row.bits;
    State {
        place,
        bodies: append(&mut *t.bodies, st.bodies, &bits[..counts.bodies]),
        numbers: append(&mut *t.numbers, st.numbers, &said[..counts.numbers]),
        floats: append(&mut *t.floats, st.floats, &bits[..counts.floats]),
        steps: append(&mut *t.steps, st.steps, &said[..counts.steps]),
    }
}

// One line: tested in the order of the reasons, and stored where none of them is given.
pub fn read_line(st: State, line: &[u8], t: &mut Tables<'_>) -> Result<State, BadLine>
    requires { Sane st (lent_cells t.old) }
    ensures same { SameTables t.old t.new }
    ensures read { ReadLine st line.now (lent_cells t.old) result (lent_cells t.new) }
{
    let l = text_fields::line_letter(line);
    if l == Letter::Other {
        return Err(BadLine::NoLetter);
    }
    let place = next_place(l, st.place).ok_or(BadLine::OutOfOrder)?;
    let row = text_fields::read_row(l, line).ok_or(BadLine::BadField)?;
    if is_full(l, st, t) {
        return Err(BadLine::NoRoom);
    }
    Ok(put_row(l, place, st, row, t))
}

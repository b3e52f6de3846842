// How wide the rows of the lent stretches are, where a point's loads stand among its floats, how much a call and the text
// program take, how long a line and an output can be, and how far a count goes. specs/Places.antt and specs/Lengths.antt say
// the same for definitions; every other file has these names, and no number of its own.
#![tactic(auto)]

ghost use Rattle.std.specs.Prelude.{◌≡◌};
ghost use Rattle.base_places.specs.Places.{only};
ghost use Rattle.base_places.specs.Places.{place as Places·place};
ghost use Rattle.base_places.specs.Lengths.{one_more};

// A body: velocity x, y and angular w.
pub const BODY_WIDTH: usize = 3;

// A contact's numbers: two body numbers, point count.
pub const NUMBERS_WIDTH: usize = 3;

// A contact's floats: the head, and for each of two points a normal part and a tangent part.
pub const HEAD_WIDTH: usize = 9;

pub const NORMAL_WIDTH: usize = 10;

pub const TANGENT_WIDTH: usize = 8;

pub const POINT_WIDTH: usize = NORMAL_WIDTH + TANGENT_WIDTH;

pub const FLOATS_WIDTH: usize = HEAD_WIDTH + 2 * POINT_WIDTH;

// Where each point's floats begin: a is the first, b the second.
pub const POINT_A: usize = HEAD_WIDTH;

pub const POINT_B: usize = HEAD_WIDTH + POINT_WIDTH;

// A step: contact number, kind.
pub const STEP_WIDTH: usize = 2;

// An answer: number, branch.
pub const ANSWER_WIDTH: usize = 2;

// The impulse and the accumulator within either part.
pub const IMPULSE: usize = 5;

pub const ACCUMULATOR: usize = 6;

// The impulses among a point's floats.
pub const NORMAL_IMPULSE: usize = IMPULSE;

pub const TANGENT_IMPULSE: usize = NORMAL_WIDTH + IMPULSE;

// The cells of a point that a step may store.
#[derive(Clone, Copy, PartialEq, Eq)]
pub enum Cell {
    NormalImpulse,
    TangentImpulse,
}

impl Cell {
    // Where the cell stands among its point's floats.
    pub fn place(self) -> usize
        ensures { result ≡ Places·place self }
    {
        match self {
            Cell::NormalImpulse => NORMAL_IMPULSE,
            Cell::TangentImpulse => TANGENT_IMPULSE,
        }
    }

    // Equality, in the definitions' word: no two cells stand in one place.
    pub fn is(self, that: Cell) -> bool
        ensures { result ≡ only that self }
    {
        self == that
    }
}

// The most that a call takes.
pub const MOST_BODIES: usize = 4096;

pub const MOST_CONTACTS: usize = 16384;

pub const MOST_STEPS: usize = 65536;

// What the text program holds.
pub const PROGRAM_BODIES: usize = 64;

pub const PROGRAM_CONTACTS: usize = 64;

pub const PROGRAM_STEPS: usize = 256;

// A field is a tab and at most five digits, or a tab and eight; a line has a letter before its fields and byte 10 after them.
pub const NUMBER_BYTES: usize = 1 + 5;

pub const FLOAT_BYTES: usize = 1 + 8;

pub const BODY_LINE: usize = 2 + BODY_WIDTH * FLOAT_BYTES;

pub const ANSWER_LINE: usize = 2 + ANSWER_WIDTH * NUMBER_BYTES;

pub const LOAD_LINE: usize = 2 + 2 * NUMBER_BYTES + 2 * FLOAT_BYTES;

pub const END_LINE: usize = 2 + 2 * NUMBER_BYTES;

// No good line is longer, without its byte 10.
pub const MOST_IN_LINE: usize = 160;

// No output is longer.
pub const LONGEST_OUTPUT: usize = PROGRAM_STEPS * ANSWER_LINE
    + PROGRAM_BODIES * BODY_LINE
    + PROGRAM_CONTACTS * 2 * LOAD_LINE
    + END_LINE;

// A program reads its input in portions. The replay tells at most so much of each.
pub const PORTION: usize = 4096;

pub const TOLD: usize = 64 * PORTION;

// A count never goes past what a machine word holds.
pub fn one_more(n: usize) -> usize
    ensures { result ≡ one_more n }
{
    n.saturating_add(1)
}

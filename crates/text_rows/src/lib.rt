// The tables' lines, row by row: A, B and I. Written on a page as far as it has room. Floats come as the bits that are
// printed.
#![tactic(auto)]

ghost use Rattle.std.specs.Prelude.{◌≡◌, [], ◌*◌, ◌≤◌, ◌<◌, length};
ghost use Rattle.text_digits.specs.Wrote.{Writes};
ghost use Rattle.base_places.specs.Places.{floats_width};
ghost use Rattle.base_rows.specs.Rows.{rows};
ghost use Rattle.text_rows.specs.Tables.{Answers, Bodies, Loads, i_line, listing, point_line, points_of};

use base_places::{
    ANSWER_WIDTH, BODY_WIDTH, FLOATS_WIDTH, HEAD_WIDTH, NORMAL_IMPULSE, NUMBERS_WIDTH, POINT_WIDTH,
    TANGENT_IMPULSE,
};
use text_digits::Page;
use text_write::{pair_line, row_line};

// The answers of steps.
pub fn answers(page: &mut Page, told: &[u16])
    ensures { Writes page.old (listing Answers told.now []) page.new }
{
    page.start();
    for row in told.chunks_exact(ANSWER_WIDTH) {
        row_line(page, b'A', row, &[]);
    }
}

// Bodies.
pub fn bodies(page: &mut Page, bits: &[u32])
    ensures { Writes page.old (listing Bodies [] bits.now) page.new }
{
    page.start();
    for row in bits.chunks_exact(BODY_WIDTH) {
        row_line(page, b'B', &[], row);
    }
}

// Point `point` of contact k: its normal and its tangent impulse.
fn i_line(page: &mut Page, floats: &[u32], k: usize, point: usize)
    requires { (k < rows floats_width floats.now) × (point < 2) }
    ensures { Writes page.old (i_line floats.now k point) page.new }
{
    let row = &floats[k * FLOATS_WIDTH..k * FLOATS_WIDTH + FLOATS_WIDTH];
    let place = HEAD_WIDTH + point * POINT_WIDTH;
    let loads = [row[place + NORMAL_IMPULSE], row[place + TANGENT_IMPULSE]];
    pair_line(page, b'I', k, point, &loads);
}

// How many points of contact k have a line.
fn points_of(numbers: &[u16], k: usize) -> usize
    ensures { result ≡ points_of numbers.now k }
{
    if k < numbers.len() / NUMBERS_WIDTH {
        let row = &numbers[k * NUMBERS_WIDTH..k * NUMBERS_WIDTH + NUMBERS_WIDTH];
        match row[2] {
            1 => 1,
            2 => 2,
            _ => 0,
        }
    } else {
        0
    }
}

// Point j of all, two to a contact.
fn point_line(page: &mut Page, numbers: &[u16], floats: &[u32], j: usize)
    requires { (j < rows floats_width floats.now * 2) × (page.old.at ≤ length page.old.out.now) }
    ensures { Writes page.old (point_line numbers.now floats.now j) page.new }
{
    let k = j / 2;
    let point = j % 2;
    if point < points_of(numbers, k) {
        i_line(page, floats, k, point);
    }
}

// The loads of points, from their contacts' two tables: point after point, as the definition counts them, two to a contact.
pub fn loads(page: &mut Page, numbers: &[u16], floats: &[u32])
    ensures { Writes page.old (listing Loads numbers.now floats.now) page.new }
{
    page.start();
    for j in 0..floats.len() / FLOATS_WIDTH * 2 {
        point_line(page, numbers, floats, j);
    }
}

// What is written of a night that was read: the call on floats made of its patterns, and then its lines.
#![tactic(auto)]

ghost use Rattle.std.specs.Prelude.{◌≡◌, [], ◌*◌, length, take};
ghost use Rattle.text_digits.specs.Wrote.{Writes};
ghost use Rattle.text_output.specs.Answer.{answer, floats_of, lines, prints, written};
ghost use Rattle.base_places.specs.Places.{answer_width};
ghost use Rattle.text_answer.specs.Calling.{Called, Fits, KeptRead, KeptRoom, left_in, night_in};

use base_places::{ANSWER_WIDTH, STEP_WIDTH};
use base_refusals::Refusal;
use call::{Done, call};
use text_digits::Page;

// A night that was read: patterns of its bodies and contacts, which give way to those that are printed.
#[derive(Drop)]
pub struct Read<'a> {
    pub bodies: &'a mut [u32],
    pub numbers: &'a [u16],
    pub floats: &'a mut [u32],
    pub steps: &'a [u16],
}

// What the call works on: floats of the bodies and of the contacts, and room for an answer to each step.
#[derive(Drop)]
pub struct Room<'a> {
    pub bodies: &'a mut [f32],
    pub contacts: &'a mut [f32],
    pub answers: &'a mut [u16],
}

// The floats that patterns stand for. Here and below by index: a loop over an iter_mut under zip has no name for what it
// has written so far, which its invariant needs.
fn make_floats(bits: &[u32], values: &mut [f32])
    requires { length bits.now ≡ length values.old }
    ensures { values.new ≡ floats_of bits.now }
{
    for (i, b) in bits.iter().enumerate() {
        values[i] = text_digits::value_of(*b);
    }
}

// The patterns that are printed for floats, in place of those that were kept.
fn print_bits(values: &[f32], kept: &mut [u32])
    requires { length kept.old ≡ length values.now }
    ensures { kept.new ≡ prints values.now kept.old }
{
    for (i, x) in values.iter().enumerate() {
        kept[i] = text_digits::bits_of(*x, kept[i]);
    }
}

// The call, on floats made of the patterns.
fn call_night(read: &Read, room: &mut Room) -> Result<Done, Refusal>
    requires { Fits read.now room.old }
    ensures called { Called read.now result room.new }
    ensures kept { KeptRoom room.old room.new }
{
    make_floats(&*read.bodies, &mut *room.bodies);
    make_floats(&*read.floats, &mut *room.contacts);
    call(
        &mut *room.bodies,
        read.numbers,
        &mut *room.contacts,
        read.steps,
        &mut *room.answers,
        read.steps.len() / STEP_WIDTH,
    )
}

// The answers of the steps done, which have filled the front of the room. (Tested, and no `min`, so that the product fits.)
fn answers_of(room: &[u16], done: usize) -> &[u16]
    ensures { result.now ≡ take (done * answer_width) room.now }
{
    if done <= room.len() / ANSWER_WIDTH {
        &room[..done * ANSWER_WIDTH]
    } else {
        room
    }
}

// What is written of a night whose call was not refused; what was read has given way to what is printed.
fn write_lines(ended: Done, read: &Read, room: &Room, page: &mut Page)
    ensures { Writes page.old
        (lines ended.done ended.refused (take (ended.done * answer_width) room.now.answers.now)
        read.now.bodies.now read.now.numbers.now read.now.floats.now) page.new }
{
    let Done { done, refused } = ended;
    text_rows::answers(page, answers_of(room.answers, done));
    text_rows::bodies(page, read.bodies);
    text_rows::loads(page, read.numbers, read.floats);
    text_write::e_line(page, done, refused);
}

// What is written of a night after its call, which left this room.
fn write_ended(report: Result<Done, Refusal>, read: &mut Read, room: &Room, page: &mut Page)
    requires { (length read.old.bodies.now ≡ length room.now.bodies.now)
        × (length read.old.floats.now ≡ length room.now.contacts.now) }
    ensures wrote { Writes page.old (written (night_in read.old) (left_in report read.old room.now)) page.new }
    ensures kept { KeptRead read.old read.new }
{
    match report {
        Err(refusal) => text_write::r_line(page, u16::from(refusal)),
        Ok(ended) => {
            print_bits(room.bodies, &mut *read.bodies);
            print_bits(room.contacts, &mut *read.floats);
            write_lines(ended, read, room, page);
        }
    }
}

// The answer to a night that was read.
pub fn answer_night(read: &mut Read, room: &mut Room, page: &mut Page)
    requires { Fits read.old room.old }
    ensures wrote { Writes page.old (answer (night_in read.old)) page.new }
    ensures read_kept { KeptRead read.old read.new }
    ensures room_kept { KeptRoom room.old room.new }
{
    let report = call_night(read, room);
    write_ended(report, read, room, page);
}

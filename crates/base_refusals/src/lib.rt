// What refuses a call or a step, and its number. What it means that a number is given, and that the first condition that
// holds is given exactly, are definitions and statements in specs/.
#![tactic(auto)]

ghost use Rattle.std.specs.Prelude.{◌≡◌};
ghost use Rattle.base_refusals.specs.Numbers.{refusal_number};

// Document 01, "Numbers that refuse", in the order of judging: the first four refuse a whole call, the others one step.
#[derive(Clone, Copy, PartialEq, Eq)]
pub enum Refusal {
    // A library size is exceeded, a lent stretch isn't a whole number of rows, or stretches of one table differ in rows.
    WrongSizes,
    // A step names a contact not in the contact table.
    NoContact,
    // A kind is above 4.
    KindAbove,
    // Room for answers is less than the list length.
    NoRoom,
    // A body number is neither in the table nor 65535, or both are equal.
    WrongBodies,
    // Count is not 1 or 2.
    WrongCount,
    // Kind 4 and count 1.
    PairOfOne,
    // A contact float or a velocity of its bodies is not finite.
    NotFinite,
    // A number of the contact is out of its range, or a side of the floor would move.
    OutOfRange,
    // A velocity or an impulse to be written is not finite.
    Unwritable,
}

impl From<Refusal> for u16 {
    ghost from_gives = { λ refusal number. number ≡ refusal_number refusal };

    fn from(refusal: Refusal) -> u16 {
        match refusal {
            Refusal::WrongSizes => 1,
            Refusal::NoContact => 2,
            Refusal::KindAbove => 3,
            Refusal::NoRoom => 4,
            Refusal::WrongBodies => 5,
            Refusal::WrongCount => 6,
            Refusal::PairOfOne => 7,
            Refusal::NotFinite => 8,
            Refusal::OutOfRange => 9,
            Refusal::Unwritable => 10,
        }
    }
}

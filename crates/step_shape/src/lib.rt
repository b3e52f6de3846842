// Numbers 3, 5, 6 and 7 of document 01's table: what a step refuses by its kind and by the whole
// numbers of its contact. Each function is true where its number's condition holds.
#![tactic(auto)]

ghost use Rattle.std.specs.Prelude.{◌≡◌};
ghost use Rattle.step_shape.specs.Shape.{kind_above, pair_of_one, wrong_bodies, wrong_count};

use step_contact::{ContactHead, FLOOR};
use step_kinds::{LAST_KIND, points_for};

// 3: no routine has this kind.
#[tactic(auto, unfolding(crate::specs::Shape::kind_above, step_kinds::specs::Table::kinds))]
pub fn kind_above(kind: u16) -> bool
    ensures { result ≡ kind_above kind }
{
    !matches!(kind, 0..=LAST_KIND)
}

// 5: a body that is nowhere, or one body twice.
#[tactic(auto, unfolding(crate::specs::Shape::wrong_bodies))]
pub fn wrong_bodies(head: ContactHead, rows: usize) -> bool
    ensures { result ≡ wrong_bodies head rows }
{
    let body1 = head.body1;
    let body2 = head.body2;
    let row1 = body1 as usize;
    let row2 = body2 as usize;
    !((row1 < rows) | (body1 == FLOOR)) | !((row2 < rows) | (body2 == FLOOR)) | (body1 == body2)
}

// 6: neither one point nor two.
#[tactic(auto, unfolding(crate::specs::Shape::wrong_count))]
pub fn wrong_count(head: ContactHead) -> bool
    ensures { result ≡ wrong_count head }
{
    !matches!(head.count, 1 | 2)
}

// 7: a pair needs both points.
#[tactic(auto, unfolding(crate::specs::Shape::pair_of_one))]
pub fn pair_of_one(kind: u16, head: ContactHead) -> bool
    ensures { result ≡ pair_of_one kind head }
{
    (points_for(kind) == 2) & (head.count == 1)
}

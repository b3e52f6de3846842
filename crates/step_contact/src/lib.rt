// The record of a contact of two bodies: a head and two points. The shape is that of the Rust's
// contact_with_coulomb_friction.rs for one lane: its arrays of two parts are points a and b here.
#![tactic(auto)]

ghost use Rattle.std.specs.Prelude.{◌≡◌};
ghost use Rattle.step_contact.specs.Contact.{contact_zero, head_zero, point_zero};
ghost use Rattle.step_contact.specs.Cells.{in_cell};

use base_places::Cell;
use elem_leaves::Vec2;
use elem_normal::ContactConstraintNormalPart;
use elem_tangent::ContactConstraintTangentPart;

// The number of the floor: it reads as rest and is never written.
pub const FLOOR: u16 = 65535;

// What a contact says of itself: its bodies' numbers, how many points it has, and what its points
// share.
#[derive(Clone, Copy)]
pub struct ContactHead {
    pub body1: u16,
    pub body2: u16,
    pub count: u16,
    pub dir1: Vec2,
    pub im1: Vec2,
    pub im2: Vec2,
    pub friction: f32,
    pub k12: f32,
    pub flag: f32,
}

// One point of a contact: how it pushes and how it rubs.
#[derive(Clone, Copy)]
pub struct ContactPoint {
    pub normal_part: ContactConstraintNormalPart,
    pub tangent_part: ContactConstraintTangentPart,
}

#[derive(Clone, Copy)]
pub struct Contact {
    pub head: ContactHead,
    pub a: ContactPoint,
    pub b: ContactPoint,
}

impl ContactHead {
    // Both, as the parts have them: a named constant, and zero().
    pub const ZERO: ContactHead = ContactHead {
        body1: 0,
        body2: 0,
        count: 0,
        dir1: Vec2 { x: 0.0, y: 0.0 },
        im1: Vec2 { x: 0.0, y: 0.0 },
        im2: Vec2 { x: 0.0, y: 0.0 },
        friction: 0.0,
        k12: 0.0,
        flag: 0.0,
    };

    #[tactic(auto, unfolding(crate::specs::Contact::head_zero))]
    pub fn zero() -> ContactHead
        ensures { result ≡ head_zero }
    {
        ContactHead::ZERO
    }
}

impl ContactPoint {
    #[tactic(auto, unfolding(crate::specs::Contact::point_zero))]
    pub fn zero() -> ContactPoint
        ensures { result ≡ point_zero }
    {
        let normal_part = ContactConstraintNormalPart::zero();
        let tangent_part = ContactConstraintTangentPart::zero();
        ContactPoint {
            normal_part,
            tangent_part,
        }
    }

    // What stands in a cell.
    pub fn in_cell(self, cell: Cell) -> f32
        ensures { result ≡ in_cell cell self }
    {
        match cell {
            Cell::NormalImpulse => self.normal_part.impulse,
            Cell::TangentImpulse => self.tangent_part.impulse,
        }
    }
}

impl Contact {
    #[tactic(auto, unfolding(crate::specs::Contact::contact_zero))]
    pub fn zero() -> Contact
        ensures { result ≡ contact_zero }
    {
        let head = ContactHead::zero();
        let a = ContactPoint::zero();
        let b = ContactPoint::zero();
        Contact { head, a, b }
    }
}

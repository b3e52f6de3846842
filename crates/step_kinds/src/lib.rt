// What each kind of step does with a contact and the velocities of its two bodies: the rules at a
// point, over the points below count, and the routine that a kind chooses. All is by value: a
// contact and two velocities in, the new ones back. They are parameters of their own, since document
// 01 and KindsPush have a rule of a head, a point and velocities, and a kind of a contact and velocities.
#![tactic(auto)]

ghost use Rattle.std.specs.Prelude.{◌≡◌};
ghost use Rattle.elem_impulse.specs.Block.{branch_word};
ghost use Rattle.step_kinds.specs.Kinds.{at_point, over_points, pair_of, turn, warm_start};
ghost use Rattle.step_kinds.specs.Kinds.{friction_at, normal_at, normal_left, restitution_at};
ghost use Rattle.step_kinds.specs.Kinds.{warm_normal_at, warm_tangent_at};
ghost use Rattle.step_kinds.specs.Table.{points_for, routine, stores};

use base_places::Cell;
use elem_impulse::Branch;
use elem_normal::{ContactConstraintNormalPart, NormalSolved};
use elem_velocity::Vels;
use step_contact::{Contact, ContactHead, ContactPoint};

// What a rule does at one point. Warm start is two of them, since it pushes all normal parts before
// any tangent part. It is an enum and no closure: over_points asks nothing of its callers, where a
// closure would have to be one that may be called, and KindsPush holds of every rule.
#[derive(Clone, Copy)]
pub enum Rule {
    WarmNormal,
    WarmTangent,
    Normal,
    Friction,
    Restitution,
}

#[derive(Clone, Copy)]
pub struct PointSolved {
    pub point: ContactPoint,
    pub vels: Vels,
}

// Only a pair has a branch.
#[derive(Clone, Copy)]
pub struct ContactSolved {
    pub branch: Option<Branch>,
    pub contact: Contact,
    pub vels: Vels,
}

impl ContactSolved {
    // The number that an answer gives its branch; 0 where it has none.
    pub fn branch_word(self) -> u16
        ensures { result ≡ branch_word self.branch }
    {
        self.branch.map_or(0, u16::from)
    }
}

impl Rule {
    #[tactic(auto, unfolding(crate::specs::Kinds::at_point))]
    fn at_point(self, head: ContactHead, point: ContactPoint, vels: Vels) -> PointSolved
        ensures { result ≡ at_point self head point vels }
    {
        match self {
            Rule::WarmNormal => warm_normal_at(head, point, vels),
            Rule::WarmTangent => warm_tangent_at(head, point, vels),
            Rule::Normal => normal_at(head, point, vels),
            Rule::Friction => friction_at(head, point, vels),
            Rule::Restitution => restitution_at(head, point, vels),
        }
    }

    // Point a has place 0, b has place 1.
    #[tactic(auto, unfolding(crate::specs::Kinds::turn))]
    fn turn(self, place: u16, head: ContactHead, point: ContactPoint, vels: Vels) -> PointSolved
        ensures { result ≡ turn self place head point vels }
    {
        if place < head.count {
            return self.at_point(head, point, vels);
        }
        PointSolved { point, vels }
    }
}

// The two of a warm start differ in the part and its direction, kinds 1 and 3 (below) in what they ask of the part: a
// function for both would be told which, and choose as at_point does.
#[tactic(auto, unfolding(crate::specs::Kinds::warm_normal_at))]
fn warm_normal_at(head: ContactHead, point: ContactPoint, vels: Vels) -> PointSolved
    ensures { result ≡ warm_normal_at head point vels }
{
    let pushed = point
        .normal_part
        .warmstart(head.dir1, head.im1, head.im2, vels);
    PointSolved {
        point,
        vels: pushed,
    }
}

#[tactic(auto, unfolding(crate::specs::Kinds::warm_tangent_at))]
fn warm_tangent_at(head: ContactHead, point: ContactPoint, vels: Vels) -> PointSolved
    ensures { result ≡ warm_tangent_at head point vels }
{
    let pushed = point
        .tangent_part
        .warmstart(head.dir1.tangent(), head.im1, head.im2, vels);
    PointSolved {
        point,
        vels: pushed,
    }
}

// A point whose normal part was solved.
#[tactic(auto, unfolding(crate::specs::Kinds::normal_left))]
fn normal_left(point: ContactPoint, solved: NormalSolved) -> PointSolved
    ensures { result ≡ normal_left point solved }
{
    PointSolved {
        point: ContactPoint {
            normal_part: solved.part,
            ..point
        },
        vels: solved.vels,
    }
}

#[tactic(auto, unfolding(crate::specs::Kinds::normal_at))]
fn normal_at(head: ContactHead, point: ContactPoint, vels: Vels) -> PointSolved
    ensures { result ≡ normal_at head point vels }
{
    normal_left(
        point,
        point.normal_part.solve(head.dir1, head.im1, head.im2, vels),
    )
}

#[tactic(auto, unfolding(crate::specs::Kinds::friction_at))]
fn friction_at(head: ContactHead, point: ContactPoint, vels: Vels) -> PointSolved
    ensures { result ≡ friction_at head point vels }
{
    let limit = head.friction * point.normal_part.impulse;
    let solved = point
        .tangent_part
        .solve(head.dir1.tangent(), head.im1, head.im2, limit, vels);
    PointSolved {
        point: ContactPoint {
            tangent_part: solved.part,
            ..point
        },
        vels: solved.vels,
    }
}

#[tactic(auto, unfolding(crate::specs::Kinds::restitution_at))]
fn restitution_at(head: ContactHead, point: ContactPoint, vels: Vels) -> PointSolved
    ensures { result ≡ restitution_at head point vels }
{
    normal_left(
        point,
        point
            .normal_part
            .solve_restitution(head.dir1, head.im1, head.im2, vels),
    )
}

// A rule at the points below count, a then b.
#[tactic(auto, unfolding(crate::specs::Kinds::over_points))]
pub fn over_points(contact: Contact, rule: Rule, vels: Vels) -> ContactSolved
    ensures { result ≡ over_points rule contact vels }
{
    let Contact { head, a, b } = contact;
    let first = rule.turn(0, head, a, vels);
    let second = rule.turn(1, head, b, first.vels);
    ContactSolved {
        branch: None,
        contact: Contact {
            head,
            a: first.point,
            b: second.point,
        },
        vels: second.vels,
    }
}

// Kind 0: all normal parts, then all tangent parts.
#[tactic(auto, unfolding(crate::specs::Kinds::warm_start))]
pub fn warmstart(contact: Contact, vels: Vels) -> ContactSolved
    ensures { result ≡ warm_start contact vels }
{
    let pushed = over_points(contact, Rule::WarmNormal, vels);
    over_points(pushed.contact, Rule::WarmTangent, pushed.vels)
}

// Kind 4: both normal parts at once.
#[tactic(auto, unfolding(crate::specs::Kinds::pair_of))]
pub fn solve_pair(contact: Contact, vels: Vels) -> ContactSolved
    ensures { result ≡ pair_of contact vels }
{
    let Contact { head, a, b } = contact;
    let solved = ContactConstraintNormalPart::solve_pair(
        a.normal_part,
        b.normal_part,
        head.dir1,
        head.im1,
        head.im2,
        head.k12,
        head.flag,
        vels,
    );
    ContactSolved {
        branch: Some(solved.branch),
        contact: Contact {
            head,
            a: ContactPoint {
                normal_part: solved.a,
                ..a
            },
            b: ContactPoint {
                normal_part: solved.b,
                ..b
            },
        },
        vels: solved.vels,
    }
}

// The table of kinds, in three columns: a new kind is an arm of each. Above the last there is none. A kind is matched as a
// number, with ranges, as document 01 has it, and is no enum: a number above the last is a step too, which is refused.
pub const LAST_KIND: u16 = 4;

// The routine that a kind chooses.
#[tactic(auto, unfolding(crate::specs::Table::routine, crate::specs::Table::kind_of, crate::specs::Table::kinds))]
pub fn routine(contact: Contact, kind: u16, vels: Vels) -> ContactSolved
    ensures { result ≡ routine kind contact vels }
{
    match kind {
        0 => warmstart(contact, vels),
        1 => over_points(contact, Rule::Normal, vels),
        2 => over_points(contact, Rule::Friction, vels),
        3 => over_points(contact, Rule::Restitution, vels),
        4 => solve_pair(contact, vels),
        5..=65535 => ContactSolved {
            branch: None,
            contact,
            vels,
        },
    }
}

// How many points it needs.
#[tactic(auto, unfolding(crate::specs::Table::points_for, crate::specs::Table::kind_of, crate::specs::Table::kinds, crate::specs::Table::no_kind))]
pub fn points_for(kind: u16) -> u16
    ensures { result ≡ points_for kind }
{
    match kind {
        0 => 1,
        1 => 1,
        2 => 1,
        3 => 1,
        4 => 2,
        5..=65535 => 1,
    }
}

// Whether it stores a cell.
#[tactic(auto, unfolding(crate::specs::Table::stores, crate::specs::Table::kind_of, crate::specs::Table::kinds, crate::specs::Table::no_kind))]
pub fn stores(kind: u16, cell: Cell) -> bool
    ensures { result ≡ stores kind cell }
{
    match kind {
        0 => false,
        1 => cell.is(Cell::NormalImpulse),
        2 => cell.is(Cell::TangentImpulse),
        3 => cell.is(Cell::NormalImpulse),
        4 => cell.is(Cell::NormalImpulse),
        5..=65535 => false,
    }
}

// How hard a contact point pushes after a turn, alone or beside another. It sees numbers alone, so that every
// device with normal parts can share it. A pair's numbers are parameters of their own, as in the Rust's
// solve_mlcp_two_constraints, and not a record, which would be filled once and taken apart at once.
#![tactic(auto)]

ghost use Rattle.std.specs.Prelude.{◌≡◌};
ghost use Rattle.elem_impulse.specs.Point.{normal_impulse, restitution_impulse};
ghost use Rattle.elem_impulse.specs.Pair.{choice, degraded};
ghost use Rattle.elem_impulse.specs.Block.{alone, a_only, b_only, both, branch_number, neither, passing, pushing};
ghost use Rattle.elem_impulse.specs.Block.{block_choice, candidates, first_passing, kept, system};

use elem_leaves::{Vec2, inv, max0};

// How a pair of points was solved.
#[derive(Clone, Copy, PartialEq, Eq)]
pub enum Branch {
    Both,
    OnlyA,
    OnlyB,
    Neither,
    Kept,
    Degraded,
}

// The number that an answer gives it.
impl From<Branch> for u16 {
    ghost from_gives = { λ branch number. number ≡ branch_number branch };

    fn from(branch: Branch) -> u16 {
        match branch {
            Branch::Both => 1,
            Branch::OnlyA => 2,
            Branch::OnlyB => 3,
            Branch::Neither => 4,
            Branch::Kept => 5,
            Branch::Degraded => 6,
        }
    }
}

// The new impulses of points a (x) and b (y), and how they were found.
#[derive(Clone, Copy)]
pub struct PairChoice {
    pub branch: Branch,
    pub impulse: Vec2,
}

// The softened system that the candidates solve: 0 <= x, 0 <= K'x + b, one of them zero at each
// point. K' has kp11 and kp22 on its diagonal and k12 beside it.
#[derive(Clone, Copy)]
pub struct System {
    pub b1: f32,
    pub b2: f32,
    pub k12: f32,
    pub kp11: f32,
    pub kp22: f32,
}

impl System {
    #[tactic(auto, unfolding(crate::specs::Block::system))]
    fn new(dvel: Vec2, prev: Vec2, ra: f32, rb: f32, k12: f32, cfm: Vec2) -> System
        ensures { result ≡ system dvel prev ra rb k12 cfm }
    {
        let p = prev.x;
        let q = prev.y;
        let k11 = inv(ra);
        let k22 = inv(rb);
        let soft1 = inv(cfm.x);
        let soft2 = inv(cfm.y);
        System {
            b1: dvel.x - k11 * p - k12 * q,
            b2: dvel.y - k12 * p - k22 * q,
            k12,
            kp11: k11 * soft1,
            kp22: k22 * soft2,
        }
    }

    #[tactic(auto, unfolding(crate::specs::Block::both))]
    fn both(self) -> Option<PairChoice>
        ensures { result ≡ passing (both self) }
    {
        let b1 = self.b1;
        let b2 = self.b2;
        let k12 = self.k12;
        let kp11 = self.kp11;
        let kp22 = self.kp22;
        let det = kp11 * kp22 - k12 * k12;
        let f = inv(det);
        let x = (k12 * b2 - kp22 * b1) * f;
        let y = (k12 * b1 - kp11 * b2) * f;
        let passes = (det > 0.0) & (x >= 0.0) & (y >= 0.0);
        passes.then_some(PairChoice {
            branch: Branch::Both,
            impulse: Vec2 { x, y },
        })
    }

    // A only and b only share `alone`; they differ in their rows, their branch and where the impulse stands.
    #[tactic(auto, unfolding(crate::specs::Block::a_only))]
    fn only_a(self) -> Option<PairChoice>
        ensures { result ≡ passing (a_only self) }
    {
        let x = alone(self.b1, self.kp11, self.b2, self.k12)?;
        Some(PairChoice {
            branch: Branch::OnlyA,
            impulse: Vec2 { x, y: 0.0 },
        })
    }

    #[tactic(auto, unfolding(crate::specs::Block::b_only))]
    fn only_b(self) -> Option<PairChoice>
        ensures { result ≡ passing (b_only self) }
    {
        let y = alone(self.b2, self.kp22, self.b1, self.k12)?;
        Some(PairChoice {
            branch: Branch::OnlyB,
            impulse: Vec2 { x: 0.0, y },
        })
    }

    #[tactic(auto, unfolding(crate::specs::Block::neither))]
    fn neither(self) -> Option<PairChoice>
        ensures { result ≡ passing (neither self) }
    {
        let passes = (self.b1 >= 0.0) & (self.b2 >= 0.0);
        passes.then_some(PairChoice {
            branch: Branch::Neither,
            impulse: Vec2 { x: 0.0, y: 0.0 },
        })
    }

    // The first candidate that passes; where none does, the previous impulses.
    fn first_passing(self, prev: Vec2) -> PairChoice
        ensures { result ≡ first_passing (candidates self) (kept prev) }
    {
        let both = self.both();
        let only_a = self.only_a();
        let only_b = self.only_b();
        let neither = self.neither();
        let kept = PairChoice {
            branch: Branch::Kept,
            impulse: prev,
        };
        both.or(only_a).or(only_b).or(neither).unwrap_or(kept)
    }
}

// A point whose row of the system is b and kp, beside one whose b is other.
#[tactic(auto, unfolding(crate::specs::Block::alone))]
fn alone(b: f32, kp: f32, other: f32, k12: f32) -> Option<f32>
    ensures { result ≡ pushing (alone b kp other k12) }
{
    let x = -b * inv(kp);
    let passes = (x >= 0.0) & (other + k12 * x >= 0.0);
    passes.then_some(x)
}

#[tactic(auto, unfolding(crate::specs::Block::block_choice))]
fn block_choice(dvel: Vec2, prev: Vec2, ra: f32, rb: f32, k12: f32, cfm: Vec2) -> PairChoice
    ensures { result ≡ block_choice dvel prev ra rb k12 cfm }
{
    System::new(dvel, prev, ra, rb, k12, cfm).first_passing(prev)
}

// The new impulse of a point that is solved by itself.
#[tactic(auto, unfolding(crate::specs::Point::normal_impulse))]
pub fn normal_impulse(cfm: f32, impulse: f32, r: f32, dvel: f32) -> f32
    ensures { result ≡ normal_impulse cfm impulse r dvel }
{
    cfm * max0(impulse - r * dvel)
}

// The new impulse of a point that may bounce: only one that has pushed in this recording does.
#[tactic(auto, unfolding(crate::specs::Point::restitution_impulse))]
pub fn restitution_impulse(seed: f32, total: f32, impulse: f32, r: f32, dvel: f32) -> f32
    ensures { result ≡ restitution_impulse seed total impulse r dvel }
{
    let gate = (seed < 0.0) & (total > 0.0);
    if gate {
        return max0(impulse - r * dvel);
    }
    impulse
}

// One point after the other, k12 carrying what a's change does to b.
#[tactic(auto, unfolding(crate::specs::Pair::degraded))]
fn degraded(
    dvel: Vec2,
    degraded_dvel: f32,
    prev: Vec2,
    ra: f32,
    rb: f32,
    k12: f32,
    cfm: Vec2,
) -> PairChoice
    ensures { result ≡ degraded dvel degraded_dvel prev ra rb k12 cfm }
{
    let na = normal_impulse(cfm.x, prev.x, ra, degraded_dvel);
    let nb = normal_impulse(cfm.y, prev.y, rb, dvel.y + k12 * (na - prev.x));
    PairChoice {
        branch: Branch::Degraded,
        impulse: Vec2 { x: na, y: nb },
    }
}

// The new impulses of two coupled points: as a block where the flag allows it, else degraded.
#[tactic(auto, unfolding(crate::specs::Pair::choice))]
pub fn choice(
    dvel: Vec2,
    degraded_dvel: f32,
    prev: Vec2,
    ra: f32,
    rb: f32,
    k12: f32,
    flag: f32,
    cfm: Vec2,
) -> PairChoice
    ensures { result ≡ choice dvel degraded_dvel prev ra rb k12 flag cfm }
{
    if flag > 0.5 {
        return block_choice(dvel, prev, ra, rb, k12, cfm);
    }
    degraded(dvel, degraded_dvel, prev, ra, rb, k12, cfm)
}

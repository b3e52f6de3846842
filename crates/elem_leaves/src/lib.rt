// The leaves of document 01's arithmetic: a flat vector, its dot product and tangent, and three
// functions of one float. The ported file only calls them; document 01 gives their rules.
#![tactic(auto)]

ghost use Rattle.std.specs.Prelude.{◌≡◌};
ghost use Rattle.elem_leaves.specs.Finite.{finite};
ghost use Rattle.elem_leaves.specs.Leaves.{clamp, dot, inv, max0, tangent};

#[derive(Clone, Copy)]
pub struct Vec2 {
    pub x: f32,
    pub y: f32,
}

impl Vec2 {
    #[tactic(auto, unfolding(crate::specs::Leaves::dot))]
    pub fn dot(self, other: Vec2) -> f32
        ensures { result ≡ dot self other }
    {
        self.x * other.x + self.y * other.y
    }

    // A quarter turn: the direction of friction at a contact whose direction this is.
    #[tactic(auto, unfolding(crate::specs::Leaves::tangent))]
    pub fn tangent(self) -> Vec2
        ensures { result ≡ tangent self }
    {
        Vec2 {
            x: -self.y,
            y: self.x,
        }
    }
}

// What a reciprocal is cut by.
#[derive(Clone, Copy)]
pub struct Reciprocal;

impl Reciprocal {
    // A number nearer to zero than this has no reciprocal: bits 1e3ce508.
    pub const CUTOFF: f32 = 1e-20;
}

// The larger of x and zero; plus zero for a NaN and for minus zero, which f32::max may keep.
#[tactic(auto, unfolding(crate::specs::Leaves::max0))]
pub fn max0(x: f32) -> f32
    ensures { result ≡ max0 x }
{
    if x > 0.0 { x } else { 0.0 }
}

// A NaN is kept, so that the step that made it is refused. f32::clamp would ask that the limit is not below zero.
#[tactic(auto, unfolding(crate::specs::Leaves::clamp))]
pub fn clamp(x: f32, limit: f32) -> f32
    ensures { result ≡ clamp x limit }
{
    if x < -limit {
        return -limit;
    }
    if x > limit {
        return limit;
    }
    x
}

#[tactic(auto, unfolding(crate::specs::Leaves::inv))]
pub fn inv(x: f32) -> f32
    ensures { result ≡ inv x }
{
    let cut = (-Reciprocal::CUTOFF < x) & (x < Reciprocal::CUTOFF);
    if cut { 0.0 } else { 1.0 / x }
}

// Neither a NaN nor an infinity.
#[tactic(auto, using(crate::proofs::Finite::same_finite))]
pub fn is_finite(x: f32) -> bool
    ensures { result ≡ finite x }
{
    x.is_finite()
}

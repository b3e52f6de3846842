// The velocities that a contact reads and pushes: document 01's dvel and push. Both parts of a
// contact point, the normal and the tangent, read and push by these two rules. Their numbers come one by
// one, as the Rust's lines name them: a part has them among others, and there are two kinds of part.
#![tactic(auto)]

ghost use Rattle.std.specs.Prelude.{◌≡◌};
ghost use Rattle.elem_velocity.specs.Velocity.{dvel, moved, push, rest};

use elem_leaves::Vec2;

// A body's velocity along x and y, and its turning.
#[derive(Clone, Copy)]
pub struct SolverVel {
    pub linear: Vec2,
    pub angular: f32,
}

// The velocities of a contact's two bodies.
#[derive(Clone, Copy)]
pub struct Vels {
    pub v1: SolverVel,
    pub v2: SolverVel,
}

impl SolverVel {
    // Document 01 wants both: a named constant, and the Rust's zero().
    pub const ZERO: SolverVel = SolverVel {
        linear: Vec2 { x: 0.0, y: 0.0 },
        angular: 0.0,
    };

    // A body at rest, and what the floor reads as.
    #[tactic(auto, unfolding(crate::specs::Velocity::rest))]
    pub fn zero() -> SolverVel
        ensures { result ≡ rest }
    {
        SolverVel::ZERO
    }

    // The velocity after an impulse l along d, on a body whose inverse masses are im, and a turn.
    #[tactic(auto, unfolding(crate::specs::Velocity::moved))]
    pub fn moved(self, d: Vec2, im: Vec2, l: f32, turn: f32) -> SolverVel
        ensures { result ≡ moved self d im l turn }
    {
        SolverVel {
            linear: Vec2 {
                x: self.linear.x + d.x * im.x * l,
                y: self.linear.y + d.y * im.y * l,
            },
            angular: self.angular + turn,
        }
    }
}

impl Vels {
    // How fast the bodies part along d at a contact point, with what rhs adds.
    #[tactic(auto, unfolding(crate::specs::Velocity::dvel))]
    pub fn dvel(self, d: Vec2, t1: f32, t2: f32, rhs: f32) -> f32
        ensures { result ≡ dvel d t1 t2 rhs self }
    {
        let v1 = self.v1.linear;
        let v2 = self.v2.linear;
        let w1 = self.v1.angular;
        let w2 = self.v2.angular;
        d.dot(v1) + t1 * w1 - d.dot(v2) + t2 * w2 + rhs
    }

    // Both velocities after an impulse l: along d on body 1, against d on body 2.
    #[tactic(auto, unfolding(crate::specs::Velocity::push))]
    pub fn push(self, d: Vec2, im1: Vec2, im2: Vec2, ii1: f32, ii2: f32, l: f32) -> Vels
        ensures { result ≡ push d im1 im2 ii1 ii2 l self }
    {
        let v1 = self.v1;
        let v2 = self.v2;
        Vels {
            v1: v1.moved(d, im1, l, ii1 * l),
            v2: v2.moved(d, im2, -l, ii2 * l),
        }
    }
}

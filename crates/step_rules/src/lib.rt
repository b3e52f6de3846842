// What one step comes to, as a type: what is to be written, or why nothing is. The rules of a step, by which it is refused
// or done, are definitions in specs/; the engines that meet them stand above.
#![tactic(auto)]

ghost use Rattle.std.specs.Prelude.{◌≡◌};
ghost use Rattle.step_rules.specs.Numbered.{numbered_answer, numbered_branch};
ghost use Rattle.step_rules.specs.Step.{answer, branch, outcome_of};

use base_refusals::Refusal;
use step_kinds::ContactSolved;

// Done: the branch, the new contact and the new velocities; or refused.
pub type Outcome = Result<ContactSolved, Refusal>;

// An outcome by its numbers alone, which may be any: that of a refusal, or that of a branch. For who has no `Refusal` and no
// `Branch` to name them by.
#[derive(Clone, Copy, PartialEq, Eq)]
pub enum Numbered {
    Refused(u16),
    Done(u16),
}

impl Numbered {
    // The number of the refusal; 0 is success.
    pub fn answer(self) -> u16
        ensures { result ≡ numbered_answer self }
    {
        match self {
            Numbered::Refused(number) => number,
            Numbered::Done(_) => 0,
        }
    }

    // How a pair was solved; 0 for a refusal and for every other kind.
    pub fn branch(self) -> u16
        ensures { result ≡ numbered_branch self }
    {
        match self {
            Numbered::Refused(_) => 0,
            Numbered::Done(branch) => branch,
        }
    }
}

// The number of the refusal; 0 is success.
pub fn answer(outcome: Outcome) -> u16
    ensures { result ≡ answer (outcome_of outcome) }
{
    match outcome {
        Ok(_) => 0,
        Err(refusal) => u16::from(refusal),
    }
}

// How a pair was solved; 0 for a refusal and for every other kind.
pub fn branch(outcome: Outcome) -> u16
    ensures { result ≡ branch (outcome_of outcome) }
{
    match outcome {
        Ok(solved) => solved.branch_word(),
        Err(_) => 0,
    }
}

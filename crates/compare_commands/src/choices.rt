//! The choices that are compared.

ghost use Rattle.std.specs.Prelude.{◌≡◌};
ghost use Rattle.compare_commands.specs.Choices.{choices};

use program_figures::{Builder, Choice, Policy};

// A choice.
fn choice(policy: Policy, builder: Builder, regs: u8, jobs: u32) -> Choice
    ensures { result ≡ record { policy = policy; builder = builder; regs = regs; jobs = jobs } }
{
    Choice {
        policy,
        builder,
        regs,
        jobs,
    }
}

/// The choices that are compared, in the order of their rows, with so many workers each.
pub(crate) fn choices(jobs: u32) -> [Choice; 14]
    ensures { result ≡ choices jobs }
{
    [
        choice(Policy::Plain, Builder::Bi, 16, jobs),
        choice(Policy::Linear, Builder::Bi, 16, jobs),
        choice(Policy::BottomUp, Builder::Bi, 16, jobs),
        choice(Policy::Mixed, Builder::Bi, 16, jobs),
        choice(Policy::Plain, Builder::Uni, 16, jobs),
        choice(Policy::Linear, Builder::Uni, 16, jobs),
        choice(Policy::BottomUp, Builder::Uni, 16, jobs),
        choice(Policy::Mixed, Builder::Uni, 16, jobs),
        choice(Policy::Linear, Builder::Bi, 8, jobs),
        choice(Policy::BottomUp, Builder::Bi, 8, jobs),
        choice(Policy::Mixed, Builder::Bi, 8, jobs),
        choice(Policy::Linear, Builder::Bi, 4, jobs),
        choice(Policy::BottomUp, Builder::Bi, 4, jobs),
        choice(Policy::Mixed, Builder::Bi, 4, jobs),
    ]
}

//! Chains of links, gone through from the last link to the first: what is done behind each of them.

ghost use Rattle.std.specs.Prelude.{◌≡◌, List, Some, IfOk, OnOk, slice_get};
ghost use Rattle.ob_types.specs.declared.program.Program.{Program};
ghost use Rattle.ob_types.specs.declared.tree.Link.{Link};
ghost use Rattle.ssa_lowered.specs.Lowered.{Here};
ghost use Rattle.ssa_lowered.specs.Control.{Lowers, Test, fork_value, half, tested};
ghost use Rattle.ssa_exprs.specs.declared.steps.Wanted.{Wanted};
ghost use Rattle.ssa_exprs.specs.Making.{View};
ghost use Rattle.ssa_exprs.specs.Walk.{link_in, linked_in};
ghost use Rattle.ssa_exprs.specs.Steps.{Leads};

use crate::making::Making;
use ob_types::Link;
use outside::Memory;
use smallvec::SmallVec;

/// The labels that a condition leads to, and how often the block behind it runs.
#[derive(Clone, Copy)]
pub struct Ways {
    pub yes: u32,
    pub no: u32,
    pub next: u64,
}

/// What is wanted of an expression: its value, or a condition that leads to labels.
#[derive(Clone, Copy)]
pub enum Wanted {
    Value,
    Condition(Ways),
}

/// What is done behind the first links of a chain.
#[derive(Clone, Copy)]
pub enum Step {
    /// Their value goes into the operation of the link behind them.
    Apply(usize),
    /// Their value is tested.
    Fork(Ways),
    /// At a label, the operand of the link behind them is tested.
    Part { link: usize, label: u32, ways: Ways },
    /// The two labels that they lead to become 1 and 0.
    Flag { yes: u32, no: u32, freq: u64 },
}

impl Default for Step {
    fn default() -> Self {
        Step::Apply(0)
    }
}

/// Steps, the last one first: up to two stay inline.
pub type Steps = SmallVec<Step, 2>;

/// What is wanted of a chain's first operand, and what is done behind it, the last step first.
#[derive(Drop)]
pub struct ChainSteps {
    pub first: Wanted,
    pub steps: Steps,
}

/// What has to be done for a chain of links, as it is wanted. Labels are given out from the last link to the first.
pub fn planned(b: &mut Making, links: &[Link], wanted: Wanted) -> Result<ChainSteps, Memory>
    ensures { IfOk result (λ q. (p : Program) (here : Here) (x : Lowers) → Leads p here links.now q.steps.items q.first b.new x wanted b.old (linked_in p here links.now x)) }
{
    let mut steps = SmallVec::new(b.allocator());
    let mut first = wanted;
    let mut i = links.len();
    while i > 0 {
        i -= 1;
        first = before(b, &links[i], i, first, &mut steps)?;
    }
    Ok(ChainSteps { first, steps })
}

/// What is wanted of what stands before a link, whose number is given.
fn before(
    b: &mut Making,
    link: &Link,
    i: usize,
    wanted: Wanted,
    steps: &mut Steps,
) -> Result<Wanted, Memory>
    ensures { IfOk result (λ first. (p : Program) (here : Here) (ks : List Link) (x y : Lowers) (last : Wanted) (v : View) → slice_get ks i ≡ Some link.now
        → Leads p here ks steps.old.items wanted b.old (link_in p here link.now x) last v y → Leads p here ks steps.new.items first b.new x last v y) }
{
    match link {
        Link::And(_) => {
            let ways = as_condition(b, wanted, steps)?;
            let label = b.label()?;
            steps.push(Step::Part {
                link: i,
                label,
                ways,
            })?;
            Ok(Wanted::Condition(Ways {
                yes: label,
                no: ways.no,
                next: b.freq(),
            }))
        }
        Link::Or(_) => {
            let ways = as_condition(b, wanted, steps)?;
            let label = b.label()?;
            steps.push(Step::Part {
                link: i,
                label,
                ways,
            })?;
            Ok(Wanted::Condition(Ways {
                yes: ways.yes,
                no: label,
                next: b.freq(),
            }))
        }
        _ => {
            as_value(wanted, steps)?;
            steps.push(Step::Apply(i))?;
            Ok(Wanted::Value)
        }
    }
}

/// Where what is made by a test is to lead: where its value is wanted, to labels that become it.
fn as_condition(b: &mut Making, wanted: Wanted, steps: &mut Steps) -> Result<Ways, Memory>
    ensures { IfOk result (λ ways. (p : Program) (here : Here) (ks : List Link) (t : Test) (y : Lowers) (last : Wanted) (v : View)
        → Leads p here ks steps.old.items wanted b.old (tested t) last v y → Leads p here ks steps.new.items (Wanted.Condition ways) b.new (tested t) last v y) }
{
    match wanted {
        Wanted::Condition(ways) => Ok(ways),
        Wanted::Value => {
            let freq = b.freq();
            let yes = b.label()?;
            let no = b.label()?;
            steps.push(Step::Flag { yes, no, freq })?;
            Ok(Ways {
                yes,
                no,
                next: half(freq),
            })
        }
    }
}

/// The value of what isn't a test is made in any case: where a condition is wanted, it is tested.
fn as_value(wanted: Wanted, steps: &mut Steps) -> Result<(), Memory>
    ensures { OnOk result ((p : Program) (here : Here) (ks : List Link) (u v : View) (x y : Lowers) (last : Wanted) → x.test ≡ fork_value x.value
        → Leads p here ks steps.old.items wanted u x last v y → Leads p here ks steps.new.items Wanted.Value u x last v y) }
{
    if let Wanted::Condition(ways) = wanted {
        steps.push(Step::Fork(ways))?;
    }
    Ok(())
}

/// Half of a frequency, and at least 1.
pub fn half(freq: u64) -> u64
    ensures { result ≡ half freq }
{
    if freq < 2 { 1 } else { freq / 2 }
}

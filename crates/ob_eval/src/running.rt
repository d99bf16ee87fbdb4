//! Steps, and runs of them.

use crate::machine::Machine;
use eval_layouts::LaidProgram;
use eval_store::Stop;
use eval_tasks::{Act, Branching, Task};

impl<'a> Machine<'a> {
    ghost use Rattle.std.specs.Prelude.{◌≡◌};
    ghost use Rattle.eval_store.specs.Did.{Did, Sensible};
    ghost use Rattle.eval_tasks.specs.Tasks.{acts, does};
    ghost use Rattle.eval_tasks.specs.Weights.{weight};
    ghost use Rattle.ob_eval.specs.Steps.{left, before, Went, Falls, Ran, Spends};

    /// An act on the last values.
    fn act(&mut self, laid: &LaidProgram<'a>, act: Act) -> Result<(), Stop>
        requires sensible { Sensible (before laid.now (acts laid.now act) self.old) }
        ensures went { Went laid.now (before laid.now (acts laid.now act) self.old) result self.new }
        ensures falls { Falls 1 self.old result self.new }
    {
        match act {
            Act::Fetch => return self.fetch(laid),
            Act::OneOperand(operator) => return self.one_operand(laid, operator),
            Act::Number => return self.number(laid),
            Act::Element => return self.element(laid),
            Act::TwoOperands(operator) => return self.two_operands(laid, operator),
            Act::Compared(relation) => return self.compared(laid, relation),
            Act::TextsCompared(relation) => return self.texts_compared(laid, relation),
            Act::Contained => return self.contained(laid),
            Act::WithElement => return self.with_element(laid),
            Act::WithRange => return self.with_range(laid),
            Act::PointerIs(r) => return self.pointer_is(laid, r),
            Act::ParameterIs(r) => return self.parameter_is(laid, r),
            Act::AsByte => return self.as_byte(laid),
            Act::LengthOf(length) => return self.length_of(laid, length),
            Act::AsSpan(length) => return self.as_span(laid, length),
            Act::AsPlace => return self.as_place(laid),
            Act::AsRecord(own) => return self.as_record(laid, own),
            Act::ElementOf(cells) => return self.element_of(laid, cells),
            Act::Put => return self.put(laid),
            Act::PutFirst => return self.put_first(laid),
            Act::CopyArray(cells) => return self.copy_array(laid, cells),
            Act::CopyRecord(cells) => return self.copy_record(laid, cells),
            Act::ChangeNumber(operator, is_of_byte) => return self.change_number(
                laid, operator, is_of_byte,
            ),
            Act::ChangeSet(operator) => return self.change_set(laid, operator),
            Act::Make(r) => return self.make(laid, r),
            Act::Assert => return self.assert(laid),
            Act::OutChar => return self.out_char(laid),
            Act::OutInt => return self.out_int(laid),
            Act::OutString => return self.out_string(laid),
            Act::InChar => return self.in_char(laid),
            Act::Yes => return self.yes(laid),
            Act::Drop => return self.drop_last(laid),
            Act::Nothing => Err(Stop::NoSense),
            Act::Invoke(g, count, wanted) => return self.invoke(laid, g, count, wanted),
            Act::InvokeValue(count, wanted) => return self.invoke_value(laid, count, wanted),
        }
    }

    /// A task.
    fn step(&mut self, laid: &LaidProgram<'a>, task: Task<'a>) -> Result<(), Stop>
        requires sensible { Sensible (before laid.now (does laid.now task) self.old) }
        ensures went { Went laid.now (before laid.now (does laid.now task.entry) self.old) result self.new }
        ensures falls { Falls (weight task.entry) self.old result self.new }
    {
        match task {
            Task::Do(act) => return self.act(laid, act),
            Task::Evaluate(e) => return self.value(laid, e),
            Task::Follow(links) => return self.follow(laid, links),
            Task::Locate(d) => return self.locate(laid, d),
            Task::Select(selectors) => return self.select(laid, selectors),
            Task::Guards(guards) => return self.guard(laid, guards),
            Task::Gather(arguments) => return self.gather(laid, arguments),
            Task::Perform(statement, stage) => return self.go_on(laid, statement, stage),
            Task::PerformAll(all, asked) => {
                if asked {
                    return self.otherwise(laid, all);
                }
                return self.perform_all(laid, all);
            }
            Task::Branches(all, stage) => match stage {
                Branching::Try => return self.try_first(laid, all),
                Branching::Chosen => return self.chosen(laid, all),
                Branching::Rounds(n) => return self.rounds(laid, n, all),
                Branching::Again(n) => return self.again(laid, n, all),
            },
            Task::Cases(parts) => return self.case(laid, parts),
            Task::Types(parts, by) => return self.case_type(laid, parts, by),
            Task::Return(old, wanted) => {
                if wanted {
                    return self.return_with(laid, old);
                }
                return self.return_bare(laid, old);
            }
            Task::Resume(old) => return self.resume(laid, old),
        }
    }

    /// Steps until a turn is spent or nothing is left to do: whether nothing is.
    pub fn until_spent(&mut self, laid: &LaidProgram<'a>) -> Result<bool, Stop>
        requires sensible { Sensible (left laid.now self.old) }
        ensures ran { Ran laid.now (left laid.now self.old) result self.new }
        ensures spent { Spends self.old result self.new }
    {
        let turns = self.world.turns();
        'steps: loop {
            match self.tasks.pop() {
                None => return Ok(true),
                Some(task) => match self.step(laid, task) {
                    Ok(()) => {
                        if self.world.turns() < turns {
                            return Ok(false);
                        }
                    }
                    Err(stop) => return Err(stop),
                },
            }
        }
    }
}

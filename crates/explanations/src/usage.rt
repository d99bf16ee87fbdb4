//! The commands, for people.

ghost use Rattle.std.specs.Prelude.{◌≡◌};
ghost use Rattle.explanations.specs.Usage.{usage};

const USAGE: &str = "\
trc COMMAND WORDS [OPTIONS]
An option may stand anywhere behind the command; behind -- each word is a name.

run FILE {FILE} [--policy P] [--traces T] [--regs R] [--jobs J] [--steps S]
    compiles the files and runs their image
    trc run Stack.Mod UseStack.Mod
build OUT FILE {FILE} [--policy P] [--traces T] [--regs R] [--jobs J] [--from IMAGE] [--notes NAME]
    compiles the files and writes their image to OUT
    trc build answer.img Answer.Mod
elf OUT FILE {FILE} [--policy P] [--traces T] [--regs R] [--jobs J]
    compiles the files and writes a program for Linux on AArch64 to OUT
    trc elf answer Answer.Mod
exec IMAGE [--steps S]
    runs the image that build wrote to the file IMAGE
    trc exec answer.img
check FILE {FILE} [--format F]
    judges the files, and says nothing where all is well
    trc check Stack.Mod UseStack.Mod --format json
traces FILE {FILE} [--policy P] [--traces T]
    tells the traces of the files' procedures
    trc traces Gcd.Mod
bulk SEED SIZE [--policy P] [--traces T] [--regs R] [--jobs J] [--steps S]
    makes a module of SIZE procedures, 1 to 1000, from SEED, and compiles and runs it
    trc bulk 7 3
audit OUT NOTES FILE {FILE} [--traces T] [--regs R]
    takes results from the file NOTES; where they are sound, writes their image to OUT
    trc audit gcd.img gcd.notes Gcd.Mod
object OUT FILE {FILE} [--policy P] [--traces T] [--regs R] [--jobs J]
    compiles the files and writes the object of the last one to OUT
    trc object use.obj Stack.Mod UseStack.Mod
link OUT OBJECT {OBJECT}
    writes the image of the modules in the objects to OUT
    trc link use.img stack.obj use.obj
mean FILE {FILE} [--turns N]
    does what the files mean, with no image
    trc mean Sorting.Mod
both FILE {FILE} [--policy P] [--traces T] [--regs R] [--jobs J] [--steps S] [--turns N]
    tells how what the files mean ends, and how the run of their image does
    trc both Gcd.Mod
compare FILE {FILE} [--jobs J] [--steps S]
    compiles and runs the files by each policy, and tells in a table what each takes
    trc compare Sorting.Mod
show OUT FILE {FILE} [--policy P] [--traces T] [--regs R] [--against P]
    writes a page to OUT on what the registers hold; with --against beside policy P
    trc show matrices.html Matrices.Mod --against plain
batch LIST [--policy P] [--traces T] [--regs R] [--jobs J] [--steps S]
    answers the jobs that the file LIST lists, in lines as 0 Answer.Mod
    trc batch batch.txt
explain [NUMBER | usage]
    explains what a number means that trc told, or the commands; alone, lists the numbers
    trc explain 31
help
    tells commands and options in two lines

FILE     a module's file, 1 to 64 of them, each behind those that it imports
P        plain, linear, bottomup or mixed: how registers are given; else linear
T        uni or bi: how blocks are put together to traces; else bi
R        4 to 16: how many registers are given; else 16
J        1 to 64: how many workers share the work; else 4
S        0 to 1000000000000000: the most steps of a run; else 1000000000
N        0 to 1000000000000000: the most turns of a meaning; else 100000000
F        text or json: how a fault is told; else text
IMAGE    a file that has to hold the same image in version 1
NAME     a file to which the results behind the image are written
";

/// Each command with its words, options and an example.
#[tactic(auto, unfolding(crate::specs::Usage::usage))]
pub(crate) fn usage() -> &'static str
    ensures { result.now ≡ usage }
{
    USAGE
}

//! From words to what they ask for.

ghost use Rattle.std.specs.Prelude.{map, string_bytes, IfOk};
ghost use Rattle.command_words.specs.Commands.{run_command, build_command, elf_command, exec_command, traces_command, bulk_command, audit_command, object_command, link_command, mean_command, both_command, batch_command, check_command, explain_command, compare_command, show_command, help_command};
ghost use Rattle.word_requests.specs.Asked.{run_asked, build_asked, elf_asked, exec_asked, traces_asked, bulk_asked, audit_asked, object_asked, link_asked, mean_asked, both_asked, batch_asked, check_asked, explain_asked, compare_asked, show_asked, help_asked};
ghost use Rattle.word_requests.specs.Fitting.{Fits};
ghost use Rattle.word_requests.specs.Requests.{Asks, plain};
ghost use Rattle.trc_words.specs.Asked.{asked, asked_of, taken};

use command_words::WordsFault;
use std::alloc::Global;
use word_requests::{
    Request, audit_request, batch_request, both_request, build_request, bulk_request,
    check_request, compare_request, elf_request, exec_request, explain_request, link_request,
    mean_request, object_request, run_request, show_request, traces_request,
};

/// What words ask for that begin with `run`.
fn run<'a>(alloc: Global, words: &'a [String]) -> Result<Request<'a>, WordsFault>
    ensures { Asks (taken run_command (map string_bytes words.entry.now) run_asked) result }
{
    let matches = command_words::run(alloc, words)?;
    run_request(alloc, &matches)
}

/// What words ask for that begin with `build`.
fn build<'a>(alloc: Global, words: &'a [String]) -> Result<Request<'a>, WordsFault>
    ensures { Asks (taken build_command (map string_bytes words.entry.now) build_asked) result }
{
    let matches = command_words::build(alloc, words)?;
    build_request(alloc, &matches)
}

/// What words ask for that begin with `elf`.
fn elf<'a>(alloc: Global, words: &'a [String]) -> Result<Request<'a>, WordsFault>
    ensures { Asks (taken elf_command (map string_bytes words.entry.now) elf_asked) result }
{
    let matches = command_words::elf(alloc, words)?;
    elf_request(alloc, &matches)
}

/// What words ask for that begin with `exec`.
fn exec<'a>(alloc: Global, words: &'a [String]) -> Result<Request<'a>, WordsFault>
    ensures { Asks (taken exec_command (map string_bytes words.entry.now) exec_asked) result }
{
    let matches = command_words::exec(alloc, words)?;
    exec_request(&matches)
}

/// What words ask for that begin with `traces`.
fn traces<'a>(alloc: Global, words: &'a [String]) -> Result<Request<'a>, WordsFault>
    ensures { Asks (taken traces_command (map string_bytes words.entry.now) traces_asked) result }
{
    let matches = command_words::traces(alloc, words)?;
    traces_request(alloc, &matches)
}

/// What words ask for that begin with `bulk`.
fn bulk<'a>(alloc: Global, words: &'a [String]) -> Result<Request<'a>, WordsFault>
    ensures { Asks (taken bulk_command (map string_bytes words.entry.now) bulk_asked) result }
{
    let matches = command_words::bulk(alloc, words)?;
    bulk_request(&matches)
}

/// What words ask for that begin with `audit`.
fn audit<'a>(alloc: Global, words: &'a [String]) -> Result<Request<'a>, WordsFault>
    ensures { Asks (taken audit_command (map string_bytes words.entry.now) audit_asked) result }
{
    let matches = command_words::audit(alloc, words)?;
    audit_request(alloc, &matches)
}

/// What words ask for that begin with `object`.
fn object<'a>(alloc: Global, words: &'a [String]) -> Result<Request<'a>, WordsFault>
    ensures { Asks (taken object_command (map string_bytes words.entry.now) object_asked) result }
{
    let matches = command_words::object(alloc, words)?;
    object_request(alloc, &matches)
}

/// What words ask for that begin with `link`.
fn link<'a>(alloc: Global, words: &'a [String]) -> Result<Request<'a>, WordsFault>
    ensures { Asks (taken link_command (map string_bytes words.entry.now) link_asked) result }
{
    let matches = command_words::link(alloc, words)?;
    link_request(alloc, &matches)
}

/// What words ask for that begin with `mean`.
fn mean<'a>(alloc: Global, words: &'a [String]) -> Result<Request<'a>, WordsFault>
    ensures { Asks (taken mean_command (map string_bytes words.entry.now) mean_asked) result }
{
    let matches = command_words::mean(alloc, words)?;
    mean_request(alloc, &matches)
}

/// What words ask for that begin with `both`.
fn both<'a>(alloc: Global, words: &'a [String]) -> Result<Request<'a>, WordsFault>
    ensures { Asks (taken both_command (map string_bytes words.entry.now) both_asked) result }
{
    let matches = command_words::both(alloc, words)?;
    both_request(alloc, &matches)
}

/// What words ask for that begin with `batch`.
fn batch<'a>(alloc: Global, words: &'a [String]) -> Result<Request<'a>, WordsFault>
    ensures { Asks (taken batch_command (map string_bytes words.entry.now) batch_asked) result }
{
    let matches = command_words::batch(alloc, words)?;
    batch_request(&matches)
}

/// What words ask for that begin with `check`.
fn check<'a>(alloc: Global, words: &'a [String]) -> Result<Request<'a>, WordsFault>
    ensures { Asks (taken check_command (map string_bytes words.entry.now) check_asked) result }
{
    let matches = command_words::check(alloc, words)?;
    check_request(alloc, &matches)
}

/// What words ask for that begin with `explain`.
fn explain<'a>(alloc: Global, words: &'a [String]) -> Result<Request<'a>, WordsFault>
    ensures { Asks (taken explain_command (map string_bytes words.entry.now) explain_asked) result }
{
    let matches = command_words::explain(alloc, words)?;
    explain_request(&matches)
}

/// What words ask for that begin with `compare`.
fn compare<'a>(alloc: Global, words: &'a [String]) -> Result<Request<'a>, WordsFault>
    ensures { Asks (taken compare_command (map string_bytes words.entry.now) compare_asked) result }
{
    let matches = command_words::compare(alloc, words)?;
    compare_request(alloc, &matches)
}

/// What words ask for that begin with `show`.
fn show<'a>(alloc: Global, words: &'a [String]) -> Result<Request<'a>, WordsFault>
    ensures { Asks (taken show_command (map string_bytes words.entry.now) show_asked) result }
{
    let matches = command_words::show(alloc, words)?;
    show_request(alloc, &matches)
}

/// What words ask for that begin with `help`.
fn help<'a>(alloc: Global, words: &'a [String]) -> Result<Request<'a>, WordsFault>
    ensures { Asks (taken help_command (map string_bytes words.entry.now) help_asked) result }
{
    let _matches = command_words::help(alloc, words)?;
    Ok(Request::Help)
}

/// What words ask for that begin with a command of this name.
fn of_command<'a>(alloc: Global, name: &str, words: &'a [String]) -> Result<Request<'a>, WordsFault>
    ensures { Asks (asked_of name.now (map string_bytes words.entry.now)) result }
{
    match name {
        "run" => run(alloc, words),
        "build" => build(alloc, words),
        "elf" => elf(alloc, words),
        "exec" => exec(alloc, words),
        "traces" => traces(alloc, words),
        "bulk" => bulk(alloc, words),
        "audit" => audit(alloc, words),
        "object" => object(alloc, words),
        "link" => link(alloc, words),
        "mean" => mean(alloc, words),
        "both" => both(alloc, words),
        "batch" => batch(alloc, words),
        "check" => check(alloc, words),
        "explain" => explain(alloc, words),
        "compare" => compare(alloc, words),
        "show" => show(alloc, words),
        "help" => help(alloc, words),
        _ => Err(WordsFault::Usage),
    }
}

/// What these words ask for, those behind the program's name; `Usage` exactly where they are refused. The words are
/// read as the command's written meaning says, and a value is tested against its table.
pub fn read_words<'a>(alloc: Global, words: &'a [String]) -> Result<Request<'a>, WordsFault>
    ensures asks { Asks (asked (map string_bytes words.entry.now)) result }
    ensures fits { IfOk result (λ request. Fits (plain request)) }
{
    match words.first() {
        Some(command) => of_command(alloc, command.as_str(), words),
        None => Err(WordsFault::Usage),
    }
}

//! The values that words give an argument or an option.

ghost use Rattle.std.specs.Prelude.{◌≡◌, option_map};
ghost use Rattle.clap.specs.Words.{all_of, first_of, found_of, rows_of};
ghost use Rattle.option_values.specs.Values.{names_in, notes_in, other_than, text, texts};

use clap::ArgMatches;

/// The value of an argument or option, by its name.
pub fn value<'a>(matches: &ArgMatches<'a>, name: &str) -> Option<&'a str>
    ensures { text result ≡ first_of name.now (rows_of (found_of matches.now)) }
{
    matches.get_str(name)
}

/// The values of an argument, by its name.
fn values<'m, 'a>(matches: &'m ArgMatches<'a>, name: &str) -> Option<&'m [&'a str]>
    ensures { option_map (λ list. texts list.now) result ≡ all_of name.now (rows_of (found_of matches.now)) }
{
    matches.get_strs(name)
}

/// The values of an argument, of which there is one at least.
pub fn some_values<'m, 'a>(matches: &'m ArgMatches<'a>, name: &str) -> Option<&'m [&'a str]>
    ensures { option_map (λ names. texts names.now) result ≡ names_in name.now (rows_of (found_of matches.now)) }
{
    let names = values(matches, name)?;
    if names.is_empty() { None } else { Some(names) }
}

/// A name that isn't this one, if there is a name.
fn other_than<'a>(out: &str, name: Option<&'a str>) -> Option<Option<&'a str>>
    ensures { option_map text result ≡ other_than out.now (text name.entry) }
{
    let Some(name) = name else {
        return Some(None);
    };
    if name == out { None } else { Some(Some(name)) }
}

/// The name of the file for notes, if there is one, which is another than this.
pub fn notes_name<'a>(matches: &ArgMatches<'a>, out: &str) -> Option<Option<&'a str>>
    ensures { option_map text result ≡ notes_in out.now (rows_of (found_of matches.now)) }
{
    other_than(out, value(matches, "notes"))
}

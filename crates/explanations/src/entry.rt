//! What a page says.

ghost use Rattle.std.specs.Prelude.{◌≡◌, map};
ghost use Rattle.explanations.specs.Entries.{entry_with, plain};

/// The texts of a page, in the order of an entry's fields. A definition may name a constant of this type, and none of a struct that
/// holds references.
pub(crate) type Texts = [&'static str; 6];

/// What a page says. No text ends with a line's end.
#[derive(Clone, Copy, Debug)]
pub struct Entry {
    /// How the fault, limit, trap or rule is called.
    pub name: &'static str,
    /// What it means, in a line.
    pub title: &'static str,
    /// More of that, in lines of at most 100 bytes.
    pub more: &'static str,
    /// The files of an example, each as a line with its name and a colon, and the lines of its text, behind four blanks. `@N[ ]`
    /// stands for what is in it N times, with the number of the time, from 0, for `%`. The bytes of an image are hexadecimal digits.
    pub example: &'static str,
    /// A line with the call that gives it, behind `$ `, and the line that tells it.
    pub session: &'static str,
    /// The files that are otherwise where it is mended, or a line with another call.
    pub mended: &'static str,
}

/// An entry of these texts.
pub(crate) fn entry_with(texts: Texts) -> Entry
    ensures { plain result ≡ entry_with (map (λ text. text.now) texts.entry) }
{
    let [name, title, more, example, session, mended] = texts;
    Entry {
        name,
        title,
        more,
        example,
        session,
        mended,
    }
}

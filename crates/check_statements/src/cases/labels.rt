//! Labels of values.

ghost use Rattle.std.specs.Prelude.{◌≡◌, ℤ, ℕ, List, [], slice_index_or};
ghost use Rattle.wrapping_numbers.specs.Numbers.{signed};
ghost use Rattle.ob_judge.specs.Judged.{some};
ghost use Rattle.ob_judge.specs.Shapes.{Integer, Char as CharShape};
ghost use Rattle.ob_judge.specs.Image.{Bits, Chars as TheChars};
ghost use Rattle.ob_judge.specs.Scopes.{symbol_at, place};
ghost use Rattle.ob_judge.specs.Names.{qualified as judged_qualident, member_symbol as member_of};
ghost use Rattle.ob_judge.specs.Parts.{int_of, char_of};
ghost use Rattle.ob_judge.specs.Cases.{Labelled as JudgedLabels, label_in, label_symbol as symbol_of, label as judged_label, high_label as judged_high, value_label as label_of, ranges as judged_ranges, as_list};
ghost use Rattle.check_types.specs.steps.Answers.{Answers};
ghost use Rattle.check_types.specs.names.Meaning.{constant_of};
ghost use Rattle.check_types.specs.names.Worlds.{table_of, strings_of, world_of, IsNamed};
ghost use Rattle.check_statements.specs.ranges.Ranges.{AreRanges};
ghost use Rattle.check_statements.specs.cases.Labels.{IsNumber, IsLabelled, named_label as judged_name, labelled_ends, labelled_one, labelled_more};

use crate::ranges::LabelRanges;
use check_types::names::{Basic, Constant, Named, Scope};
use check_types::steps::CheckFault;
use items::Items;
use ob_symbol::Kind;
use ob_syntax::names::{Member, Qualident};
use ob_syntax::statements::{High, Label, NextRange, Range};
use ob_types::Label as ValueLabel;
use std::alloc::Global;

/// The labels of a part, and all before them.
#[derive(Drop)]
pub struct Labelled {
    pub labels: Items<ValueLabel>,
    pub taken: LabelRanges,
}

// The symbol of a member's name.
fn member_symbol(tree: &Option<Member>) -> Option<u32>
    ensures { result ≡ member_of tree.now }
{
    match tree {
        None => None,
        Some(member) => Some(member.name),
    }
}

/// What a qualident names.
pub fn qualified<'a>(scope: &Scope<'a>, tree: &Qualident) -> Result<Named, CheckFault>
    ensures { Answers (IsNamed scope.now)
        (judged_qualident scope.now.source.now (world_of scope.now) tree.now.name
        (member_of tree.now.member))
        result }
{
    scope.qualified(tree.name, member_symbol(&tree.member))
}

/// The symbol that a label begins with.
pub fn label_symbol(tree: &Label) -> u32
    ensures { result ≡ symbol_of tree.now }
{
    match tree {
        Label::Int(i) => *i,
        Label::Char(i) => *i,
        Label::Text(i) => *i,
        Label::Named(name) => name.name,
    }
}

// The number that an integer's symbol is.
fn number_at<'a>(scope: &Scope<'a>, i: u32) -> i64
    ensures { result ≡ signed (int_of (symbol_at scope.now.source.now i).kind) }
{
    match scope.source.symbol(i).kind {
        Kind::Int(n) => n,
        _ => 0,
    }
}

// The code of a character's symbol.
fn code_at<'a>(scope: &Scope<'a>, i: u32) -> u8
    ensures { result ≡ char_of (symbol_at scope.now.source.now i).kind }
{
    match scope.source.symbol(i).kind {
        Kind::Char(n) => n,
        _ => 0,
    }
}

// An integer.
fn number_label<'a>(scope: &Scope<'a>, of_char: bool, i: u32) -> Result<i64, CheckFault>
    ensures { Answers IsNumber
        (some 39 (place scope.now.source.now i)
        (label_in of_char
        (Bits Integer (int_of (symbol_at scope.now.source.now i).kind))))
        result }
{
    if of_char {
        Err(scope.source.fault(39, i))
    } else {
        Ok(number_at(scope, i))
    }
}

// A character.
fn code_label<'a>(scope: &Scope<'a>, of_char: bool, i: u32) -> Result<i64, CheckFault>
    ensures { Answers IsNumber
        (some 39 (place scope.now.source.now i)
        (label_in of_char
        (Bits CharShape (char_of (symbol_at scope.now.source.now i).kind))))
        result }
{
    if of_char {
        Ok(i64::from(code_at(scope, i)))
    } else {
        Err(scope.source.fault(39, i))
    }
}

// A string: a character where it has one.
fn text_label<'a>(
    scope: &Scope<'a>,
    symbol: u32,
    of_char: bool,
    characters: &[u8],
) -> Result<i64, CheckFault>
    ensures { Answers IsNumber
        (some 39 (place scope.now.source.now symbol) (label_in of_char (TheChars characters.now))) result }
{
    match characters {
        [code] => {
            if of_char {
                Ok(i64::from(*code))
            } else {
                Err(scope.source.fault(39, symbol))
            }
        }
        _ => Err(scope.source.fault(39, symbol)),
    }
}

// A string constant's characters.
fn string_at<'a>(scope: &Scope<'a>, k: u32) -> &'a [u8]
    ensures { result.now ≡ slice_index_or (strings_of scope.now) k [] }
{
    match scope.strings.get(k as usize) {
        Some(string) => string.as_slice(),
        None => &[],
    }
}

// The code of a CHAR constant, which has 8 bits: one that had 64 wouldn't be taken.
fn code_of<'a>(scope: &Scope<'a>, symbol: u32, of_char: bool, bits: u64) -> Result<i64, CheckFault>
    ensures { Answers IsNumber
        (some 39 (place scope.now.source.now symbol) (label_in of_char (Bits CharShape bits))) result }
{
    if !of_char {
        Err(scope.source.fault(39, symbol))
    } else if bits < 9223372036854775808 {
        Ok(bits as i64)
    } else {
        Err(CheckFault::Memory)
    }
}

// An INTEGER constant.
fn number_of<'a>(
    scope: &Scope<'a>,
    symbol: u32,
    of_char: bool,
    bits: u64,
) -> Result<i64, CheckFault>
    ensures { Answers IsNumber
        (some 39 (place scope.now.source.now symbol) (label_in of_char (Bits Integer bits))) result }
{
    if of_char {
        Err(scope.source.fault(39, symbol))
    } else {
        Ok(bits.cast_signed())
    }
}

// A constant.
fn constant_label<'a>(
    scope: &Scope<'a>,
    symbol: u32,
    of_char: bool,
    c: Constant,
) -> Result<i64, CheckFault>
    ensures { Answers IsNumber
        (some 39 (place scope.now.source.now symbol)
        (label_in of_char (constant_of (table_of scope.now) (strings_of scope.now) c)))
        result }
{
    match c {
        Constant::Bits(Basic::Int, bits) => number_of(scope, symbol, of_char, bits),
        Constant::Bits(Basic::Char, bits) => code_of(scope, symbol, of_char, bits),
        Constant::Bits(_, _) => Err(scope.source.fault(39, symbol)),
        Constant::Chars(k) => text_label(scope, symbol, of_char, string_at(scope, k)),
    }
}

// A constant by its name.
fn named_label<'a>(scope: &Scope<'a>, of_char: bool, tree: &Qualident) -> Result<i64, CheckFault>
    ensures { Answers IsNumber (judged_name scope.now.source.now (world_of scope.now) of_char tree.now) result }
{
    let named = qualified(scope, tree)?;
    match named {
        Named::Constant(c) => constant_label(scope, tree.name, of_char, c),
        _ => Err(scope.source.fault(39, tree.name)),
    }
}

// A label of INTEGER or CHAR: else 39.
fn label<'a>(scope: &Scope<'a>, of_char: bool, tree: &Label) -> Result<i64, CheckFault>
    ensures { Answers IsNumber (judged_label scope.now.source.now (world_of scope.now) of_char tree.now) result }
{
    match tree {
        Label::Int(i) => number_label(scope, of_char, *i),
        Label::Char(i) => code_label(scope, of_char, *i),
        Label::Text(i) => text_label(scope, *i, of_char, scope.source.characters(*i)),
        Label::Named(name) => named_label(scope, of_char, name),
    }
}

// Where a range ends.
fn high_label<'a>(
    scope: &Scope<'a>,
    of_char: bool,
    low: i64,
    tree: &Option<High>,
) -> Result<i64, CheckFault>
    ensures { Answers IsNumber (judged_high scope.now.source.now (world_of scope.now) of_char low tree.now) result }
{
    match tree {
        None => Ok(low),
        Some(high) => label(scope, of_char, &high.label),
    }
}

// The label of a checked tree.
fn value_label(low: i64, high: i64, tree: &Option<High>) -> ValueLabel
    ensures { result ≡ label_of low high tree.now }
{
    match tree {
        None => ValueLabel::One(low),
        Some(_) => ValueLabel::Range(low, high),
    }
}

// One more range, whose labels are known: 39 where it runs downward, or overlaps one before.
fn with_ends<'a>(
    scope: &Scope<'a>,
    symbol: u32,
    so_far: Labelled,
    low: i64,
    high: i64,
    tree: &Option<High>,
) -> Result<Labelled, CheckFault>
    ensures { (a : JudgedLabels) → IsLabelled so_far a →
        Answers IsLabelled
        (labelled_ends scope.now.source.now (world_of scope.now) (place scope.now.source.now symbol) low high tree.now a) result }
{
    let Labelled {
        mut labels,
        mut taken,
    } = so_far;
    if taken.add(low, high)? {
        labels.push(value_label(low, high, tree))?;
        Ok(Labelled { labels, taken })
    } else {
        Err(scope.source.fault(39, symbol))
    }
}

// One more range.
fn with_range<'a>(
    scope: &Scope<'a>,
    of_char: bool,
    so_far: Labelled,
    tree: &Range,
) -> Result<Labelled, CheckFault>
    ensures { (a : JudgedLabels) → IsLabelled so_far a →
        Answers IsLabelled (labelled_one scope.now.source.now (world_of scope.now) of_char a tree.now) result }
{
    let low = label(scope, of_char, &tree.low)?;
    let high = high_label(scope, of_char, low, &tree.high)?;
    with_ends(
        scope,
        label_symbol(&tree.low),
        so_far,
        low,
        high,
        &tree.high,
    )
}

// Further ranges.
fn with_ranges<'a>(
    scope: &Scope<'a>,
    of_char: bool,
    first: Labelled,
    more: &[NextRange],
) -> Result<Labelled, CheckFault>
    ensures { (a : JudgedLabels) → IsLabelled first a →
        Answers IsLabelled (labelled_more scope.now.source.now (world_of scope.now) of_char a more.now) result }
{
    let mut labelled = first;
    for next in more {
        labelled = with_range(scope, of_char, labelled, &next.range)?;
    }
    Ok(labelled)
}

/// The labels of a part of a CASE on INTEGER or CHAR.
pub fn value_labels<'a>(
    scope: &Scope<'a>,
    alloc: Global,
    of_char: bool,
    taken: LabelRanges,
    first: &Range,
    more: &[NextRange],
) -> Result<Labelled, CheckFault>
    ensures { (ts : List (ℤ × ℤ)) → AreRanges taken ts →
        Answers IsLabelled
        (judged_ranges scope.now.source.now (world_of scope.now) of_char (as_list first.now more.now) ts) result }
{
    let none = Labelled {
        labels: Items::new(alloc),
        taken,
    };
    let labelled = with_range(scope, of_char, none, first)?;
    with_ranges(scope, of_char, labelled, more)
}

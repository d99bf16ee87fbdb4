//! One symbol, and all symbols of a text.

ghost use Rattle.std.specs.Prelude.{◌≡◌, zero, ◌<◌, ◌≤◌, length, drop, slice_index, false, IfOk, IfErr, nat_eq};
ghost use Rattle.ob_scan.specs.Words.{is_letter, is_digit, begins_comment};
ghost use Rattle.ob_scan.specs.Steps.{Found, Refused, IsAdded, IsRefused, Reads, Stops, Past, BreaksAt, rule};
ghost use Rattle.ob_scan.specs.declared.fault.ScanFault.TheVariants.{Fault};
ghost use Rattle.ob_scan.specs.Scans.{Scans, Done, IsFirst};

use crate::blanks::skip;
use crate::classes::{is_digit_byte, is_letter_byte};
use crate::fault::{NoSymbol, ScanFault};
use crate::marks::{mark_of_two, one_byte};
use crate::names::name;
use crate::numbers::number;
use crate::quoted::quoted;
use ob_symbol::{Kind, Symbol};
use std::alloc::Global;

/// The operator or delimiter here, and the place after it.
fn mark(bytes: &[u8], at: usize) -> Result<(Kind, usize), NoSymbol>
    requires inside { at < length bytes.now }
    requires letter { is_letter (slice_index bytes.now at) ≡ false }
    requires digit { is_digit (slice_index bytes.now at) ≡ false }
    requires quote { nat_eq (slice_index bytes.now at) 34 ≡ false }
    ensures found { IfOk result (λ x. Found (drop at bytes.now) (drop x.1 bytes.now) x.0) }
    ensures range { IfOk result (λ x. (at < x.1) × (x.1 ≤ length bytes.now)) }
    ensures refused { IfErr result (λ e. Refused (drop at bytes.now) e) }
{
    match mark_of_two(bytes, at) {
        Some(mark) => Ok((Kind::Mark(mark), at + 2)),
        None => match one_byte(bytes[at]) {
            Some(mark) => Ok((Kind::Mark(mark), at + 1)),
            None => Err(NoSymbol::BadByte),
        },
    }
}

/// The number of the rule that is broken where no symbol stands.
fn rule_of(none: NoSymbol) -> u8
    ensures { result ≡ rule none }
{
    match none {
        NoSymbol::BadByte => 10,
        NoSymbol::OpenComment => 11,
        NoSymbol::OpenString => 12,
        NoSymbol::NumberTooLarge => 13,
        NoSymbol::NameTooLong => 14,
    }
}

/// The fault where no symbol stands at a place.
fn fault(none: NoSymbol, at: usize) -> ScanFault
    requires { at ≤ 1048576 }
    ensures { result ≡ Fault (rule none) at }
{
    ScanFault::Fault {
        number: rule_of(none),
        at: at as u32,
    }
}

/// Appends the symbol that was found from a place on, and gives the place after it.
fn append(
    symbols: &mut Vec<Symbol>,
    found: Result<(Kind, usize), NoSymbol>,
    from: usize,
) -> Result<usize, ScanFault>
    requires from { from ≤ 1048576 }
    requires to { IfOk found (λ x. x.1 ≤ 1048576) }
    ensures added { IfOk result (λ to. IsAdded from symbols.old.items symbols.new.items found to) }
    ensures refused { IfErr result (λ e. IsRefused from found e) }
{
    match found {
        Ok((kind, to)) => {
            symbols.push(Symbol {
                kind,
                from: from as u32,
                to: to as u32,
            })?;
            Ok(to)
        }
        Err(none) => Err(fault(none, from)),
    }
}

/// Appends the longest symbol here, and gives the place after it.
fn read_symbol(symbols: &mut Vec<Symbol>, bytes: &[u8], at: usize) -> Result<usize, ScanFault>
    requires size { length bytes.now ≤ 1048576 }
    requires inside { at < length bytes.now }
    ensures read { IfOk result (λ to. Reads bytes.now at symbols.old.items symbols.new.items to) }
    ensures stops { IfErr result (λ e. Stops bytes.now at e) }
{
    if is_letter_byte(bytes[at]) {
        append(symbols, name(bytes, at), at)
    } else if is_digit_byte(bytes[at]) {
        append(symbols, number(bytes, at), at)
    } else if bytes[at] == b'"' {
        append(symbols, quoted(bytes, at), at)
    } else {
        append(symbols, mark(bytes, at), at)
    }
}

/// The place after the blanks and comments here.
fn after_blanks(bytes: &[u8], at: usize) -> Result<usize, ScanFault>
    requires size { length bytes.now ≤ 1048576 }
    requires inside { at ≤ length bytes.now }
    ensures past { IfOk result (λ i. Past (drop at bytes.now) (drop i bytes.now)) }
    ensures range { IfOk result (λ i. (at ≤ i) × (i ≤ length bytes.now)) }
    ensures comment { IfOk result (λ i. begins_comment (drop i bytes.now) ≡ false) }
    ensures first { IfErr result (λ e. BreaksAt bytes.now at e) }
{
    match skip(bytes, at) {
        Ok(i) => Ok(i),
        Err(opening) => Err(fault(NoSymbol::OpenComment, opening)),
    }
}

/// The symbols of a text of at most 1 MiB, with their places, or the first rule that it breaks.
///
/// `scans_once` says that a text has one scan, so that each answer but want of memory comes exactly where the text has
/// it. Measured, and not proved: the time is proportional to the number of bytes.
pub fn scan(alloc: Global, bytes: &[u8]) -> Result<Vec<Symbol>, ScanFault>
    requires { length bytes.now ≤ 1048576 }
    ensures symbols { IfOk result (λ v. Scans zero bytes.now v.items Done) }
    ensures first { IfErr result (λ e. IsFirst bytes.now e) }
{
    // Room for a symbol in two bytes, which is seldom all needed; what is never written takes no memory.
    let Ok(mut symbols) = Vec::with_capacity(alloc, bytes.len() / 2) else {
        return Err(ScanFault::Memory);
    };
    let mut at = 0;
    'symbols: loop {
        let from = after_blanks(bytes, at)?;
        if from == bytes.len() {
            return Ok(symbols);
        }
        at = read_symbol(&mut symbols, bytes, from)?;
    }
}

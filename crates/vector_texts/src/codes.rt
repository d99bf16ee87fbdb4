//! Operations by their names, and their names.

use block_runs::Code;

/// The operation of a name, with the number that it has, or any where it has none; an unknown one is `Svc(0)`, which fits
/// nowhere.
pub fn code_of(name: &str, number: u64) -> Code {
    let small = u32::try_from(number).unwrap_or(u32::MAX);
    match name {
        "Const" => Code::Const(number),
        "Global" => Code::Global(small),
        "Local" => Code::Local(small),
        "Plus" => Code::Plus(small),
        "Code" => Code::Code(small),
        "Arg" => Code::Arg(small),
        "Set" => Code::Set(u8::try_from(number).unwrap_or(u8::MAX)),
        "IsPtr" => Code::IsPtr(small),
        "IsTag" => Code::IsTag(small),
        "GuardPtr" => Code::GuardPtr(small),
        "GuardTag" => Code::GuardTag(small),
        "Call" => Code::Call(small),
        "Svc" => Code::Svc(u16::try_from(number).unwrap_or(u16::MAX)),
        _ => plain_code(name),
    }
}

/// The operation of a name without a number.
fn plain_code(name: &str) -> Code {
    match name {
        "Load" => Code::Load,
        "Store" => Code::Store,
        "LoadByte" => Code::LoadByte,
        "StoreByte" => Code::StoreByte,
        "Add" => Code::Add,
        "Sub" => Code::Sub,
        "And" => Code::And,
        "Or" => Code::Or,
        "Eor" => Code::Eor,
        "Bic" => Code::Bic,
        "Lsl" => Code::Lsl,
        "Asr" => Code::Asr,
        "Ror" => Code::Ror,
        "Mul" => Code::Mul,
        "MulAdd" => Code::MulAdd,
        "Neg" => Code::Neg,
        "Not" => Code::Not,
        "Abs" => Code::Abs,
        "Max0" => Code::Max0,
        "Odd" => Code::Odd,
        "Flip" => Code::Flip,
        "Bit" => Code::Bit,
        "Span" => Code::Span,
        "Has" => Code::Has,
        "Div" => Code::Div,
        "Mod" => Code::Mod,
        _ => acting_code(name),
    }
}

/// The operation of a name, of those that test, call or make objects.
fn acting_code(name: &str) -> Code {
    match name {
        "Below" => Code::Below,
        "Fits" => Code::Fits,
        "Byte" => Code::Byte,
        "Elem" => Code::Elem,
        "NotNil" => Code::NotNil,
        "True" => Code::True,
        "New" => Code::New,
        "CallAt" => Code::CallAt,
        "Copy" => Code::Copy,
        "Zero" => Code::Zero,
        "Compare" => Code::Compare,
        _ => Code::Svc(0),
    }
}

/// An operation's name, and its number, which is 0 where it has none.
pub fn name_of(code: Code) -> (&'static str, u64) {
    match code {
        Code::Const(number) => ("Const", number),
        Code::Global(bytes) => ("Global", u64::from(bytes)),
        Code::Local(bytes) => ("Local", u64::from(bytes)),
        Code::Plus(number) => ("Plus", u64::from(number)),
        Code::Code(procedure) => ("Code", u64::from(procedure)),
        Code::Arg(word) => ("Arg", u64::from(word)),
        Code::Set(condition) => ("Set", u64::from(condition)),
        Code::IsPtr(level) => ("IsPtr", u64::from(level)),
        Code::IsTag(level) => ("IsTag", u64::from(level)),
        Code::GuardPtr(level) => ("GuardPtr", u64::from(level)),
        Code::GuardTag(level) => ("GuardTag", u64::from(level)),
        Code::Call(procedure) => ("Call", u64::from(procedure)),
        Code::Svc(service) => ("Svc", u64::from(service)),
        plain => (plain_name(plain), 0),
    }
}

/// The name of an operation without a number.
fn plain_name(code: Code) -> &'static str {
    match code {
        Code::Load => "Load",
        Code::Store => "Store",
        Code::LoadByte => "LoadByte",
        Code::StoreByte => "StoreByte",
        Code::Add => "Add",
        Code::Sub => "Sub",
        Code::And => "And",
        Code::Or => "Or",
        Code::Eor => "Eor",
        Code::Bic => "Bic",
        Code::Lsl => "Lsl",
        Code::Asr => "Asr",
        Code::Ror => "Ror",
        Code::Mul => "Mul",
        Code::MulAdd => "MulAdd",
        Code::Neg => "Neg",
        Code::Not => "Not",
        Code::Abs => "Abs",
        Code::Max0 => "Max0",
        Code::Odd => "Odd",
        Code::Flip => "Flip",
        Code::Bit => "Bit",
        Code::Span => "Span",
        Code::Has => "Has",
        Code::Div => "Div",
        Code::Mod => "Mod",
        acting => acting_name(acting),
    }
}

/// The name of an operation that tests, calls or makes objects.
fn acting_name(code: Code) -> &'static str {
    match code {
        Code::Below => "Below",
        Code::Fits => "Fits",
        Code::Byte => "Byte",
        Code::Elem => "Elem",
        Code::NotNil => "NotNil",
        Code::True => "True",
        Code::New => "New",
        Code::CallAt => "CallAt",
        Code::Copy => "Copy",
        Code::Zero => "Zero",
        Code::Compare => "Compare",
        _ => "",
    }
}

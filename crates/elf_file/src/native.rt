//! From an image's code to native words.

ghost use Rattle.std.specs.Prelude.{◌≡◌, ℕ, ◌+◌, ◌*◌, ◌≤◌, ◌<◌, ◌^◌, [], ◌∷◌, ◌++◌, map, length, OnOk, IfOk};
ghost use Rattle.image_form.specs.Form.{IsInForm};
ghost use Rattle.a64_numbers.specs.Moves.{half};
ghost use Rattle.a64_table.specs.Table.{word_of};
ghost use Rattle.elf_file.specs.Runtime.{service_entry, trap_place, runtime};
ghost use Rattle.elf_file.specs.Native.{IsSmall, service_of, stub_service, stubs_of, native_size, stub_place, links_place, runtime_place, constants_place, address, distance, branch, call, frame_register, access_on_frame, on_frame, native_service, native_trap, native_instr, native_word, stub, stub_words, load_number, links, all_native, all_stubs, native_words};

use crate::runtime::runtime_words;
use a64_instr::{Bits, Instr, Reg};
use a64_memory::{DATA_BASE, FRAMES, FRAMES_BASE};
use a64_table::{decode, encode};
use image_form::Image;
use std::alloc::{AllocError, Global};

/// How many code words there are, and how many stubs these want.
#[derive(Clone, Copy)]
pub(crate) struct NativeSize {
    pub(crate) words: u32,
    pub(crate) stubs: u32,
}

// The words of the links and of the runtime.
const LINKS: u32 = 10;

const RUNTIME: u32 = 250;

// The service that an instruction calls, where it wants a stub.
fn stub_service(instr: &Instr) -> Option<u32>
    ensures { result ≡ stub_service instr.now }
{
    match *instr {
        Instr::Svc { imm } => {
            let service = imm.get();
            if 0 < service && service < 5 {
                Some(service)
            } else {
                None
            }
        }
        _ => None,
    }
}

fn service_of(word: u32) -> Option<u32>
    ensures { result ≡ service_of word }
{
    let instr = decode(word)?;
    stub_service(&instr)
}

// How many stubs a code word wants.
fn stubs_of(word: u32) -> u32
    ensures same { result ≡ stubs_of word }
    ensures most { result ≤ 1 }
{
    match service_of(word) {
        Some(_) => 1,
        None => 0,
    }
}

/// The size of code in form.
pub(crate) fn native_size(code: &[u32]) -> NativeSize
    requires { length code.now ≤ 262144 }
    ensures same { result ≡ native_size code.now }
    ensures few { result.stubs ≤ result.words }
{
    let mut stubs = 0;
    for word in code {
        stubs += stubs_of(*word);
    }
    NativeSize {
        words: code.len() as u32,
        stubs,
    }
}

impl NativeSize {
    /// Where the stub with that number stands.
    fn stub_place(self, number: u32) -> u32
        requires size { IsSmall self }
        requires number { number ≤ self.stubs }
        ensures same { result ≡ stub_place self number }
        ensures below { result ≤ 1310720 }
    {
        self.words + 4 * number
    }

    pub(crate) fn links_place(self) -> u32
        requires { IsSmall self }
        ensures same { result ≡ links_place self }
        ensures below { result ≤ 1310720 }
    {
        self.stub_place(self.stubs)
    }

    fn runtime_place(self) -> u32
        requires { IsSmall self }
        ensures same { result ≡ runtime_place self }
        ensures below { result ≤ 1310730 }
    {
        self.links_place() + LINKS
    }

    /// Where the constants stand, by the words before them.
    pub(crate) fn constants_place(self) -> u32
        requires { IsSmall self }
        ensures same { result ≡ constants_place self }
        ensures below { result ≤ 1310980 }
    {
        self.runtime_place() + RUNTIME
    }
}

/// The address of a word.
pub(crate) fn address(place: u32) -> u32
    requires { place < 2 ^ 21 }
    ensures { result ≡ address place }
{
    0x10000 + 4 * place
}

// The field of a branch from a word to a word.
fn distance(from: u32, to: u32) -> Bits<26>
    requires from { from < 2 ^ 21 }
    requires to { to < 2 ^ 21 }
    ensures { result ≡ distance from to }
{
    if from <= to {
        Bits::new(to - from)
    } else {
        Bits::new((1 << 26) - (from - to))
    }
}

fn branch(from: u32, to: u32) -> Instr
    requires from { from < 2 ^ 21 }
    requires to { to < 2 ^ 21 }
    ensures { result ≡ branch from to }
{
    Instr::B {
        to: distance(from, to),
    }
}

// A branch that leaves the address behind it in X30.
fn call(from: u32, to: u32) -> Instr
    requires from { from < 2 ^ 21 }
    requires to { to < 2 ^ 21 }
    ensures { result ≡ call from to }
{
    Instr::Bl {
        to: distance(from, to),
    }
}

// Where the words of a service begin in the runtime: 0 the end, then 1 to 4.
fn service_entry(service: u32) -> u32
    ensures same { result ≡ service_entry service }
    ensures below { result < 250 }
{
    match service {
        0 => 163,
        1 => 48,
        2 => 52,
        3 => 56,
        _ => 80,
    }
}

// Where those of a trap's kind begin.
fn trap_place(kind: u32) -> u32
    requires { kind < 16 }
    ensures { result ≡ trap_place kind }
{
    168 + 2 * kind
}

// X28 for SP, where 31 is SP.
fn frame_register(register: Reg) -> Reg
    ensures { result ≡ frame_register register }
{
    if register.get() == 31 {
        Bits::new(28)
    } else {
        register
    }
}

// The same load or store with X28 for SP; what is neither stays.
fn access_on_frame(instr: Instr) -> Instr
    ensures { result ≡ access_on_frame instr }
{
    match instr {
        Instr::Ldr { rt, rn, imm } => Instr::Ldr {
            rt,
            rn: frame_register(rn),
            imm,
        },
        Instr::Str { rt, rn, imm } => Instr::Str {
            rt,
            rn: frame_register(rn),
            imm,
        },
        Instr::Ldrb { rt, rn, imm } => Instr::Ldrb {
            rt,
            rn: frame_register(rn),
            imm,
        },
        Instr::Strb { rt, rn, imm } => Instr::Strb {
            rt,
            rn: frame_register(rn),
            imm,
        },
        Instr::LdrReg { rt, rn, rm } => Instr::LdrReg {
            rt,
            rn: frame_register(rn),
            rm,
        },
        Instr::LdrRegScaled { rt, rn, rm } => Instr::LdrRegScaled {
            rt,
            rn: frame_register(rn),
            rm,
        },
        Instr::StrReg { rt, rn, rm } => Instr::StrReg {
            rt,
            rn: frame_register(rn),
            rm,
        },
        Instr::StrRegScaled { rt, rn, rm } => Instr::StrRegScaled {
            rt,
            rn: frame_register(rn),
            rm,
        },
        Instr::LdrbReg { rt, rn, rm } => Instr::LdrbReg {
            rt,
            rn: frame_register(rn),
            rm,
        },
        Instr::StrbReg { rt, rn, rm } => Instr::StrbReg {
            rt,
            rn: frame_register(rn),
            rm,
        },
        other => other,
    }
}

// The same instruction with X28 for SP.
fn on_frame(instr: Instr) -> Instr
    ensures { result ≡ on_frame instr }
{
    match instr {
        Instr::AddImm { rd, rn, imm, high } => Instr::AddImm {
            rd: frame_register(rd),
            rn: frame_register(rn),
            imm,
            high,
        },
        Instr::SubImm { rd, rn, imm, high } => Instr::SubImm {
            rd: frame_register(rd),
            rn: frame_register(rn),
            imm,
            high,
        },
        Instr::SubsImm { rd, rn, imm, high } => Instr::SubsImm {
            rd,
            rn: frame_register(rn),
            imm,
            high,
        },
        other => access_on_frame(other),
    }
}

// A call of a service at a place, with so many stubs before its own.
fn native_service(size: NativeSize, place: u32, before: u32, imm: Bits<16>) -> Instr
    requires size { IsSmall size }
    requires place { place < size.words }
    requires before { before ≤ size.stubs }
    ensures { result ≡ native_service size place before imm }
{
    let service = imm.get();
    if service == 0 {
        branch(place, size.runtime_place() + service_entry(service))
    } else if service < 5 {
        branch(place, size.stub_place(before))
    } else {
        Instr::Svc { imm }
    }
}

// A trap at a place.
fn native_trap(size: NativeSize, place: u32, imm: Bits<16>) -> Instr
    requires size { IsSmall size }
    requires place { place < size.words }
    ensures { result ≡ native_trap size place imm }
{
    let kind = imm.get();
    if kind < 16 {
        call(place, size.runtime_place() + trap_place(kind))
    } else {
        Instr::Brk { imm }
    }
}

fn native_instr(size: NativeSize, place: u32, before: u32, instr: Instr) -> Instr
    requires size { IsSmall size }
    requires place { place < size.words }
    requires before { before ≤ size.stubs }
    ensures { result ≡ native_instr size place before instr }
{
    match instr {
        Instr::Svc { imm } => native_service(size, place, before, imm),
        Instr::Brk { imm } => native_trap(size, place, imm),
        other => on_frame(other),
    }
}

// The native word of a code word at a place, with so many stubs before its own.
fn native_word(size: NativeSize, place: u32, before: u32, word: u32) -> u32
    requires size { IsSmall size }
    requires place { place < size.words }
    requires before { before ≤ size.stubs }
    ensures { result ≡ native_word size place before word }
{
    match decode(word) {
        Some(instr) => encode(&native_instr(size, place, before, instr)),
        None => word,
    }
}

// The stub with a number, of the service that the word at a place calls.
fn stub(size: NativeSize, place: u32, number: u32, service: u32) -> [Instr; 4]
    requires size { IsSmall size }
    requires place { place < size.words }
    requires number { number ≤ size.stubs }
    ensures { result ≡ stub size place number service }
{
    let at = size.stub_place(number);
    let entry = size.runtime_place() + service_entry(service);
    [
        Instr::Str {
            rt: Bits::new(30),
            rn: Bits::new(31),
            imm: Bits::new(0),
        },
        call(at + 1, entry),
        Instr::Ldr {
            rt: Bits::new(30),
            rn: Bits::new(31),
            imm: Bits::new(0),
        },
        branch(at + 3, place + 1),
    ]
}

// A register becomes a number.
fn load_number(register: Reg, n: u32) -> [Instr; 2]
    ensures { result ≡ load_number register n }
{
    [
        Instr::Movz {
            rd: register,
            imm: Bits::new(n & 0xffff),
            half: Bits::new(0),
        },
        Instr::Movk {
            rd: register,
            imm: Bits::new(n >> 16),
            half: Bits::new(1),
        },
    ]
}

// Appends the words of instructions.
fn push_instrs(words: &mut Vec<u32>, instrs: &[Instr]) -> Result<(), AllocError>
    ensures { OnOk result (words.new.items ≡ words.old.items ++ map word_of instrs.now) }
{
    for instr in instrs {
        words.push(encode(instr))?;
    }
    Ok(())
}

// Appends the native word of each code word.
fn push_native(words: &mut Vec<u32>, size: NativeSize, code: &[u32]) -> Result<(), AllocError>
    requires size { IsSmall size }
    requires of { size ≡ native_size code.now }
    ensures { OnOk result (words.new.items ≡ words.old.items ++ all_native size code.now) }
{
    let mut before = 0;
    for (place, word) in code.iter().enumerate() {
        words.push(native_word(size, place as u32, before, *word))?;
        before += stubs_of(*word);
    }
    Ok(())
}

// Appends the stub that a code word wants.
fn push_stub(
    words: &mut Vec<u32>,
    size: NativeSize,
    place: u32,
    before: u32,
    word: u32,
) -> Result<(), AllocError>
    requires size { IsSmall size }
    requires place { place < size.words }
    requires before { before ≤ size.stubs }
    ensures { OnOk result (words.new.items ≡ words.old.items ++ stub_words size place before word) }
{
    match service_of(word) {
        Some(service) => push_instrs(words, &stub(size, place, before, service)),
        None => Ok(()),
    }
}

// Appends all stubs.
fn push_stubs(words: &mut Vec<u32>, size: NativeSize, code: &[u32]) -> Result<(), AllocError>
    requires size { IsSmall size }
    requires of { size ≡ native_size code.now }
    ensures { OnOk result (words.new.items ≡ words.old.items ++ all_stubs size code.now) }
{
    let mut before = 0;
    for (place, word) in code.iter().enumerate() {
        push_stub(words, size, place as u32, before, *word)?;
        before += stubs_of(*word);
    }
    Ok(())
}

// Appends the words of the links.
fn push_links(words: &mut Vec<u32>, size: NativeSize, image: &Image) -> Result<(), AllocError>
    requires size { IsSmall size }
    requires form { IsInForm image.now }
    ensures { OnOk result (words.new.items ≡ words.old.items ++ map word_of (links size image.now)) }
{
    let constants = image.constants.as_slice().len() as u32;
    push_instrs(words, &[branch(size.links_place(), 0)])?;
    push_instrs(
        words,
        &load_number(Bits::new(0), address(size.constants_place())),
    )?;
    push_instrs(
        words,
        &load_number(Bits::new(1), DATA_BASE as u32 + image.globals),
    )?;
    push_instrs(words, &load_number(Bits::new(2), constants))?;
    push_instrs(
        words,
        &load_number(
            Bits::new(28),
            FRAMES_BASE as u32 + FRAMES as u32 * image.frame,
        ),
    )?;
    push_instrs(
        words,
        &[Instr::Movz {
            rd: Bits::new(9),
            imm: Bits::new(image.flags),
            half: Bits::new(0),
        }],
    )
}

/// The words of the program of an image in form.
pub(crate) fn native_words(
    alloc: Global,
    size: NativeSize,
    image: &Image,
) -> Result<Vec<u32>, AllocError>
    requires form { IsInForm image.now }
    requires size { IsSmall size }
    requires of { size ≡ native_size image.now.code }
    ensures { IfOk result (λ words. words.items ≡ native_words image.now) }
{
    let code = image.code.as_slice();
    let mut words = Vec::with_capacity(alloc, size.constants_place() as usize)?;
    push_native(&mut words, size, code)?;
    push_stubs(&mut words, size, code)?;
    push_links(&mut words, size, image)?;
    words.extend_from_slice(runtime_words())?;
    Ok(words)
}

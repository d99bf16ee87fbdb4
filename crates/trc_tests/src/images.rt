//! What `exec` does with images made by hand, and images and native programs that `build` and `elf` write, in rows. Expected values
//! come from the forms of both and from an independent compiler.

ghost use Rattle.std.specs.Prelude.{◌≤◌, length};

use crate::calls::{Wanted, answer, call, done, holds, refused, wants};
use std::alloc::{AllocError, AllocGlobal, Global};
use std::process::Abort;
use std::sync::Wait;
use std::test::Fail;
use std::thread::Threads;
use trc_base::{Files, MemFiles, MemSource};

/// The bytes of an image without constants: the numbers of its header, its code words, and the numbers of its places.
fn image_file(
    alloc: Global,
    header: &[u32],
    words: &[u32],
    places: &[u32],
) -> Result<Vec<u8>, AllocError> {
    let mut bytes = Vec::from_slice(alloc, b"TRC64IMG")?;
    for numbers in [header, words, places] {
        for number in numbers {
            bytes.extend_from_slice(&number.to_le_bytes())?;
        }
    }
    Ok(bytes)
}

/// Files with an image of these code words; it reads the input where the flag says so.
fn with_words<R: AllocGlobal>(rt: &R, flags: u32, words: &[u32]) -> Result<MemFiles, Fail>
    requires { length words.now ≤ 262144 }
{
    let header = [1, flags, words.len() as u32, 0, 0, 0];
    let bytes = image_file(rt.alloc(), &header, words, &[])?;
    let mut files = MemFiles::new(rt.alloc(), Vec::new(rt.alloc()));
    files.put("A", bytes.as_slice())?;
    Ok(files)
}

/// Images of one code word: the word, the status and the line that `exec` comes to.
const WORDS_ALONE: [(u32, u8, &str); 5] = [
    (0x00000000, 9, "trc: undefined word 00000000\n"),
    (0xD4000121, 9, "trc: bad call 9\n"),
    (0xF9400020, 9, "trc: bad address 0000000000000000\n"),
    (0xD4200160, 6, "trc: trap 11\n"),
    (0xD4000001, 0, ""),
];

#[test]
fn images_stop_where_they_must(rt: HostRuntime) -> Result<(), Fail> {
    for (word, status, line) in WORDS_ALONE {
        let mut files = with_words(&rt, 0, &[word])?;
        wants(&rt, &["exec", "A"], &mut files, b"", refused(status, line))?;
    }
    Ok(())
}

/// Executes the image in the file A over this input, which ends with this status and line.
fn reads_so<R: Threads + Wait + AllocGlobal + Sync>(
    rt: &R,
    files: &mut MemFiles,
    mut input: MemSource,
    status: u8,
    line: &str,
) -> Result<(), Fail> {
    let none = Vec::new(rt.alloc());
    let seen = call(rt, &["exec", "A"], files, &mut input, 10, none)?;
    if seen.outcome.status == status && seen.err.as_slice() == line.as_bytes() {
        return Ok(());
    }
    Err(Fail::new(line))
}

#[test]
fn the_input_is_read_where_the_flag_says_so(rt: HostRuntime) -> Result<(), Fail> {
    // The next byte of the input goes to X0 and out, and the machine ends.
    let words = [0xD4000081, 0xD4000021, 0xD4000001];
    let mut files = with_words(&rt, 1, &words)?;
    wants(&rt, &["exec", "A"], &mut files, b"ab", done("a"))?;
    for (length, status, line) in [(1_048_577, 3, "trc: input too long\n"), (1_048_576, 0, "")] {
        let bytes = vec![in rt.alloc(); b'a'; length]?;
        let input = MemSource::new(bytes, 100_000, Vec::new(rt.alloc()));
        reads_so(&rt, &mut files, input, status, line)?;
    }
    let failing = MemSource::new(Vec::new(rt.alloc()), 1, vec![in rt.alloc(); 0u64]?);
    reads_so(&rt, &mut files, failing, 4, "trc: read fault on input\n")
}

/// The code words of `MODULE M; IMPORT Out; BEGIN Out.Int(6*7, 0); Out.Ln END M.` by the other compiler.
const WORDS: [u32; 64] = [
    0x94000028, 0xD4000001, 0xD2800003, 0x91002064, 0xEB02009F, 0x540000A8, 0xF8636825, 0xF8236805,
    0xAA0403E3, 0x17FFFFFA, 0xEB02007F, 0x540000A2, 0x38636825, 0x38236805, 0x91000463, 0x17FFFFFB,
    0xD65F03C0, 0xD2800003, 0xEB01007F, 0x54000082, 0xF823681F, 0x91002063, 0x17FFFFFC, 0xD65F03C0,
    0xD2800004, 0xD2800005, 0xD2800006, 0xEB01009F, 0x54000042, 0x38646805, 0xEB03009F, 0x54000042,
    0x38646846, 0xEB0600BF, 0x54000081, 0xB4000065, 0x91000484, 0x17FFFFF4, 0xCB0600A0, 0xD65F03C0,
    0xD14003FF, 0xD100C3FF, 0xF90003FE, 0xD28000C0, 0xF90007E0, 0xD28000E0, 0xF9000BE0, 0xF94007E0,
    0xF9400BE1, 0x9B017C00, 0xF9000FE0, 0xD2800000, 0xF90013E0, 0xF9400FE0, 0xF94013E1, 0xD4000041,
    0xD2800140, 0xF90017E0, 0xF94017E0, 0xD4000021, 0xF94003FE, 0x914003FF, 0x9100C3FF, 0xD65F03C0,
];

/// The file of that image.
fn second_image(alloc: Global) -> Result<Vec<u8>, AllocError> {
    image_file(
        alloc,
        &[2, 0, 64, 8, 0, 48, 1],
        WORDS.as_slice(),
        &[40, 0, 1],
    )
}

/// The file of that image in version 1.
fn first_image(alloc: Global) -> Result<Vec<u8>, AllocError> {
    image_file(alloc, &[1, 0, 64, 8, 0, 48], WORDS.as_slice(), &[])
}

#[test]
fn an_image_has_so_many_words_and_steps(rt: HostRuntime) -> Result<(), Fail> {
    let mut files = answer(&rt, Vec::new(rt.alloc()))?;
    let plain = ["build", "A", "M.Mod", "--policy", "plain"];
    wants(&rt, &plain, &mut files, b"", done(""))?;
    let bytes = second_image(rt.alloc())?;
    holds(&rt, &mut files, "A", &bytes)?;
    for (steps, status, err) in [("26", 0, ""), ("25", 7, "trc: steps spent\n")] {
        let wanted = Wanted {
            status,
            out: "42\n",
            err,
        };
        let words = ["exec", "A", "--steps", steps];
        wants(&rt, &words, &mut files, b"", wanted)?;
    }
    Ok(())
}

/// The sum of bytes by which another program's files are named.
fn sum_of(bytes: &[u8]) -> u64 {
    let mut sum: u64 = 0xCBF2_9CE4_8422_2325;
    for byte in bytes {
        sum = (sum ^ u64::from(*byte)).wrapping_mul(0x0000_0100_0000_01B3);
    }
    sum
}

/// Calls of `elf` for the module that prints 42: their words, and the length and the sum of the program.
const NATIVE: [(&[&str], usize, u64); 2] = [
    (&["elf", "N", "M.Mod"], 66_824, 0xAD9E_163C_E725_9D0C),
    (
        &["elf", "N", "M.Mod", "--policy", "plain"],
        66_864,
        0x519E_4DD9_6A76_2464,
    ),
];

#[test]
fn native_programs_are_written(rt: HostRuntime) -> Result<(), Fail> {
    let mut files = answer(&rt, Vec::new(rt.alloc()))?;
    for (words, length, sum) in NATIVE {
        wants(&rt, words, &mut files, b"", done(""))?;
        let native = files.read(rt.alloc(), "N", 100_000)?;
        assert_eq!(rt; native.len(), length);
        assert_eq!(rt; sum_of(&native), sum);
    }
    Ok(())
}

/// Calls of `elf` that are refused, and leave no file O.
const NOT_NATIVE: [(&[&str], u8, &str); 4] = [
    (&["elf", "O", "M.Mod", "--from", "O"], 1, "trc: usage\n"),
    (&["elf", "O"], 1, "trc: usage\n"),
    (
        &["elf", "O", "Missing.Mod"],
        4,
        "trc: no file Missing.Mod\n",
    ),
    (&["exec", "O"], 4, "trc: no file O\n"),
];

#[test]
fn no_native_program_is_written(rt: HostRuntime) -> Result<(), Fail> {
    let mut files = answer(&rt, Vec::new(rt.alloc()))?;
    for (words, status, line) in NOT_NATIVE {
        wants(&rt, words, &mut files, b"", refused(status, line))?;
    }
    let mut failing = answer(&rt, vec![in rt.alloc(); 1u64]?)?;
    let fault = refused(4, "trc: write fault on files\n");
    wants(&rt, &["elf", "N", "M.Mod"], &mut failing, b"", fault)
}

/// Builds the module anew from the image in the file E, and looks at how the call ended and at what the file O holds.
fn builds_anew<R: Threads + Wait + AllocGlobal + Sync>(
    rt: &R,
    from: &[u8],
    wanted: Wanted<'_>,
) -> Result<(), Fail> {
    let mut files = answer(rt, Vec::new(rt.alloc()))?;
    files.put("E", from)?;
    files.put("O", b"before")?;
    let plain = ["build", "O", "M.Mod", "--policy", "plain", "--from", "E"];
    wants(rt, &plain, &mut files, b"", wanted)?;
    if wanted.status != 0 {
        return holds(rt, &mut files, "O", b"before");
    }
    let second = second_image(rt.alloc())?;
    holds(rt, &mut files, "O", &second)
}

#[test]
fn images_of_version_1_are_built_anew(rt: HostRuntime) -> Result<(), Fail> {
    let first = first_image(rt.alloc())?;
    builds_anew(&rt, &first, done(""))?;
    let second = second_image(rt.alloc())?;
    let other = refused(8, "trc: other image at 8\n");
    builds_anew(&rt, &second, other)?;
    let last = refused(8, "trc: other image at 287\n");
    builds_anew(&rt, &first[..first.len().saturating_sub(1)], last)?;
    let mut longer = Vec::from_slice(rt.alloc(), &first)?;
    longer.push(0)?;
    let length = refused(8, "trc: other image at 288\n");
    builds_anew(&rt, &longer, length)?;
    let mut changed = Vec::from_slice(rt.alloc(), &first)?;
    if let Some(byte) = changed.get_mut(287) {
        *byte = 0;
    }
    builds_anew(&rt, &changed, last)?;
    builds_anew(&rt, b"", refused(8, "trc: other image at 0\n"))
}

#[test]
fn an_image_is_built_anew_in_its_place(rt: HostRuntime) -> Result<(), Fail> {
    let mut files = answer(&rt, Vec::new(rt.alloc()))?;
    let first = first_image(rt.alloc())?;
    files.put("E", &first)?;
    let plain = ["build", "E", "M.Mod", "--policy", "plain", "--from", "E"];
    wants(&rt, &plain, &mut files, b"", done(""))?;
    let second = second_image(rt.alloc())?;
    holds(&rt, &mut files, "E", &second)?;
    let other = refused(8, "trc: other image at 8\n");
    wants(&rt, &plain, &mut files, b"", other)?;
    let missing = refused(4, "trc: no file F\n");
    let lacking = ["build", "O", "M.Mod", "--from", "F"];
    wants(&rt, &lacking, &mut files, b"", missing)
}

// The image is read before the modules are compiled.
#[test]
fn a_long_image_is_told_before_a_fault(rt: HostRuntime) -> Result<(), Fail> {
    let mut files = MemFiles::new(rt.alloc(), Vec::new(rt.alloc()));
    files.put("M.Mod", b"MODULE M; BEGIN x END M.")?;
    files.put("E", &vec![in rt.alloc(); 0u8; 16_777_216]?)?;
    let words = ["build", "O", "M.Mod", "--from", "E"];
    let unknown = refused(2, "trc: M.Mod:1:17: error 30 Unknown\n");
    wants(&rt, &words, &mut files, b"", unknown)?;
    files.put("E", &vec![in rt.alloc(); 0u8; 16_777_217]?)?;
    let long = refused(8, "trc: not an image: 65 at 16777216\n");
    wants(&rt, &words, &mut files, b"", long)?;
    wants(&rt, &["exec", "E"], &mut files, b"", long)
}

//! Whole batches over devices in memory: what lists come to, and jobs of every kind with real threads.

use batch_jobs::image_words::{Builder, Choice, Policy};
use batch_jobs::{JobReply, JobRunner, batch, read_jobs};
use batch_list::read_list;
use batch_serve::serve;
use memory_devices::{MeetGate, MemFiles, MemSink};
use outside::{Files, Gate, OpenGate};
use std::alloc::{AllocGlobal, Global};
use std::process::Abort;
use std::sync::Wait;
use std::test::*;
use std::thread::Threads;
use trc_answers::Cause;

const CHOICE: Choice = Choice {
    policy: Policy::Linear,
    builder: Builder::Bi,
    regs: 16,
    jobs: 2,
};

const STEPS: u64 = 10_000_000;

/// How a batch ended, and what the output took.
#[derive(Drop)]
struct Seen {
    ended: Cause,
    out: Vec<u8>,
}

// Files with the modules of the worked rows, and the list.
fn files_with(alloc: Global, list: &[u8]) -> Result<MemFiles, Fail> {
    let mut files = MemFiles::new(alloc, Vec::new(alloc));
    files.put(
        "A.Mod",
        b"MODULE A; PROCEDURE Twice*(x: INTEGER): INTEGER; BEGIN RETURN 2*x END Twice; END A.",
    )?;
    files.put(
        "B.Mod",
        b"MODULE B; IMPORT A, Out; BEGIN Out.Int(A.Twice(21), 0); Out.Ln END B.",
    )?;
    files.put(
        "M.Mod",
        b"MODULE M; IMPORT Out; BEGIN Out.Int(42, 0); Out.Ln END M.",
    )?;
    files.put("LIST", list)?;
    Ok(files)
}

// Answers the list of these files, with room for so many bytes on the output.
fn answered<R: Threads + Wait + AllocGlobal + Sync, G: Gate>(
    rt: &R,
    files: &mut MemFiles,
    room: usize,
    gate: &G,
) -> Result<Seen, Fail> {
    let mut sink = MemSink::new(rt.alloc(), room, 4096, Vec::new(rt.alloc()))?;
    let ended = batch(rt, "LIST", &CHOICE, STEPS, files, &mut sink, gate);
    let out = Vec::from_slice(rt.alloc(), sink.bytes())?;
    Ok(Seen { ended, out })
}

// Compares what a list prints, over the modules of the worked rows.
fn prints<R: Threads + Wait + AllocGlobal + Sync + Abort>(
    rt: &R,
    list: &[u8],
    wanted: &[u8],
) -> Result<(), Fail> {
    let mut files = files_with(rt.alloc(), list)?;
    let seen = answered(rt, &mut files, 1000, &OpenGate)?;
    assert!(rt; matches!(seen.ended, Cause::Done));
    assert_eq!(rt; seen.out.as_slice(), wanted);
    Ok(())
}

#[test]
fn worked_rows(rt: HostRuntime) -> Result<(), Fail> {
    prints(
        &rt,
        b"0 A.Mod B.Mod\n1 M.Mod\n0 Missing.Mod\n",
        b"0 0 0 3\n42\n0 1 4 0\n1 0 0 3\n42\n",
    )?;
    prints(&rt, b"", b"")?;
    prints(
        &rt,
        b"1 B.Mod\n1 B.Mod A.Mod\n1 A.Mod\n",
        b"1 0 2 0\n1 1 2 0\n1 2 0 0\n",
    )?;
    prints(&rt, b"0 \xff\n", b"0 0 4 0\n")
}

#[test]
fn bad_lists(rt: HostRuntime) -> Result<(), Fail> {
    for (list, line) in [
        (b"2 M.Mod\n".as_slice(), 1),
        (b"0 M.Mod\n1 M.Mod".as_slice(), 2),
        (b"0 M.Mod\n0  M.Mod\n".as_slice(), 2),
    ] {
        let mut files = files_with(rt.alloc(), list)?;
        let seen = answered(&rt, &mut files, 1000, &OpenGate)?;
        match seen.ended {
            Cause::BadLine { line: bad } => assert_eq!(rt; bad, line),
            _ => assert!(rt; false, "read"),
        }
        assert_eq!(rt; seen.out.len(), 0);
    }
    Ok(())
}

// The limit that a list passes.
fn limit_of(ended: Cause) -> u8 {
    match ended {
        Cause::Limit { number, .. } => number,
        _ => 0,
    }
}

#[test]
fn limits(rt: HostRuntime) -> Result<(), Fail> {
    let mut list = Vec::new(rt.alloc());
    for _ in 0..1025 {
        list.extend_from_slice(b"0 M.Mod\n")?;
    }
    let mut files = files_with(rt.alloc(), list.as_slice())?;
    let seen = answered(&rt, &mut files, 1000, &OpenGate)?;
    assert_eq!(rt; limit_of(seen.ended), 69);
    assert_eq!(rt; seen.out.len(), 0);
    list.resize(1048577, b'0')?;
    let mut files = files_with(rt.alloc(), list.as_slice())?;
    let seen = answered(&rt, &mut files, 1000, &OpenGate)?;
    assert_eq!(rt; limit_of(seen.ended), 55);
    Ok(())
}

// A list of lines that name a file so often each.
fn naming(alloc: Global, lines: u32, names: u32) -> Result<Vec<u8>, Fail> {
    let mut list = Vec::new(alloc);
    for _ in 0..lines {
        list.push(b'1')?;
        for _ in 0..names {
            list.extend_from_slice(b" Large")?;
        }
        list.push(b'\n')?;
    }
    Ok(list)
}

#[test]
fn sources_in_sum(rt: HostRuntime) -> Result<(), Fail> {
    let large = vec![in rt.alloc(); b' '; 1048576]?;
    let larger = vec![in rt.alloc(); b' '; 1048577]?;
    let mut list = naming(rt.alloc(), 1, 64)?;
    let mut files = files_with(rt.alloc(), list.as_slice())?;
    files.put("Large", large.as_slice())?;
    let seen = answered(&rt, &mut files, 1000, &OpenGate)?;
    assert!(rt; matches!(seen.ended, Cause::Done));
    assert_eq!(rt; seen.out.as_slice(), b"1 0 2 0\n".as_slice());
    list.extend_from_slice(b"0 M.Mod\n")?;
    files.put("LIST", list.as_slice())?;
    let seen = answered(&rt, &mut files, 1000, &OpenGate)?;
    assert_eq!(rt; limit_of(seen.ended), 70);
    assert_eq!(rt; seen.out.len(), 0);
    let list = naming(rt.alloc(), 2, 65)?;
    files.put("LIST", list.as_slice())?;
    files.put("Large", larger.as_slice())?;
    let seen = answered(&rt, &mut files, 1000, &OpenGate)?;
    assert_eq!(rt; seen.out.as_slice(), b"1 0 3 0\n1 1 3 0\n".as_slice());
    let list = naming(rt.alloc(), 1, 1)?;
    files.put("LIST", list.as_slice())?;
    let seen = answered(&rt, &mut files, 1000, &OpenGate)?;
    assert_eq!(rt; seen.out.as_slice(), b"1 0 3 0\n".as_slice());
    Ok(())
}

#[test]
fn long_outputs_and_runs(rt: HostRuntime) -> Result<(), Fail> {
    let mut files = files_with(
        rt.alloc(),
        b"0 Long.Mod\n1 M.Mod\n0 Full.Mod\n1 Endless.Mod\n0 M.Mod\n",
    )?;
    files.put(
        "Long.Mod",
        b"MODULE Long; IMPORT Out; VAR i: INTEGER; BEGIN FOR i := 1 TO 65537 DO Out.Ln END END Long.",
    )?;
    files.put(
        "Full.Mod",
        b"MODULE Full; IMPORT Out; VAR i: INTEGER; BEGIN FOR i := 1 TO 65536 DO Out.Ln END END Full.",
    )?;
    files.put(
        "Endless.Mod",
        b"MODULE Endless; IMPORT Out; BEGIN Out.Int(7, 0); WHILE TRUE DO END END Endless.",
    )?;
    let seen = answered(&rt, &mut files, 200_000, &OpenGate)?;
    assert!(rt; matches!(seen.ended, Cause::Done));
    let mut wanted = Vec::new(rt.alloc());
    for head in [b"0 0 3 65536\n".as_slice(), b"0 1 0 65536\n".as_slice()] {
        wanted.extend_from_slice(head)?;
        for _ in 0..65536 {
            wanted.push(b'\n')?;
        }
    }
    wanted.extend_from_slice(b"0 2 0 3\n42\n1 0 0 3\n42\n1 1 7 1\n7")?;
    assert!(rt; seen.out.as_slice() == wanted.as_slice());
    Ok(())
}

#[test]
fn both_submitters_are_at_work(rt: HostRuntime) -> Result<(), Fail> {
    let gate = MeetGate::new(1000000);
    let mut files = files_with(rt.alloc(), b"0 M.Mod\n1 M.Mod\n")?;
    let seen = answered(&rt, &mut files, 1000, &gate)?;
    assert!(rt; gate.met());
    assert_eq!(rt;
        seen.out.as_slice(),
        b"0 0 0 3\n42\n1 0 0 3\n42\n".as_slice()
    );
    Ok(())
}

/// What is wanted of a made job.
#[derive(Clone, Copy, PartialEq, Eq, Debug)]
struct Wanted {
    status: u8,
    number: Option<u32>,
}

// The module of a made job, and what is wanted of it. There are six kinds.
fn made(alloc: Global, job: u32) -> Result<(String, Wanted), Fail> {
    let text = match job % 6 {
        0 => format!(in alloc; "MODULE J; IMPORT Out; BEGIN Out.Int({job} * 3, 0) END J.")?,
        1 => format!(in alloc;
            "MODULE J; IMPORT Out; VAR i, s: INTEGER; BEGIN FOR i := 1 TO {job} DO INC(s, i) END; Out.Int(s, 0) END J."
        )?,
        2 => format!(in alloc;
            "MODULE J; IMPORT Out; PROCEDURE P(n: INTEGER): INTEGER; VAR r: INTEGER; BEGIN r := 0; IF n > 0 THEN r := P(n - 1) + 2 END; RETURN r END P; BEGIN Out.Int(P({job}), 0) END J."
        )?,
        3 => format!(in alloc;
            "MODULE J; IMPORT Out; BEGIN Out.Int({job}, 0); ASSERT(FALSE) END J."
        )?,
        4 => format!(in alloc; "MODULE J; IMPORT Out; BEGIN Out.Int({job}, 0) END K.")?,
        _ => format!(in alloc;
            "MODULE J; IMPORT Out; BEGIN Out.Int({job}, 0); REPEAT UNTIL FALSE END J."
        )?,
    };
    let job = job % 1000;
    let (status, number) = match job % 6 {
        0 => (0, Some(job * 3)),
        1 => (0, Some(job * (job + 1) / 2)),
        2 => (0, Some(job * 2)),
        3 => (6, Some(job)),
        4 => (2, None),
        _ => (7, Some(job)),
    };
    Ok((text, Wanted { status, number }))
}

// What a reply says.
fn told(status: u8, written: &[u8]) -> Wanted {
    let number = match str::from_utf8(written) {
        Ok(text) => text.parse::<u32>().ok(),
        Err(_) => None,
    };
    Wanted { status, number }
}

// Files with 48 made jobs, and their list.
fn made_files(alloc: Global) -> Result<MemFiles, Fail> {
    let mut files = MemFiles::new(alloc, Vec::new(alloc));
    let mut list = Vec::new(alloc);
    for job in 0..48 {
        let (text, _) = made(alloc, job)?;
        let name = format!(in alloc; "J{job}")?;
        files.put(name.as_str(), text.as_bytes())?;
        let sender = u32::from(job % 5 > 2);
        let line = format!(in alloc; "{sender} J{job}\n")?;
        list.extend_from_slice(line.as_bytes())?;
    }
    files.put("LIST", list.as_slice())?;
    Ok(files)
}

// Compares the replies to the made jobs.
fn are_as_wanted<R: AllocGlobal + Abort>(
    rt: &R,
    first: &[JobReply],
    second: &[JobReply],
) -> Result<(), Fail> {
    let mut first = first.iter();
    let mut second = second.iter();
    for job in 0..48 {
        let (_, wanted) = made(rt.alloc(), job)?;
        let reply = if job % 5 > 2 {
            second.next()
        } else {
            first.next()
        };
        match reply {
            Some(reply) => {
                assert_eq!(rt; told(reply.status, reply.written.as_slice()), wanted);
            }
            None => assert!(rt; false, "a reply is missing"),
        }
    }
    Ok(())
}

// Has the made jobs answered, through a queue with this room.
fn made_are_answered<R: Threads + Wait + AllocGlobal + Sync + Abort>(
    rt: &R,
    room: usize,
) -> Result<(), Fail> {
    assert!(rt; 1 <= room && room <= 64);
    let mut files = made_files(rt.alloc())?;
    let Ok(list) = files.read(rt.alloc(), "LIST", 1_048_576) else {
        assert!(rt; false, "read");
        return Ok(());
    };
    let lines = read_list(rt.alloc(), list.as_slice())?;
    let Ok(jobs) = read_jobs(rt.alloc(), lines.as_slice(), &mut files) else {
        assert!(rt; false, "read");
        return Ok(());
    };
    let runner = JobRunner {
        choice: CHOICE,
        steps: 20_000,
    };
    assert!(rt; jobs.first.len() <= 1024 && jobs.second.len() <= 1024);
    let (first, second) = serve(
        rt,
        rt.alloc(),
        &runner,
        &OpenGate,
        jobs.first,
        jobs.second,
        room,
    )?;
    are_as_wanted(rt, first.as_slice(), second.as_slice())
}

// Each room ten times.
#[test]
fn jobs_of_every_kind(rt: HostRuntime) -> Result<(), Fail> {
    for _ in 0..10 {
        made_are_answered(&rt, 1)?;
        made_are_answered(&rt, 2)?;
        made_are_answered(&rt, 64)?;
    }
    Ok(())
}

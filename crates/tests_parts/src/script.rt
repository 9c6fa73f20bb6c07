//! Scripts: where the first fault is, and the limits.

use std::alloc::{AllocError, Global};
use vs_script::{Command, Data, Fill, ParseFault, parse};

/// What a text is refused for, or `ok`.
fn outcome(alloc: Global, command: Command, text: &[u8]) -> Result<String, AllocError> {
    match parse(alloc, command, text) {
        Ok(_) => format!(in alloc; "ok"),
        Err(ParseFault::Refused(refused)) => format!(in alloc; "{refused}"),
        Err(ParseFault::OutOfMemory) => Err(AllocError),
    }
}

/// A line, and then another one n times.
fn repeated(alloc: Global, head: &[u8], line: &[u8], n: usize) -> Result<Vec<u8>, AllocError> {
    let mut text = Vec::new(alloc);
    text.extend_from_slice(head)?;
    for _ in 0..n {
        text.extend_from_slice(line)?;
    }
    Ok(text)
}

/// Texts, and the first fault of the first faulty line of each.
const FAULTS: [(Command, &[u8], &str); 20] = [
    (Command::Play, b"# only\n\n   \n#", "ok"),
    (Command::Play, b"  send   00000000000000000001  6A4b ", "ok"),
    (Command::Play, b"poll\n#\n turn x\nbad", "line 3 BadWord"),
    (Command::Play, b"connect 4294967296 x", "line 1 BadNumber"),
    (Command::Play, b"send 0 zz", "line 1 BadNumber"),
    (Command::Play, b"send 1 abc", "line 1 BadHex"),
    (Command::Play, b"send 1 fill 65537 0", "line 1 BadNumber"),
    (Command::Play, b"shutdown 1 4", "line 1 BadNumber"),
    (Command::Play, b"host  grow 1", "line 1 BadWord"),
    (Command::Play, b"poll\r\n", "line 1 BadWord"),
    (Command::Play, b"drain", "line 1 BadWord"),
    (Command::Run, b"connect 52\napp", "line 1 BadWord"),
    (Command::Run, b"app\nsend fill 1000000 255\nclose", "ok"),
    (Command::Run, b"app\npoll", "line 2 BadWord"),
    (Command::Hostile, b"rings 8", "line 1 BadWord"),
    (
        Command::Hostile,
        b"memory 4096 4096\nrings 256",
        "line 2 BadNumber",
    ),
    (Command::Hostile, b"memory 4104 4096", "line 1 BadNumber"),
    (
        Command::Hostile,
        b"memory 0 4096\nrings 8\ngive rx 8 0",
        "line 3 BadNumber",
    ),
    (
        Command::Hostile,
        b"memory 0 4096\nrings 8\nwrite 4096 00",
        "line 3 BadNumber",
    ),
    (
        Command::Hostile,
        b"memory 0 4096\nrings 8\nwrite 9999 -\nturn",
        "ok",
    ),
];

/// Whether each text has this outcome.
fn are_named(alloc: Global, cases: &[(Command, &[u8], &str)]) -> Result<bool, AllocError> {
    for (command, text, want) in cases {
        if outcome(alloc, *command, text)?.as_str() != *want {
            return Ok(false);
        }
    }
    Ok(true)
}

#[test]
fn the_first_fault_of_the_first_faulty_line_is_named(rt: HostRuntime) {
    assert!(rt; matches!(are_named(rt.alloc(), &FAULTS), Ok(true)));
}

/// A line, another one that follows it so many times, and the outcome.
const LIMITS: [(Command, &[u8], &[u8], usize, &str); 8] = [
    (Command::Play, b"# plays\n", b"poll\n", 20_000, "ok"),
    (
        Command::Play,
        b"# plays\n",
        b"poll\n",
        20_001,
        "line 20002 TooMany",
    ),
    (Command::Run, b"", b"app\n", 65, "line 65 TooMany"),
    (
        Command::Run,
        b"app\n",
        b"close\n",
        1_001,
        "line 1002 TooMany",
    ),
    (Command::Play, b"poll", b" ", 4_196, "ok"),
    (Command::Play, b"poll", b" ", 4_197, "line 1 TooLong"),
    (Command::Play, b"#", b" ", 1_048_575, "ok"),
    (Command::Play, b"#", b" ", 1_048_576, "line 0 TooLong"),
];

/// Whether each of these texts has its outcome.
fn are_limited(
    alloc: Global,
    cases: &[(Command, &[u8], &[u8], usize, &str)],
) -> Result<bool, AllocError> {
    for (command, head, line, n, want) in cases {
        let text = repeated(alloc, head, line, *n)?;
        if outcome(alloc, *command, &text)?.as_str() != *want {
            return Ok(false);
        }
    }
    Ok(true)
}

#[test]
fn one_line_too_many_is_refused(rt: HostRuntime) {
    assert!(rt; matches!(are_limited(rt.alloc(), &LIMITS), Ok(true)));
}

#[test]
fn data_is_filled(rt: HostRuntime) {
    let filled = Data::Fill(Fill { n: 252, start: 250 });
    let mut bytes = [9u8; 4];
    assert!(rt; filled.copy_to(250, &mut bytes) == 2);
    assert!(rt; bytes == [208, 216, 9, 9]);
}

// Files of the module whose `init` answers 7, files of no module, and the lines about them.

use mw_decode::BadModule;
use mw_judge::{BadFile, FileFault, binary_text, judge, put_bad_file, put_verdict};
use std::alloc::{AllocError, Global};
use std::process::Abort;

const BYTES: &[u8] = &[
    0x00, 0x61, 0x73, 0x6d, 0x01, 0x00, 0x00, 0x00, 0x01, 0x0b, 0x02, 0x60, 0x02, 0x7e, 0x7e, 0x01,
    0x7e, 0x60, 0x00, 0x01, 0x7e, 0x03, 0x02, 0x01, 0x01, 0x04, 0x05, 0x01, 0x70, 0x01, 0x00, 0x00,
    0x05, 0x04, 0x01, 0x01, 0x40, 0x40, 0x06, 0x06, 0x01, 0x7f, 0x01, 0x41, 0x00, 0x0b, 0x07, 0x08,
    0x01, 0x04, 0x69, 0x6e, 0x69, 0x74, 0x00, 0x00, 0x0a, 0x06, 0x01, 0x04, 0x00, 0x42, 0x07, 0x0b,
];

const TEXT: &str = "(module
(type (func (param i64 i64) (result i64)))
(type (func (result i64)))
(func (type 1) i64.const 7)
(table 0 0 funcref)
(memory 64 64)
(global (mut i32) i32.const 0)
(export \"init\" (func 0))
)
";

/// The same with a constant of another type.
const INVALID: &str = "(module
(type (func (param i64 i64) (result i64)))
(type (func (result i64)))
(func (type 1) i32.const 7)
(table 0 0 funcref)
(memory 64 64)
(global (mut i32) i32.const 0)
(export \"init\" (func 0))
)
";

/// The line of a file that isn't judged.
fn line_of(alloc: Global, bad: BadFile) -> Result<Vec<u8>, AllocError> {
    let mut line = Vec::new(alloc);
    put_bad_file(alloc, &mut line, bad)?;
    Ok(line)
}

/// The line of a fault, where memory is there.
fn fault_line(alloc: Global, fault: FileFault) -> Result<Vec<u8>, AllocError> {
    match fault {
        FileFault::Bad(bad) => line_of(alloc, bad),
        FileFault::Memory(error) => Err(error),
    }
}

/// The line of a verdict.
fn verdict_line(alloc: Global, valid: bool) -> Result<Vec<u8>, AllocError> {
    let mut line = Vec::new(alloc);
    put_verdict(&mut line, valid)?;
    Ok(line)
}

/// The text of a binary module, or the line of its fault.
fn written(alloc: Global, bytes: &[u8]) -> Result<Vec<u8>, AllocError> {
    match binary_text(alloc, bytes) {
        Ok(text) => Ok(text),
        Err(fault) => fault_line(alloc, fault),
    }
}

/// The line of the verdict on a file, or of its fault.
fn judged(alloc: Global, bytes: &[u8]) -> Result<Vec<u8>, AllocError> {
    match judge(alloc, bytes) {
        Ok(valid) => verdict_line(alloc, valid),
        Err(fault) => fault_line(alloc, fault),
    }
}

/// The bytes without the last one.
fn shortened(bytes: &[u8]) -> &[u8] {
    match bytes {
        [front @ .., _] => front,
        [] => bytes,
    }
}

fn assert_written<R: Abort + AllocGlobal>(
    rt: &R,
    bytes: &[u8],
    wanted: &str,
) -> Result<(), AllocError> {
    let answer = written(rt.alloc(), bytes)?;
    assert_eq!(rt; answer.as_slice(), wanted.as_bytes());
    Ok(())
}

#[test]
fn binary_modules_are_written(rt: HostRuntime) -> Result<(), AllocError> {
    assert_written(&rt, BYTES, TEXT)?;
    assert_written(&rt, shortened(BYTES), "short at 63\n")?;
    assert_written(&rt, TEXT.as_bytes(), "bad magic\n")?;
    assert_written(&rt, b"", "bad magic\n")
}

fn assert_judged<R: Abort + AllocGlobal>(
    rt: &R,
    bytes: &[u8],
    line: &str,
) -> Result<(), AllocError> {
    let answer = judged(rt.alloc(), bytes)?;
    assert_eq!(rt; answer.as_slice(), line.as_bytes());
    Ok(())
}

#[test]
fn files_are_judged(rt: HostRuntime) -> Result<(), AllocError> {
    assert_judged(&rt, BYTES, "valid\n")?;
    assert_judged(&rt, TEXT.as_bytes(), "valid\n")?;
    assert_judged(&rt, INVALID.as_bytes(), "invalid\n")?;
    assert_judged(&rt, shortened(BYTES), "short at 63\n")?;
    assert_judged(&rt, b"", "bad text at 0\n")
}

const LINES: &[(BadFile, &str)] = &[
    (BadFile::Module(BadModule::Magic), "bad magic\n"),
    (BadFile::Module(BadModule::Section(0)), "bad section at 0\n"),
    (BadFile::Module(BadModule::Size(9)), "bad size at 9\n"),
    (BadFile::Module(BadModule::Number(10)), "bad number at 10\n"),
    (
        BadFile::Module(BadModule::Opcode(201)),
        "bad opcode at 201\n",
    ),
    (
        BadFile::Module(BadModule::OutsideProfile(67_108_864)),
        "outside profile at 67108864\n",
    ),
    (
        BadFile::Module(BadModule::Short(4_294_967_295)),
        "short at 4294967295\n",
    ),
    (BadFile::Text(7), "bad text at 7\n"),
];

#[test]
fn faults_have_lines(rt: HostRuntime) -> Result<(), AllocError> {
    for &(fault, line) in LINES {
        let text = line_of(rt.alloc(), fault)?;
        assert_eq!(rt; text.as_slice(), line.as_bytes());
    }
    Ok(())
}

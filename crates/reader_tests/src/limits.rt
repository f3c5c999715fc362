//! Long texts: the limits on instructions and on the bytes of a line.
use crate::reading::count_in;
use att_reader::ReadKind::{LineLong, NotUtf8, TooManyInsns, UnknownInstruction, UnknownLabel};
use att_reader::ReadRefusal;
use std::alloc::{AllocError, Global};
use std::test::Fail;

/// How many lines of 34 bytes 16 MiB are.
const LINES_OF_16_MIB: u32 = 493448;

/// The function `f` of so many `nop`s and then this last line.
fn nops(alloc: Global, count: u32, last: &[u8]) -> Result<Vec<u8>, AllocError> {
    let mut text = Vec::from_slice(alloc, b"f:\n")?;
    for _ in 0..count {
        text.extend_from_slice(b" nop\n")?;
    }
    text.extend_from_slice(last)?;
    Ok(text)
}

/// A comment of so many bytes, a newline, and then this.
fn comment(alloc: Global, count: u32, rest: &[u8]) -> Result<Vec<u8>, AllocError> {
    let mut text = Vec::from_slice(alloc, b"#")?;
    for _ in 1..count {
        text.push(b'x')?;
    }
    text.extend_from_slice(rest)?;
    Ok(text)
}

#[test]
fn a_function_has_at_most_4096_instructions(rt: HostRuntime) -> Result<(), Fail> {
    let alloc = rt.alloc();
    assert_eq!(rt;
        count_in(alloc, nops(alloc, 4095, b" ret")?.as_slice()),
        Ok(4096)
    );
    for last in [b" ret".as_slice(), b" ret\n bogus", b" jmp f"] {
        let wrong = ReadRefusal {
            line: 4098,
            kind: TooManyInsns,
        };
        assert_eq!(rt;
            count_in(alloc, nops(alloc, 4096, last)?.as_slice()),
            Err(wrong)
        );
    }
    let unknown = ReadRefusal {
        line: 4098,
        kind: UnknownInstruction,
    };
    assert_eq!(rt;
        count_in(alloc, nops(alloc, 4096, b" bogus")?.as_slice()),
        Err(unknown)
    );
    let lost = ReadRefusal {
        line: 4098,
        kind: UnknownLabel,
    };
    assert_eq!(rt;
        count_in(alloc, nops(alloc, 4096, b" jmp .L9")?.as_slice()),
        Err(lost)
    );
    Ok(())
}

#[test]
fn a_line_has_at_most_4096_bytes(rt: HostRuntime) -> Result<(), Fail> {
    let alloc = rt.alloc();
    assert_eq!(rt;
        count_in(alloc, comment(alloc, 4096, b"\nf: ret")?.as_slice()),
        Ok(1)
    );
    assert_eq!(rt;
        count_in(alloc, comment(alloc, 4096, b"\r\nf: ret")?.as_slice()),
        Ok(1)
    );
    for rest in [b"\nf: bogus".as_slice(), b"\r\n", b""] {
        let wrong = ReadRefusal {
            line: 1,
            kind: LineLong,
        };
        assert_eq!(rt;
            count_in(alloc, comment(alloc, 4097, rest)?.as_slice()),
            Err(wrong)
        );
    }
    let no_text = ReadRefusal {
        line: 2,
        kind: NotUtf8,
    };
    assert_eq!(rt;
        count_in(alloc, comment(alloc, 4097, b"\n\xff")?.as_slice()),
        Err(no_text)
    );
    Ok(())
}

#[test]
fn a_text_of_16_mib_is_read(rt: HostRuntime) -> Result<(), Fail> {
    let alloc = rt.alloc();
    let mut text = Vec::from_slice(alloc, b"f:\n jmp .Lend\n")?;
    for _ in 0..LINES_OF_16_MIB {
        text.extend_from_slice(b"# nothing but comments and labels\n")?;
    }
    text.extend_from_slice(b".Lend: ret\n")?;
    assert_eq!(rt; count_in(alloc, text.as_slice()), Ok(2));
    Ok(())
}

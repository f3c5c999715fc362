//! Lines, labels and the extent of a body.
use crate::reading::{first_other, first_other_count, refused_at};
use align_base::Word;
use att_reader::ReadKind::{FallsOff, TwiceLabel, UnknownInstruction};
use att_reader::{ReadRefusal, read_function};
use std::test::Fail;

#[test]
fn lines_end_and_are_padded_in_each_way(rt: HostRuntime) {
    let cases = [
        (b"f:\n ret\n".as_slice(), 1),
        (b"f:\n ret".as_slice(), 1),
        (b"f:\r\n\tret\r\n".as_slice(), 1),
        (b"\n\n \t\nf: ret".as_slice(), 1),
        (b" f:\t ret # the end\n# nothing\n".as_slice(), 1),
        (b"f: # here\n nop#there\n ret#".as_slice(), 2),
        (b"f:\n\n nop\n\n\n ret\n\n".as_slice(), 2),
    ];
    assert_eq!(rt; first_other_count(rt.alloc(), &cases), cases.len());
}

#[test]
fn labels_stand_alone_and_together(rt: HostRuntime) {
    let cases = [
        (b"f:\n.L1:\n.L2:\n jmp .L1\n".as_slice(), 1),
        (b"f: .L1:.L2: .L3: jmp .L2".as_slice(), 1),
        (b"a: b: f: .L1: nop\n jmp f".as_slice(), 2),
        (b"f:\n.L$_x.9: jmp .L$_x.9".as_slice(), 1),
        (b"f:\n jne .L1\n.L1:\n .p2align 4\n ret".as_slice(), 2),
    ];
    assert_eq!(rt; first_other_count(rt.alloc(), &cases), cases.len());
}

#[test]
fn text_outside_the_body_is_not_judged(rt: HostRuntime) {
    let cases = [
        (b"bogus\n .quad 1\nf:\n ret\ng: bogus".as_slice(), 1),
        (b"f:\n ret\n.size f, .-f\n bogus".as_slice(), 1),
        (b"f:\n ret\n.size\tf\n bogus".as_slice(), 1),
        (b"f:\n ret\n.cfi_endproc\n bogus".as_slice(), 1),
        (b"f:\n ret\nf:\n bogus".as_slice(), 1),
        (b".L1:\nf:\n.L1:\n ret\n_end: .byte 1".as_slice(), 1),
        (
            b"f:\n.cfi_startproc\n.type f, @function\n.section .text\n ret".as_slice(),
            1,
        ),
        (b"f:\n.L1 : bogus\n ret".as_slice(), 1),
    ];
    assert_eq!(rt; first_other_count(rt.alloc(), &cases), cases.len());
}

#[test]
fn bodies_go_on_behind_what_looks_like_an_end(rt: HostRuntime) {
    let cases = [
        refused_at(b"f:\n ret\n.size f+1,1\n nop\n", 4, FallsOff),
        refused_at(b"f:\n ret\n.size ff,.-ff\n nop\n", 4, FallsOff),
        refused_at(b"f:\n ret\n.sizes f\n nop\n", 4, FallsOff),
        refused_at(b"f:\n ret\n.Lg:\n bogus", 4, UnknownInstruction),
        refused_at(b"f:\n x : ret", 2, UnknownInstruction),
        refused_at(b"f:\n 1: ret", 2, UnknownInstruction),
        refused_at(b"f:\n ret\r", 2, UnknownInstruction),
        refused_at(b"f:\n re\rt\n", 2, UnknownInstruction),
    ];
    assert_eq!(rt; first_other(rt.alloc(), &cases), cases.len());
}

#[test]
fn a_local_name_has_no_second_label(rt: HostRuntime) -> Result<(), Fail> {
    let alloc = rt.alloc();
    let name = Word::new(alloc, b".Lf")?;
    let wrong = ReadRefusal {
        line: 3,
        kind: TwiceLabel,
    };
    assert_eq!(rt;
        read_function(alloc, b".Lf:\n ret\n.Lf:\n ret", &name).err(),
        Some(wrong)
    );
    assert!(rt; read_function(alloc, b".Lf:\n ret\n", &name).is_ok());
    Ok(())
}

#[test]
fn instructions_have_the_numbers_of_their_lines(rt: HostRuntime) -> Result<(), Fail> {
    let alloc = rt.alloc();
    let name = Word::new(alloc, b"f")?;
    let f = read_function(alloc, b"\n# first\nf: nop\r\n\n.L1:\n jmp .L1\n", &name)?;
    assert_eq!(rt; f.name.bytes(), b"f".as_slice());
    assert_eq!(rt;
        f.insns
            .as_slice()
            .iter()
            .map(|insn| insn.line)
            .eq([3u32, 6].iter().copied()),
        true
    );
    Ok(())
}

//! Expected values follow from the rules by hand.
use admission::{Need, Output, Rel};
use admission_text::AdmitRefusal::{BadLine, NoLive, TooMany};
use admission_text::read_admission;
use memory_spans::Region;
use std::test::Fail;

const SUM: &[u8] =
    b"admit 1\nregion a %rdi 4*%rsi read\nrequire %rsi <= 4096\nrequire %rsi mod 4 = 0\nlive %eax";

/// Registers with rdi, rsi and rsp as given and all others 0.
fn registers(rdi: u64, rsi: u64, rsp: u64) -> [u64; 16] {
    let mut regs = [0; 16];
    regs[7] = rdi;
    regs[6] = rsi;
    regs[4] = rsp;
    regs
}

#[test]
fn each_line_is_read(rt: HostRuntime) -> Result<(), Fail> {
    let alloc = rt.alloc();
    let found = read_admission(alloc, SUM)?;
    let regions = found.regions.as_slice();
    assert_eq!(rt; regions.len(), 1);
    assert_eq!(rt; regions[0].name.bytes(), b"a".as_slice());
    assert!(rt; !regions[0].write);
    let length = regions[0].len.terms.as_slice();
    assert_eq!(rt; length.len(), 1);
    assert_eq!(rt; length[0].c, 4);
    assert_eq!(rt; length[0].reg, Some(6));
    let needs = found.needs.as_slice();
    assert_eq!(rt; needs.len(), 2);
    assert!(rt; matches!(&needs[0], Need::Compare { rel: Rel::Le, .. }));
    assert!(rt; matches!(&needs[1], Need::Modulo { m: 4, r: 0, .. }));
    assert_eq!(rt; found.stack, 0);
    let live = found.live.as_slice();
    assert_eq!(rt; live.len(), 1);
    assert_eq!(rt; live[0], Output::Reg { n: 0, w: 32 });
    Ok(())
}

#[test]
fn the_first_fault_is_told(rt: HostRuntime) -> Result<(), Fail> {
    let alloc = rt.alloc();
    let cases = [
        (b"".as_slice(), NoLive),
        (b"# a\n\n".as_slice(), NoLive),
        (b"admit 1\nstack 8\n".as_slice(), NoLive),
        (
            b"admit 1\nregion a %rdi 4*%esi read\nlive".as_slice(),
            BadLine(2),
        ),
        (b"# \xff\n\nadmit 2\nlive".as_slice(), BadLine(3)),
        (b"admit 1\r\nlive".as_slice(), BadLine(1)),
        (b"live\nadmit 1".as_slice(), BadLine(1)),
        (b"admit 1\nlive\nadmit 1".as_slice(), BadLine(3)),
        (b"admit 1\nlive %ah".as_slice(), BadLine(2)),
        (b"admit 1\nlive %xmm16".as_slice(), BadLine(2)),
        (b"admit 1\nlive \nbogus".as_slice(), BadLine(2)),
        (b"admit 1\nlive\nlive".as_slice(), BadLine(3)),
        (b"admit 1\nstack 8\nstack 8\nlive".as_slice(), BadLine(3)),
        (b"admit 1\nstack 12\nlive".as_slice(), BadLine(2)),
        (b"admit 1\nstack 4104\nlive".as_slice(), BadLine(2)),
        (
            b"admit 1\nregion a 0 1 read\nregion a 0 1 read\nlive".as_slice(),
            BadLine(3),
        ),
        (
            b"admit 1\nregion a 0 1 read\napart a a\nlive".as_slice(),
            BadLine(3),
        ),
        (
            b"admit 1\napart a b\nregion a 0 1 read\nregion b 0 1 read\nlive".as_slice(),
            BadLine(2),
        ),
        (b"admit 1\nregion A 0 1 read\nlive".as_slice(), BadLine(2)),
        (
            b"admit 1\nregion abcdefghijklmnopq 0 1 read\nlive".as_slice(),
            BadLine(2),
        ),
        (b"admit 1\nrequire -1 = 0\nlive".as_slice(), BadLine(2)),
        (b"admit 1\nrequire 01 = 0\nlive".as_slice(), BadLine(2)),
        (b"admit 1\nrequire 0x = 0\nlive".as_slice(), BadLine(2)),
        (
            b"admit 1\nrequire 18446744073709551616 = 0\nlive".as_slice(),
            BadLine(2),
        ),
        (
            b"admit 1\nrequire 1+1+1+1+1+1+1+1+1 = 9\nlive".as_slice(),
            BadLine(2),
        ),
        (
            b"admit 1\nrequire %rdi mod 3 = 0\nlive".as_slice(),
            BadLine(2),
        ),
        (
            b"admit 1\nrequire %rdi mod 4 = 4\nlive".as_slice(),
            BadLine(2),
        ),
        (b"admit 1\nrequire %rdi  = 0\nlive".as_slice(), BadLine(2)),
        (
            b"admit 1\nscratch 0 1\nscratch 0 1\nscratch 0 1\nscratch 0 1\nscratch 0 1\nbogus".as_slice(),
            TooMany(6),
        ),
        (
            b"admit 1\nscratch 0 1\nscratch 0 1\nscratch 0 1\nscratch 0 1\nscratch 0 x\nbogus".as_slice(),
            BadLine(6),
        ),
        (
            b"admit 1\nlive %al %al %al %al %al %al %al %al %al %al %al %al %al %al %al %al %al".as_slice(),
            TooMany(2),
        ),
    ];
    for (k, (text, refusal)) in cases.iter().enumerate() {
        assert_eq!(rt;
            read_admission(alloc, *text).err(),
            Some(*refusal),
            "at {k}"
        );
    }
    Ok(())
}

#[test]
fn entry_registers_are_admitted(rt: HostRuntime) -> Result<(), Fail> {
    let alloc = rt.alloc();
    let whole = b"admit 1\nregion a %rdi %rsi write\nstack 16\nlive".as_slice();
    let pair = b"admit 1\nregion a %rdi 8 read\nregion b %rsi 8 read\napart a b\nlive".as_slice();
    let signed =
        b"admit 1\nrequire %rdi s< %rsi\nrequire %rdi-%rsi = 0xFFFFFFFFFFFFFFFF\nlive".as_slice();
    let cases = [
        (SUM, registers(4096, 4, 0), true),
        (SUM, registers(4096, 3, 0), false),
        (SUM, registers(4096, 4100, 0), false),
        (SUM, registers(0xffff_ffff_ffff_fff0, 4, 4096), true),
        (SUM, registers(0xffff_ffff_ffff_fff1, 4, 4096), false),
        (whole, registers(100, 0, 108), true),
        (whole, registers(92, 1, 108), false),
        (whole, registers(91, 1, 108), true),
        (whole, registers(115, 1, 108), false),
        (whole, registers(116, 1, 108), true),
        (whole, registers(0xffff_ffff_ffff_fff8, 8, 8), false),
        (whole, registers(0xffff_ffff_ffff_fff0, 8, 8), true),
        (pair, registers(100, 108, 4096), true),
        (pair, registers(100, 107, 4096), false),
        (pair, registers(107, 100, 4096), false),
        (signed, registers(u64::MAX, 0, 0), true),
        (signed, registers(u64::MAX >> 1, 1 << 63, 0), false),
    ];
    for (k, (text, regs, admitted)) in cases.iter().enumerate() {
        let found = read_admission(alloc, *text)?;
        assert_eq!(rt; found.admits(regs), *admitted, "at {k}");
    }
    Ok(())
}

#[test]
fn regions_and_scratch_lines_have_values(rt: HostRuntime) -> Result<(), Fail> {
    let alloc = rt.alloc();
    let text = b"admit 1\nregion a %rdi-0x10 2*%rsi+1 write\nscratch %rdi-%rsi 3\nlive %ymm15 %r8b";
    let found = read_admission(alloc, text)?;
    let regs = registers(8, 4, 0);
    assert!(rt; found.regions.len() == 1 && found.scratch.len() == 1);
    let region = Region {
        base: 0xffff_ffff_ffff_fff8,
        len: 9,
        write: true,
    };
    assert_eq!(rt; found.region_at(&regs, 0), region);
    assert_eq!(rt; found.scratch_at(&regs, 0), (4, 3));
    assert_eq!(rt; found.live.len(), 2);
    assert_eq!(rt; found.live.as_slice()[0], Output::Vec { n: 15, w: 256 });
    assert_eq!(rt; found.live.as_slice()[1], Output::Reg { n: 8, w: 8 });
    Ok(())
}

//! Each public call of `align_base` once, with ample memory. Calls of shelves and sinks stand in
//! tables, which small functions without contracts go over: so a test has few facts to carry.
use align_base::{
    FolderShelf, Gate, GiveFault, MemShelf, MemSink, OpenGate, OutSink, PutFault, Shelf, Sink,
    Status, SureShelf, SureSink, TakeFault, Word,
};
use clauses::{Clause, Lit};
use outcomes::Memory;
use std::alloc::Global;
use std::fs;
use std::test::Fail;

/// A call of a shelf, and what it has to answer.
#[derive(Clone, Copy)]
enum Asked {
    Take(&'static [u8], u64, Result<&'static [u8], TakeFault>),
    Put(&'static [u8], &'static [u8], Result<(), PutFault>),
}

/// Whether a take answers so.
fn takes<F: Shelf>(
    alloc: Global,
    shelf: &mut F,
    name: &[u8],
    limit: u64,
    wanted: Result<&[u8], TakeFault>,
) -> Result<bool, Memory> {
    let name = Word::new(alloc, name)?;
    match shelf.take(alloc, &name, limit) {
        Ok(bytes) => Ok(wanted == Ok(bytes.as_slice())),
        Err(fault) => Ok(wanted == Err(fault)),
    }
}

/// Whether a call answers what it has to.
fn answers<F: Shelf>(alloc: Global, shelf: &mut F, asked: Asked) -> Result<bool, Memory> {
    match asked {
        Asked::Take(name, limit, wanted) => takes(alloc, shelf, name, limit, wanted),
        Asked::Put(name, bytes, wanted) => {
            let name = Word::new(alloc, name)?;
            Ok(shelf.put(alloc, &name, bytes) == wanted)
        }
    }
}

/// The first call, by number, that answers something else.
fn first_wrong<F: Shelf>(
    alloc: Global,
    shelf: &mut F,
    all: &[Asked],
) -> Result<Option<usize>, Memory> {
    for (k, asked) in all.iter().enumerate() {
        if !answers(alloc, shelf, *asked)? {
            return Ok(Some(k));
        }
    }
    Ok(None)
}

/// "a" twice and an empty "b".
fn three_files(alloc: Global) -> Result<Vec<(Word, Vec<u8>)>, Memory> {
    let mut files = Vec::new(alloc);
    let texts: [(&[u8], &[u8]); 3] = [(b"a", b"one"), (b"a", b"other"), (b"b", b"")];
    for (name, text) in texts {
        files.push((Word::new(alloc, name)?, Vec::from_slice(alloc, text)?))?;
    }
    Ok(files)
}

/// Whether a shelf in memory holds these bytes under the name.
fn holds(
    alloc: Global,
    shelf: &MemShelf,
    name: &[u8],
    wanted: Option<&[u8]>,
) -> Result<bool, Memory> {
    let name = Word::new(alloc, name)?;
    Ok(shelf.held(&name) == wanted)
}

#[test]
fn mem_shelf_takes_the_first_of_equal_names(rt: HostRuntime) -> Result<(), Fail> {
    let mut shelf = MemShelf::new(three_files(rt.alloc())?, Vec::new(rt.alloc()));
    let calls = [
        Asked::Take(b"a", 3, Ok(b"one")),
        Asked::Take(b"a", 2, Err(TakeFault::Large(3))),
        Asked::Take(b"b", 0, Ok(b"")),
        Asked::Take(b"c", 3, Err(TakeFault::Failed)),
    ];
    assert_eq!(rt; first_wrong(rt.alloc(), &mut shelf, &calls)?, None);
    assert!(rt; holds(rt.alloc(), &shelf, b"a", Some(b"one"))?);
    assert!(rt; holds(rt.alloc(), &shelf, b"c", None)?);
    Ok(())
}

#[test]
fn mem_shelf_fails_at_the_listed_calls(rt: HostRuntime) -> Result<(), Fail> {
    let failing = Vec::from_slice(rt.alloc(), &[2, 4])?;
    let mut shelf = MemShelf::new(three_files(rt.alloc())?, failing);
    let calls = [
        Asked::Put(b"a", b"new", Ok(())),
        Asked::Take(b"a", 9, Err(TakeFault::Failed)),
        Asked::Take(b"a", 9, Ok(b"new")),
        Asked::Put(b"a", b"lost", Err(PutFault::Failed)),
        Asked::Take(b"a", 9, Ok(b"new")),
    ];
    assert_eq!(rt; first_wrong(rt.alloc(), &mut shelf, &calls)?, None);
    Ok(())
}

#[test]
fn sure_shelf_holds_every_name(rt: HostRuntime) -> Result<(), Fail> {
    let mut shelf = SureShelf::new(three_files(rt.alloc())?);
    let calls = [
        Asked::Take(b"a", 3, Ok(b"one")),
        Asked::Take(b"a", 0, Err(TakeFault::Large(1))),
        Asked::Take(b"c", 0, Ok(b"")),
        Asked::Put(b"c", b"put", Ok(())),
        Asked::Take(b"c", 3, Ok(b"put")),
        Asked::Take(b"a", 3, Ok(b"one")),
    ];
    assert_eq!(rt; first_wrong(rt.alloc(), &mut shelf, &calls)?, None);
    let name = Word::new(rt.alloc(), b"c")?;
    assert_eq!(rt; shelf.held(&name), Some(b"put".as_slice()));
    Ok(())
}

#[test]
fn folder_shelf_takes_what_stands_in_the_folder(rt: HostRuntime) -> Result<(), Fail> {
    let mut shelf = FolderShelf::new(&rt);
    fs::write(&rt, "taken.txt", "text")?;
    let calls = [
        Asked::Take(b"taken.txt", 4, Ok(b"text")),
        Asked::Take(b"taken.txt", 3, Err(TakeFault::Large(4))),
        Asked::Put(b"taken.txt", b"put", Ok(())),
        Asked::Take(b"taken.txt", 9, Ok(b"put")),
        Asked::Take(b"absent.txt", 9, Err(TakeFault::Failed)),
        Asked::Take(b"\xff", 9, Err(TakeFault::Failed)),
        Asked::Put(b"\xff", b"x", Err(PutFault::Failed)),
    ];
    assert_eq!(rt; first_wrong(rt.alloc(), &mut shelf, &calls)?, None);
    Ok(())
}

/// The first piece, by number, of which the give answers something else.
fn first_wrong_give<O: Sink>(
    sink: &mut O,
    all: &[(&[u8], Result<(), GiveFault>)],
) -> Option<usize> {
    for (k, (bytes, wanted)) in all.iter().enumerate() {
        if sink.give(*bytes) != *wanted {
            return Some(k);
        }
    }
    None
}

#[test]
fn mem_sink_fails_at_the_listed_calls(rt: HostRuntime) -> Result<(), Fail> {
    let mut sink = MemSink::new(rt.alloc(), Vec::from_slice(rt.alloc(), &[1])?);
    let gives: [(&[u8], _); 3] = [
        (b"lost", Err(GiveFault::Failed)),
        (b"ab", Ok(())),
        (b"c", Ok(())),
    ];
    assert_eq!(rt; first_wrong_give(&mut sink, &gives), None);
    assert_eq!(rt; sink.written(), b"abc".as_slice());
    Ok(())
}

#[test]
fn sure_sink_appends(rt: HostRuntime) {
    let mut sink = SureSink::new(rt.alloc());
    let gives: [(&[u8], _); 2] = [(b"ab", Ok(())), (b"c", Ok(()))];
    assert_eq!(rt; first_wrong_give(&mut sink, &gives), None);
    assert_eq!(rt; sink.written(), b"abc".as_slice());
}

#[test]
fn out_sink_prints(rt: HostRuntime) {
    let mut sink = OutSink::new(&rt);
    assert_eq!(rt; sink.give(b"a line\n"), Ok(()));
}

#[test]
fn open_gate_lets_each_leaf_pass(rt: HostRuntime) {
    for leaf in [0, 1, u32::MAX] {
        assert_eq!(rt; OpenGate.enter(leaf), (), "of {leaf}");
    }
}

#[test]
fn words_and_clauses_keep_what_they_are_made_of(rt: HostRuntime) -> Result<(), Fail> {
    let alloc = rt.alloc();
    let word = Word::new(alloc, b"name")?;
    assert_eq!(rt; word.bytes(), b"name".as_slice());
    let lits = [Lit { var: 1, neg: true }, Lit { var: 7, neg: false }];
    let clause = Clause::of(alloc, &lits)?;
    assert_eq!(rt; clause.lits(), lits.as_slice());
    Ok(())
}

#[test]
fn each_status_has_its_code(rt: HostRuntime) {
    let all = [
        Status::Good,
        Status::Negative,
        Status::Unknown,
        Status::Refused,
        Status::Usage,
        Status::ShelfFault,
        Status::SinkFault,
        Status::NoMemory,
    ];
    for (code, status) in all.iter().enumerate() {
        assert_eq!(rt; usize::from(status.code()), code, "of {status:?}");
    }
}

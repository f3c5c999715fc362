//! Takes the files of a command and reads them.
ghost use Rattle.std.specs.Prelude.{◌≡◌, ◌≤◌, length, IfErr, IfOk, OnOk};
ghost use Rattle.align_base.specs.Causes.{count_after};
ghost use Rattle.align_base.specs.Shelf.{Holds, NoneFailed};
ghost use Rattle.align_cli.specs.Files.{admission_file, function_file, tests_file};
ghost use Rattle.align_cli.specs.Inside.{IsReadAdmission, IsReadFunction, IsReadTests, StopsFile, StopsTake};
ghost use Rattle.command_line.specs.View.{function_view};

use crate::answer::Stop;
use admission::Admission;
use admission_text::{AdmitRefusal, read_admission};
use align_base::{Shelf, TakeFault, Word};
use align_report::{admission_refusal, large_refusal, line_refusal, tests_refusal};
use att_reader::{ReadKind, read_function};
use command_line::FunctionArguments;
use insn_table::Function;
use std::alloc::Global;
use tests_text::{TestRefusal, Tests, read_tests};

/// The most bytes of a text that is read: 16 MiB.
const TEXT_LIMIT: u64 = 16_777_216;

/// The text of a file, by what it is called and the most bytes that it may have.
fn text_in<F: Shelf>(
    alloc: Global,
    shelf: &mut F,
    name: &Word,
    called: &str,
    limit: u64,
) -> Result<Vec<u8>, Stop>
    ensures holding { (F.account shelf.new).holding ≡ (F.account shelf.old).holding }
    ensures taken { (F.account shelf.new).calls ≡ count_after (F.account shelf.old).calls 1 }
    ensures ok { IfOk result (λ text. Holds (F.account shelf.old).holding name.now text.items × (length text.items ≤ limit)) }
    ensures none_failed { OnOk result (NoneFailed (F.account shelf.old) (F.account shelf.new)) }
    ensures err { IfErr result (StopsTake name.now called.now limit (F.account shelf.old) (F.account shelf.new)) }
{
    match shelf.take(alloc, name, limit) {
        Ok(text) => Ok(text),
        Err(TakeFault::Failed) => Err(Stop::Shelf),
        Err(TakeFault::Memory) => Err(Stop::Memory),
        Err(TakeFault::Large(seen)) => Err(Stop::Refused(large_refusal(alloc, called, seen)?)),
    }
}

/// The function that these arguments name, by what its file is called.
pub fn function_in<F: Shelf>(
    alloc: Global,
    shelf: &mut F,
    called: &str,
    arguments: &FunctionArguments,
) -> Result<Function, Stop>
    ensures holding { (F.account shelf.new).holding ≡ (F.account shelf.old).holding }
    ensures taken { (F.account shelf.new).calls ≡ count_after (F.account shelf.old).calls 1 }
    ensures ok { IfOk result (IsReadFunction (F.account shelf.old).holding (function_view arguments.now)) }
    ensures none_failed { OnOk result (NoneFailed (F.account shelf.old) (F.account shelf.new)) }
    ensures err { IfErr result (StopsFile (function_file called.now (function_view arguments.now))
        (F.account shelf.old) (F.account shelf.new)) }
{
    let text = text_in(alloc, shelf, &arguments.file, called, TEXT_LIMIT)?;
    match read_function(alloc, text.as_slice(), &arguments.name) {
        Ok(function) => Ok(function),
        Err(refusal) => match refusal.kind {
            ReadKind::Memory => Err(Stop::Memory),
            _ => Err(Stop::Refused(line_refusal(alloc, called, refusal)?)),
        },
    }
}

/// The admission in the file of this name.
pub fn admission_in<F: Shelf>(alloc: Global, shelf: &mut F, name: &Word) -> Result<Admission, Stop>
    ensures holding { (F.account shelf.new).holding ≡ (F.account shelf.old).holding }
    ensures taken { (F.account shelf.new).calls ≡ count_after (F.account shelf.old).calls 1 }
    ensures ok { IfOk result (IsReadAdmission (F.account shelf.old).holding name.now) }
    ensures none_failed { OnOk result (NoneFailed (F.account shelf.old) (F.account shelf.new)) }
    ensures err { IfErr result (StopsFile (admission_file name.now) (F.account shelf.old) (F.account shelf.new)) }
{
    let text = text_in(alloc, shelf, name, "admit", TEXT_LIMIT)?;
    match read_admission(alloc, text.as_slice()) {
        Ok(admission) => Ok(admission),
        Err(refusal) => match refusal {
            AdmitRefusal::Memory => Err(Stop::Memory),
            _ => Err(Stop::Refused(admission_refusal(alloc, refusal)?)),
        },
    }
}

/// The tests in the file of this name.
pub fn tests_in<F: Shelf>(alloc: Global, shelf: &mut F, name: &Word) -> Result<Tests, Stop>
    ensures holding { (F.account shelf.new).holding ≡ (F.account shelf.old).holding }
    ensures taken { (F.account shelf.new).calls ≡ count_after (F.account shelf.old).calls 1 }
    ensures ok { IfOk result (IsReadTests (F.account shelf.old).holding name.now) }
    ensures none_failed { OnOk result (NoneFailed (F.account shelf.old) (F.account shelf.new)) }
    ensures err { IfErr result (StopsFile (tests_file name.now) (F.account shelf.old) (F.account shelf.new)) }
{
    let text = text_in(alloc, shelf, name, "tests", TEXT_LIMIT)?;
    match read_tests(alloc, text.as_slice()) {
        Ok(tests) => Ok(tests),
        Err(refusal) => match refusal {
            TestRefusal::Memory => Err(Stop::Memory),
            _ => Err(Stop::Refused(tests_refusal(alloc, refusal)?)),
        },
    }
}

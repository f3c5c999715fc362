//! The program `align`: it runs the top call over the working folder and standard output, and ends
//! with its code.
#![tactic(auto)]

use align_base::{FolderShelf, OpenGate, OutSink, Status, Word};
use align_cli::align_main;
use outcomes::Memory;
use std::alloc::Global;
use std::process::ExitCode;
use std::rt::Env;
use std::{env, io};

/// The arguments of the command line behind the program's name. None where one is not text: such
/// arguments are a usage error, as no arguments are.
fn arguments_of<R: Env + AllocGlobal>(rt: &R, alloc: Global) -> Result<Vec<Word>, Memory> {
    let mut arguments = Vec::new(alloc);
    match env::args(rt) {
        Ok(args) => {
            for arg in args.skip(1) {
                arguments.push(Word::new(alloc, arg.as_bytes())?)?;
            }
            Ok(arguments)
        }
        Err(error) => match error.kind() {
            io::ErrorKind::OutOfMemory => Err(Memory),
            _ => Ok(arguments),
        },
    }
}

fn main(rt: HostRuntime) -> ExitCode {
    let status = match arguments_of(&rt, rt.alloc()) {
        Err(Memory) => Status::NoMemory,
        Ok(arguments) => align_main(
            &rt,
            rt.alloc(),
            arguments.as_slice(),
            &OpenGate,
            &mut FolderShelf::new(&rt),
            &mut OutSink::new(&rt),
        ),
    };
    ExitCode::from(status.code())
}

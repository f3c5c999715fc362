//! What the arguments ask for.

use align_base::Word;

/// The argument that names the file of a function, and the function's own name.
#[derive(Drop)]
pub struct FunctionArguments {
    pub file: Word,
    pub name: Word,
}

/// A function to run, the arguments that name the files of the admission and of the tests, and the
/// most steps of a run.
#[derive(Drop)]
pub struct RunArguments {
    pub function: FunctionArguments,
    pub admission: Word,
    pub tests: Word,
    pub steps: u64,
}

/// A command.
#[derive(Drop)]
pub enum Command {
    /// `decide LEFT F RIGHT G`
    DecidePlain(FunctionArguments, FunctionArguments),
    /// `run FILE F ADMIT TESTS`, with or without `--steps N`
    Run(RunArguments),
    /// `show FILE F`
    Show(FunctionArguments),
}

/// The form of a command.
#[derive(Clone, Copy, Debug, PartialEq, Eq)]
pub enum CommandForm {
    /// `decide LEFT F RIGHT G`
    DecidePlain,
    /// `run FILE F ADMIT TESTS`, with or without `--steps N`
    Run,
    /// `show FILE F`
    Show,
}

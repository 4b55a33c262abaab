//! The whole program, over any environment, files, input and output.
ghost use Rattle.std.specs.Prelude.{◌≡◌};
ghost use Rattle.std.specs.Process.{exit_status};
ghost use Rattle.sp_base.specs.Status.{code_of};

use crate::inputs::HostSource;
use crate::outputs::HostSink;
use crate::shelving::HostShelf;
use crate::wording::words_of;
use sp_base::Status;
use sp_shell::{Ending, run};
use std::alloc::Global;
use std::io::{Read, Write};
use std::process::ExitCode;
use std::rt::{Env, Files};

/// The exit status of a run that ended so, from 0 to 6.
fn exit_of(ending: &Ending) -> ExitCode
    ensures { exit_status result ≡ code_of ending.now.status }
{
    ExitCode::from(ending.exit_code())
}

/// Carries out the words of the environment: reads from these files and this input, and prints to this output.
pub fn carry_out<E: Env, R: Files, I: Read + Drop, O: Write + Drop>(
    alloc: Global,
    env: &E,
    files: &R,
    input: I,
    output: O,
) -> ExitCode {
    let Ok(words) = words_of(alloc, env) else {
        return ExitCode::from(Status::NoMemory.code());
    };
    let mut source = HostSource::new(input);
    let mut shelf = HostShelf::new(alloc, files);
    let mut sink = HostSink::new(output);
    exit_of(&run(alloc, &words, &mut source, &mut shelf, &mut sink))
}

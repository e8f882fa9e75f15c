//! The number with which the program ends.

ghost use Rattle.std.specs.Prelude.{◌≡◌, ◌≢◌};
ghost use Rattle.std.specs.Process.{exit_status};
ghost use Rattle.std.specs.declared.io.ErrorKind.TheVariants.{OutOfMemory};
ghost use Rattle.prover.specs.Numbers.{number_of};

use prover::Status;
use std::io::ErrorKind;
use std::process::ExitCode;

/// The number where memory for the words is wanting.
const NO_MEMORY: u8 = 7;

/// The number where the system does not hand the words over as texts.
const NO_TEXTS: u8 = 10;

/// The end with the number of a status.
pub fn of_status(status: Status) -> ExitCode
    ensures { exit_status result ≡ number_of status }
{
    ExitCode::from(status.number())
}

/// The end where the words cannot be taken, by the kind of the error.
pub fn without_words(kind: ErrorKind) -> ExitCode
    ensures memory { kind ≡ OutOfMemory → exit_status result ≡ 7 }
    ensures texts { kind ≢ OutOfMemory → exit_status result ≡ 10 }
{
    match kind {
        ErrorKind::OutOfMemory => ExitCode::from(NO_MEMORY),
        _ => ExitCode::from(NO_TEXTS),
    }
}

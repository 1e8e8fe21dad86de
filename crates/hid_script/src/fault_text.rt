//! The line that names a fault, and its codes.

ghost use Rattle.std.specs.Prelude.{◌≡◌, Some, IfOk, IfErr};
ghost use Rattle.hid_script.specs.FaultText.{step_fault_text, cause_text, fault_text};

use super::fault::{Cause, ScriptFault, StepFault};
use std::alloc::{AllocError, Global};
use std::fmt;

impl fmt::Display for StepFault {
    ghost output = { λ fault. Some (step_fault_text fault) };

    fn fmt<W: fmt::Write>(&self, f: &mut fmt::Formatter<W>) -> fmt::Result {
        match self {
            StepFault::Layout(fault) => fmt::Display::fmt(fault, f),
            StepFault::Report(fault) => fmt::Display::fmt(fault, f),
            StepFault::Stack(fault) => fmt::Display::fmt(fault, f),
        }
    }
}

impl fmt::Display for Cause {
    ghost output = { λ cause. Some (cause_text cause) };

    fn fmt<W: fmt::Write>(&self, f: &mut fmt::Formatter<W>) -> fmt::Result {
        let code = match self {
            Cause::Syntax => "X1",
            Cause::LineTooLong => "X2",
            Cause::BadHex => "X3",
            Cause::Step(fault) => return write!(f, "X4 {fault}"),
            Cause::Read => "X5",
            Cause::Write => "X6",
            Cause::Memory => "X7",
            Cause::TooManyReads => "X8",
            Cause::NoLayout => "X9",
        };
        f.write_str(code)
    }
}

/// The line that names a fault, with its end: `line 2: X4 U8`.
///
/// # Errors
/// If memory runs out: X7 at the line of the fault.
pub fn fault_line(alloc: Global, fault: &ScriptFault) -> Result<Vec<u8>, ScriptFault>
    ensures ok { IfOk result (λ text. text.items ≡ fault_text fault.now) }
    ensures memory { IfErr result (λ e. e ≡ record fault.now { cause = Cause.Memory }) }
{
    write_fault_line(alloc, fault).map_err(|_| ScriptFault {
        line: fault.line,
        cause: Cause::Memory,
    })
}

/// The line that names a fault: `line N: CODES`, with its end.
fn write_fault_line(alloc: Global, fault: &ScriptFault) -> Result<Vec<u8>, AllocError>
    ensures { IfOk result (λ text. text.items ≡ fault_text fault.now) }
{
    let ScriptFault { line, cause } = *fault;
    let mut text = String::new(alloc);
    writeln!(text, "line {line}: {cause}")?;
    Ok(text.into_bytes())
}

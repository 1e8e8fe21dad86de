//! The one call of `run` that the tests make, in a function that promises nothing: what is promised of it is before the
//! prover here alone, and not in each test.

use hid_script::{Options, ScriptFault, Summary, run};
use std::alloc::Global;
use std::io::{Read, Write};

pub const QUIET: Options = Options {
    layout: false,
    trace: false,
};

pub const TRACED: Options = Options {
    layout: false,
    trace: true,
};

pub fn play<R: Read, W: Write>(
    alloc: Global,
    reader: &mut R,
    writer: &mut W,
    options: Options,
) -> Result<Summary, ScriptFault> {
    run(alloc, reader, writer, options)
}

//! What a test gives: a result, since one that asserts takes the prover three seconds or more.

use std::test::Fail;

/// Fails by the name of what should hold, where it doesn't.
pub fn holds(name: &'static str, is_so: bool) -> Result<(), Fail> {
    if is_so {
        return Ok(());
    }
    Err(Fail::new(name))
}

/// Fails by the place of the row that is wrong, from 0, if one is.
pub fn none_is_wrong(wrong: Option<usize>) -> Result<(), Fail> {
    match wrong {
        Some(at) => Err(Fail::new(at)),
        None => Ok(()),
    }
}

//! Tests of the rig that joins devices and hosts, `hid_stack`, through its exports. They are a crate of their own, since a
//! crate with tests is proved twice. What a script shows of the rig is a row of `tests/scripts` and no test. Each file says
//! where its expected values come from.
#![tactic(auto)]

#[cfg(test)]
mod rig;

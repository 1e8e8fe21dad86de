//! Tests of the script language, `hid_text` and `hid_script`, through their exports. They are a crate of their own, since a
//! crate with tests is proved twice. What `hidrun` prints of a script is a row of `tests/scripts` and no test. Each file says
//! where its expected values come from.
#![tactic(auto)]

#[cfg(test)]
mod flushes;
#[cfg(test)]
mod lines;
#[cfg(test)]
mod play;
#[cfg(test)]
mod streams;
#[cfg(test)]
mod summaries;

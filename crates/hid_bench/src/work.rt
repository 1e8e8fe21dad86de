//! The work of a number of turns.

use crate::args::{CliArgs, Work};
use crate::driving::Driving;
use crate::fault::BenchFault;
use crate::reading::{Reading, parsed};
use crate::reporting::Reporting;
use crate::stepping::Stepping;
use crate::transferring::{Transferring, Trying};
use crate::writing::Writing;
use arrayvec::ArrayVec;
use std::alloc::Global;

/// Does the work of all turns: how many items were listed, events came, or bytes were written, taken or answered.
///
/// # Errors
/// What the work gives: a fault of [`parsed`], [`Reading`], [`Writing`], [`Stepping`], [`Driving`], [`Reporting`],
/// [`Transferring`] or [`Trying`]. It ends at the first one.
pub fn done(alloc: Global, asked: &CliArgs) -> Result<u64, BenchFault> {
    let descriptor = asked.descriptor.as_slice();
    match asked.work {
        Work::Parse => parses(alloc, descriptor, asked.turns),
        Work::Read => reads(alloc, descriptor, asked.rest.as_slice(), asked.turns),
        Work::Write => writes(alloc, descriptor, asked.rest.as_slice(), asked.turns),
        Work::Step => steps(alloc, descriptor, asked.rest.as_slice(), asked.turns),
        Work::Drive => drives(alloc, descriptor, asked.rest.as_slice(), asked.turns),
        Work::Report => reports(alloc, descriptor, asked.rest.as_slice(), asked.turns),
        Work::Transfer => transfers(alloc, descriptor, asked.rest.as_slice(), asked.turns),
        Work::Try => tries(alloc, descriptor, asked.rest.as_slice(), asked.turns),
    }
}

/// Parses the descriptor in each turn; returns how many items were listed in all.
fn parses(alloc: Global, descriptor: &[u8], turns: u32) -> Result<u64, BenchFault> {
    let mut listed: u64 = 0;
    for _ in 0..turns {
        let layout = parsed(alloc, descriptor)?;
        listed = listed.wrapping_add(layout.items().len() as u64);
    }
    Ok(listed)
}

/// Reads all reports in each turn; returns how many events there were in all.
fn reads(
    alloc: Global,
    descriptor: &[u8],
    reports: &[Vec<u8>],
    turns: u32,
) -> Result<u64, BenchFault> {
    let mut reading = Reading::open(alloc, descriptor)?;
    let mut told: u64 = 0;
    for _ in 0..turns {
        for report in reports {
            told = told.wrapping_add(reading.read(report)? as u64);
        }
    }
    Ok(told)
}

/// Writes a report in each turn; returns how many bytes there were in all.
fn writes(
    alloc: Global,
    descriptor: &[u8],
    usages: &[Vec<u8>],
    turns: u32,
) -> Result<u64, BenchFault> {
    let writing = Writing::open(alloc, descriptor, usages)?;
    let mut bytes = ArrayVec::new();
    let mut written: u64 = 0;
    for _ in 0..turns {
        writing.write(&mut bytes);
        written = written.wrapping_add(bytes.len() as u64);
    }
    Ok(written)
}

/// Steps a device and its host in each turn; returns how many events there were in all.
fn steps(
    alloc: Global,
    descriptor: &[u8],
    usages: &[Vec<u8>],
    turns: u32,
) -> Result<u64, BenchFault> {
    let mut stepping = Stepping::open(alloc, descriptor, usages)?;
    let mut told: u64 = 0;
    for _ in 0..turns {
        told = told.wrapping_add(stepping.turn()? as u64);
    }
    Ok(told)
}

/// Reads all reports in each turn by a driver; returns how many events there were in all.
fn drives(
    alloc: Global,
    descriptor: &[u8],
    reports: &[Vec<u8>],
    turns: u32,
) -> Result<u64, BenchFault> {
    let mut driving = Driving::open(alloc, descriptor)?;
    let mut told: u64 = 0;
    for _ in 0..turns {
        for report in reports {
            told = told.wrapping_add(driving.read(report)? as u64);
        }
    }
    Ok(told)
}

/// Makes whole transfers of all requests in each turn; returns how many bytes were answered in all.
fn transfers(
    alloc: Global,
    descriptor: &[u8],
    requests: &[Vec<u8>],
    turns: u32,
) -> Result<u64, BenchFault> {
    let mut transferring = Transferring::open(alloc, descriptor, requests)?;
    let mut answered: u64 = 0;
    for _ in 0..turns {
        answered = answered.wrapping_add(transferring.turn()? as u64);
    }
    Ok(answered)
}

/// Takes a device's reports as whole transfers in each turn; returns how many bytes there were in all.
fn reports(
    alloc: Global,
    descriptor: &[u8],
    usages: &[Vec<u8>],
    turns: u32,
) -> Result<u64, BenchFault> {
    let mut reporting = Reporting::open(alloc, descriptor, usages)?;
    let mut taken: u64 = 0;
    for _ in 0..turns {
        taken = taken.wrapping_add(reporting.turn()? as u64);
    }
    Ok(taken)
}

/// Makes the tries of all requests in each turn; returns how many bytes were answered in all.
fn tries(
    alloc: Global,
    descriptor: &[u8],
    requests: &[Vec<u8>],
    turns: u32,
) -> Result<u64, BenchFault> {
    let mut trying = Trying::open(alloc, descriptor, requests)?;
    let mut answered: u64 = 0;
    for _ in 0..turns {
        answered = answered.wrapping_add(trying.turn()? as u64);
    }
    Ok(answered)
}

//! Answers for reports of an interface, many of which failed, at times that the dice choose. What a row of failures leads to is
//! counted here a second time, from all its times.

use crate::dice::Dice;
use crate::stop::{Stop, right};
use crate::tally::Tally;
use std::alloc::Global;
use usbip_session::{Answer, is_endless, notice_of_row, row_after};

/// How many answers a stream has at most.
const MOST_ANSWERS: usize = 300;

/// In milliseconds, how far apart failures of a burst are at most.
const NEAR: u64 = 1000;

/// How many bursts end a session.
const MOST_BURSTS: u64 = 16;

/// The answers of a stream.
#[derive(Drop)]
pub struct Failures {
    /// Of each answer its time in milliseconds, in eight bytes, and what it brought: 0 a report, 1 a failure, 2 nothing.
    answers: Vec<u8>,
    /// When transfers failed since a report came.
    times: Vec<u64>,
}

/// In milliseconds, how long the next answer takes: few are over a second where they come fast.
fn wait(dice: &mut Dice, is_fast: bool) -> u64 {
    let far = if is_fast { 40 } else { 2 };
    if dice.one_in(far) {
        [1001, 1100, 5000, 86_400_000]
            .get(dice.below(4))
            .copied()
            .unwrap_or(0)
    } else {
        [0, 20, 999, 1000].get(dice.below(4)).copied().unwrap_or(0)
    }
}

/// What the next answer brings: a report as often as is said, and nothing one time in three of the others, or never.
fn answer(dice: &mut Dice, reports: usize, has_empty: bool) -> Answer {
    if dice.one_in(reports) {
        Answer::Report
    } else if has_empty && dice.one_in(3) {
        Answer::Nothing
    } else {
        Answer::Failed
    }
}

impl Failures {
    pub fn new(alloc: Global) -> Failures {
        Failures {
            answers: Vec::new(alloc),
            times: Vec::new(alloc),
        }
    }

    /// The answers of the last stream.
    pub fn answers(&self) -> &[u8] {
        &self.answers
    }

    /// Plays one stream.
    pub fn play(&mut self, dice: &mut Dice, tally: &mut Tally) -> Result<(), Stop> {
        self.answers.clear();
        self.times.clear();
        let limit = [0, 1000, 10_000, 65_535_000]
            .get(dice.below(4))
            .copied()
            .unwrap_or(0);
        let is_fast = dice.one_in(2);
        let reports = [3, 30, 1000].get(dice.below(3)).copied().unwrap_or(3);
        let has_empty = dice.one_in(2);
        let mut now = 0u64;
        let mut row = None;
        for _ in 0..MOST_ANSWERS {
            now = now.saturating_add(wait(dice, is_fast));
            let brought = answer(dice, reports, has_empty);
            let before = row;
            row = row_after(brought, now, before);
            let is_first = self.take(now, brought)?;
            let is_told = notice_of_row(0, before, row).is_some();
            right(is_told == is_first, "the first of a burst isn't told alone")?;
            let is_over = is_endless(row, limit);
            right(
                is_over == self.is_over(limit),
                "failures end early, or late",
            )?;
            if is_over {
                return tally.refuse(&"A9");
            }
        }
        Ok(())
    }

    /// An answer came. Whether it is the first failure of a burst.
    fn take(&mut self, now: u64, answer: Answer) -> Result<bool, Stop> {
        self.answers.extend_from_slice(&now.to_be_bytes())?;
        self.answers.push(match answer {
            Answer::Report => 0,
            Answer::Failed => 1,
            Answer::Nothing => 2,
        })?;
        if answer == Answer::Report {
            self.times.clear();
        }
        if answer != Answer::Failed {
            return Ok(false);
        }
        let is_near = match self.times.last() {
            Some(last) => now.saturating_sub(*last) <= NEAR,
            None => false,
        };
        self.times.push(now)?;
        Ok(!is_near)
    }

    /// Whether a burst is longer than the limit, or there are too many.
    fn is_over(&self, limit: u64) -> bool {
        let mut bursts = 0u64;
        let mut first = 0;
        let mut last = None;
        for time in &self.times {
            let is_near = match last {
                Some(last) => time.saturating_sub(last) <= NEAR,
                None => false,
            };
            if !is_near {
                bursts = bursts.wrapping_add(1);
                first = *time;
            }
            last = Some(*time);
        }
        bursts >= MOST_BURSTS || last.unwrap_or(0).saturating_sub(first) > limit
    }
}

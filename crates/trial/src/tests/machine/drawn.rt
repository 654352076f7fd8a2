//! How much is tried; numbers that look like drawn ones; and a row of steps of one worker.

use super::{beginning, going, noise};
use joint::{Op, Step};
use std::env;

/// A number of the environment, or what is usual: the gate's sweep has a test try each order, by a TRIAL_ORDERS of 1, where else it
/// tries one of so many.
pub fn number_in(rt: &HostRuntime, name: &str, usual: u32) -> u32 {
    match env::var(rt, name) {
        Ok(number) => number.parse::<u32>().unwrap_or(usual),
        Err(_) => usual,
    }
}

/// The next of a row of numbers that look like drawn ones: the greatest bits do.
pub fn next(number: u64) -> u64 {
    number
        .wrapping_mul(6_364_136_223_846_793_005)
        .wrapping_add(1_442_695_040_888_963_407)
}

/// A pin, and then one insertion after another, each of 36 steps of which some come after its end.
pub fn step_at(number: u64) -> Step<u64> {
    if number == 0 {
        beginning(0, Op::Pin)
    } else if number % 37 == 10 {
        beginning(0, Op::Insert(number, number))
    } else {
        going(0, noise(false, None))
    }
}

//! The words of the command line.

ghost use Rattle.std.specs.Prelude.{◌≡◌, ◌+◌, ◌-◌, ◌*◌, ◌^◌, ◌<◌, ◌&&◌, nat_le, length, map, Some, SomeIff, option_map};
ghost use Rattle.std.specs.List.{list_all};
ghost use Rattle.tb_twobit.specs.Words as words;
ghost use Rattle.tb_twobit.specs.Words.{command_of, go_with, number_of, digits_value, is_digit};
ghost use Rattle.tb_twobit.specs.calls.Asked.{command, events_of, go_of, interval_of};

use super::limits::{Interval, Limits};

/// A source file, and the limits of its run.
#[derive(Clone, Copy, Debug)]
pub struct Run<'a> {
    pub source: &'a str,
    pub limits: Limits,
}

/// What the words of the command line ask for.
#[derive(Clone, Copy, Debug)]
pub enum Asked<'a> {
    /// Compiles the file and runs it on MAC.
    Go(Run<'a>),
    /// Does so too, and puts a report of the words that the run holds in place of what it puts.
    Space(Run<'a>, Interval),
}

/// The fewest and the most words of a heap.
const HEAP_WORDS: (u64, u64) = (1024, 33_554_432);

/// What the words ask for, or None where they are no command.
pub fn asked_for<'a>(words: &[&'a str]) -> Option<Asked<'a>>
    ensures { option_map command result ≡ command_of (map (λ w. w.now) words.now) }
{
    if words.len() == 5 && is_on_mac("go", words[0], words[1]) {
        Some(Asked::Go(run_in(words[2], words[3], words[4])?))
    } else if words.len() == 6 && is_on_mac("space", words[0], words[1]) {
        let run = run_in(words[2], words[3], words[4])?;
        Some(Asked::Space(run, interval(words[5])?))
    } else {
        None
    }
}

/// Whether the words are the name of a command, and the machine MAC.
fn is_on_mac(name: &'static str, command: &str, machine: &str) -> bool
    ensures { result ≡ words.is_on_mac name.now command.now machine.now }
{
    command == name && machine == "mac"
}

fn run_in<'a>(source: &'a str, heap: &str, steps: &str) -> Option<Run<'a>>
    ensures { option_map go_of result ≡ go_with source.now (number_of heap.now) (number_of steps.now) }
{
    within(source, number(heap)?, number(steps)?)
}

fn within<'a>(source: &'a str, heap: u64, steps: u64) -> Option<Run<'a>>
    ensures { option_map go_of result ≡ go_with source.now (Some heap) (Some steps) }
{
    if source.is_empty() || heap < HEAP_WORDS.0 || heap > HEAP_WORDS.1 {
        None
    } else {
        let limits = Limits {
            heap: heap as u32,
            steps,
        };
        Some(Run { source, limits })
    }
}

fn interval(word: &str) -> Option<Interval>
    ensures { option_map events_of result ≡ interval_of (number_of word.now) }
{
    let events = number(word)?;
    if events == 0 {
        None
    } else {
        Some(Interval { events })
    }
}

/// The number that 1 to 20 decimal digits stand for, where it is below 2^64.
fn number(word: &str) -> Option<u64>
    ensures { result ≡ number_of word.now }
{
    let digits = word.as_bytes();
    if !digits.is_empty() && digits.len() <= 20 && are_digits(digits) {
        value(digits)
    } else {
        None
    }
}

fn are_digits(digits: &[u8]) -> bool
    ensures { result ≡ list_all is_digit digits.now }
{
    digits.iter().all(|digit| 48 <= *digit && *digit <= 57)
}

fn value(digits: &[u8]) -> Option<u64>
    ensures { SomeIff result (digits_value digits.now < 2 ^ 64) (digits_value digits.now) }
{
    let mut number = 0;
    for digit in digits {
        match with_digit(number, *digit) {
            Some(longer) => number = longer,
            None => return None,
        }
    }
    Some(number)
}

/// The number with one more decimal digit, where it is below 2^64.
fn with_digit(number: u64, digit: u8) -> Option<u64>
    ensures { SomeIff result (number * 10 + (digit - 48) < 2 ^ 64) (number * 10 + (digit - 48)) }
{
    number
        .checked_mul(10)?
        .checked_add(u64::from(digit.saturating_sub(b'0')))
}

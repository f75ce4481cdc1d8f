// Prints what a proofreader checks of a year before its wall sheet goes to print.
#![tactic(auto)]

mod print;
mod sheet;
mod year;

use print::print_year;
use std::{env, io};
use year::{BadYear, year_from};

// What is wrong with a word is said here, where the word is at hand: the error has none, since it is copied.
fn answer(rt: &HostRuntime, word: &str) -> io::Result<()> {
    match year_from(word.as_bytes()) {
        Ok(year) => print_year(rt, year),
        Err(BadYear::NotFourDigits) => println!(rt;
            "almanac: '{word}' is not a year; write four digits, as in 2024"
        ),
        Err(BadYear::OutOfRange(year)) => println!(rt;
            "almanac: {year} is outside the years 1900 to 2199"
        ),
    }
}

fn main(rt: HostRuntime) -> io::Result<()> {
    let mut words = env::args(&rt)?;
    let _program = words.next();
    match (words.next(), words.next()) {
        (Some(word), None) => answer(&rt, word.as_str()),
        _ => println!(rt; "almanac: name one year from 1900 to 2199, as in: almanac 2024"),
    }
}

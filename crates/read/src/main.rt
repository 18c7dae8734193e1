// read METER ORDINAL FIRST SECOND: the record of a meter with that ordinal, out of the first antenna's block or the second's. Prints one line:
// antenna, bit count and the payload in hexadecimal, or "refused N", with " at P" where there is a place. It only reads, calls and writes: what it
// prints is `read_text::print` of its arguments and its files. Where one cannot be used, it says so on standard error and prints nothing.
#![tactic(auto)]

use arrayvec::ArrayVec;
use std::env::{Env, FillError};
use std::fs::File;
use std::io::Write;
use std::{io, str};

// The most digits of an argument.
const DIGITS: usize = 32;

// The most bytes of a path.
const PATH: usize = 4096;

// The most bytes of the system's words for an error.
const MESSAGE: usize = 320;

const CANNOT_OPEN: &str = "read: this block cannot be opened: ";

const CANNOT_READ: &str = "read: this block cannot be read: ";

// Whether there is an argument of this number.
fn is_given(rt: &HostRuntime, number: usize) -> bool {
    !matches!(rt.arg(number, &mut []), Err(FillError::NotPresent))
}

// An argument's bytes; none where there are more than fit.
fn argument<const CAP: usize>(rt: &HostRuntime, number: usize) -> Option<ArrayVec<u8, CAP>> {
    let mut bytes = [0u8; CAP];
    let n = rt.arg(number, &mut bytes).ok()?;
    let mut argument = ArrayVec::from_array_in((), bytes);
    argument.truncate(n);
    Some(argument)
}

fn say(rt: &HostRuntime, sentence: &str) -> io::Result<()> {
    rt.stderr().write_all(sentence.as_bytes())
}

// The system's words for an error, without the number behind them.
fn words_of(message: &str) -> &str {
    match message.split_once(" (os error ") {
        Some((words, _)) => words,
        None => message,
    }
}

// Says of an error why there is no block.
fn say_why(rt: &HostRuntime, error: io::Error) -> io::Result<()> {
    let mut message = ArrayVec::<u8, MESSAGE>::new();
    write!(message, "{error}")?;
    say(rt, words_of(str::from_utf8(&message).unwrap_or("")))
}

fn say_of_path(rt: &HostRuntime, sentence: &str, path: &[u8], error: io::Error) -> io::Result<()> {
    say(rt, sentence)?;
    rt.stderr().write_all(path)?;
    say(rt, ": ")?;
    say_why(rt, error)?;
    say(rt, "\n")
}

fn say_no_number(rt: &HostRuntime, name: &str) -> io::Result<()> {
    say(rt, "read: ")?;
    say(rt, name)?;
    say(
        rt,
        " is to be a number from 0 to 4294967295, in decimal digits\n",
    )
}

fn say_cut(rt: &HostRuntime, name: &str) -> io::Result<()> {
    say(rt, "read: the path of ")?;
    say(rt, name)?;
    say(rt, " is longer than 4095 bytes\n")
}

// Opens a block. A path that is no UTF-8 names no file here.
fn open(rt: &HostRuntime, path: &[u8]) -> io::Result<File> {
    let Ok(text) = str::from_utf8(path) else {
        return Err(io::Error::from(io::ErrorKind::InvalidInput));
    };
    File::open(rt, text)
}

// An argument of more digits counts as none at all.
fn print(rt: &HostRuntime, first: &[u8], second: &[u8]) -> io::Result<()> {
    let meter: ArrayVec<u8, DIGITS> = argument(rt, 1).unwrap_or(ArrayVec::new());
    let ordinal: ArrayVec<u8, DIGITS> = argument(rt, 2).unwrap_or(ArrayVec::new());
    match read_text::print(&meter, &ordinal, first, second) {
        Ok(text) => {
            let mut output = rt.stdout();
            output.write_all(text.as_bytes())?;
            output.flush()
        }
        Err(read_text::NoNumber::Meter) => say_no_number(rt, "METER"),
        Err(read_text::NoNumber::Ordinal) => say_no_number(rt, "ORDINAL"),
    }
}

fn answer(rt: &HostRuntime, first_path: &[u8], second_path: &[u8]) -> io::Result<()> {
    let mut one = match open(rt, first_path) {
        Ok(file) => file,
        Err(e) => return say_of_path(rt, CANNOT_OPEN, first_path, e),
    };
    let mut two = match open(rt, second_path) {
        Ok(file) => file,
        Err(e) => return say_of_path(rt, CANNOT_OPEN, second_path, e),
    };
    let first = match input::block(&mut one) {
        Ok(block) => block,
        Err(e) => return say_of_path(rt, CANNOT_READ, first_path, e),
    };
    let second = match input::block(&mut two) {
        Ok(block) => block,
        Err(e) => return say_of_path(rt, CANNOT_READ, second_path, e),
    };
    print(rt, &first, &second)
}

fn main(rt: HostRuntime) -> io::Result<()> {
    if !is_given(&rt, 4) || is_given(&rt, 5) {
        return say(&rt, "usage: cocklejoist read METER ORDINAL FIRST SECOND\n");
    }
    let Some(first) = argument::<PATH>(&rt, 3) else {
        return say_cut(&rt, "FIRST");
    };
    let Some(second) = argument::<PATH>(&rt, 4) else {
        return say_cut(&rt, "SECOND");
    };
    answer(&rt, &first, &second)
}

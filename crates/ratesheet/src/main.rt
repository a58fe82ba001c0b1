// Prints the sheet of the curve file on standard input.
#![tactic(auto)]

ghost use Rattle.std.specs.Prelude.{◌≡◌, IfOk, IfSome, OnOk, length, take};
ghost use Rattle.std.specs.Io.{ReadsAtMost};
ghost use Rattle.sheet_text.specs.SheetText.{sheet_text};

use arrayvec::ArrayString;
use sheet_text::Text;
use std::env::{Env, FillError};
use std::fmt::Write as _;
use std::io;
use std::io::{ErrorKind, Read};
use std::process::ExitCode;

// What the arguments ask for.
#[derive(Clone, Copy)]
enum Request {
    Sheet,
    Help,
    Version,
    Unknown,
}

// What a single argument asks for.
fn asked_by(word: &[u8]) -> Request {
    match word {
        b"--help" => Request::Help,
        b"--version" => Request::Version,
        _ => Request::Unknown,
    }
}

fn asked(rt: &impl Env) -> Request {
    // No heap: longer than any word that is known.
    let mut word = [0u8; 16];
    match rt.arg(1, &mut word) {
        Err(FillError::NotPresent) => Request::Sheet,
        Err(FillError::TooLong) => Request::Unknown,
        Ok(n) => match rt.arg(2, &mut []) {
            Err(FillError::NotPresent) => asked_by(&word[..n]),
            _ => Request::Unknown,
        },
    }
}

// An error's words, without the number that std puts behind those of the system.
fn reason(text: &str) -> &str {
    text.split_once(" (os error ")
        .map_or(text, |(words, _)| words)
}

// Says on standard error what could not be done, and why.
fn fail(rt: &impl Eprint, what: &str, error: io::Error) {
    let mut text = ArrayString::<256>::new();
    let _ = write!(text, "{error}");
    let why = reason(&text);
    let _ = eprintln!(rt; "{what}: {why}");
}

// The status by which a shell shows that a program wrote to a pipe that nobody reads.
const NOBODY_READS: u8 = 141;

// Writes the text to standard output, or says why it cannot; where nobody reads the output any more, nothing is said.
fn print(rt: &(impl Print + Eprint), text: &[u8]) -> ExitCode {
    if let Err(error) = rt.write_all(text) {
        if error.kind() == ErrorKind::BrokenPipe {
            return ExitCode::from(NOBODY_READS);
        }
        fail(rt, "ratesheet: cannot write standard output", error);
    }
    ExitCode::SUCCESS
}

fn print_help(rt: &(impl Print + Eprint)) -> ExitCode {
    print(
        rt,
        b"usage: ratesheet [--help | --version] < FILE\n\
        \n\
        Prints the sheet of a curve file: shape code and number of points on a first line, then area and\n\
        factor in steps of 25 tenths of a square metre, from the first point's area up to the last point's.\n\
        A file that is refused gives one line instead, such as: refused 6 at 0.\n\
        \n\
        The exit status is 0 unless a signal ends it. What cannot be read or written is said on standard\n\
        error. The command factor-curves sheet FILE has an exit status that tells. The manual is\n\
        ratesheet(1).\n\
        \n\
        \x20 --help     print this text\n\
        \x20 --version  print the version\n",
    )
}

// The first 776 bytes of a file decide its sheet.
const READ_MOST: usize = sheet_text::FILE_MOST + 1;

// Reads until the buffer is full or the input ends. A read that a signal interrupts fails and is not tried again.
// (std's `read_to_end` would try it again.)
fn read_all<R: Read>(input: &mut R, buf: &mut [u8]) -> io::Result<usize>
    ensures bound { ReadsAtMost result buf.new }
    ensures bytes { IfOk result (λ n. IfSome (R.remaining input.old)
        (λ bytes. take n buf.new ≡ take (length buf.old) bytes)) }
{
    let mut n = 0;
    while n < buf.len() {
        let more = input.read(&mut buf[n..])?;
        if more == 0 {
            return Ok(n);
        }
        n += more;
    }
    Ok(n)
}

// The sheet of the file that a reader gives.
fn sheet<R: Read + Drop>(mut input: R, text: &mut Text) -> io::Result<()>
    ensures { OnOk result (IfSome (R.remaining input) (λ bytes. text.new.bytes ≡ sheet_text bytes)) }
{
    // No heap.
    let mut bytes = [0u8; READ_MOST];
    let n = read_all(&mut input, &mut bytes)?;
    sheet_text::write_text(&bytes[..n], text);
    Ok(())
}

fn print_sheet(rt: &(impl Print + Eprint), input: impl Read + Drop) -> ExitCode {
    let mut text = Text::new();
    match sheet(input, &mut text) {
        Ok(()) => print(rt, text.as_bytes()),
        Err(error) => {
            fail(rt, "ratesheet: cannot read standard input", error);
            ExitCode::SUCCESS
        }
    }
}

fn main(rt: HostRuntime) -> ExitCode {
    match asked(&rt) {
        Request::Sheet => print_sheet(&rt, rt.stdin()),
        Request::Help => print_help(&rt),
        Request::Version => print(&rt, b"ratesheet 0.8.0\n"),
        Request::Unknown => {
            let _ = eprintln!(rt; "usage: ratesheet [--help | --version] < FILE");
            ExitCode::SUCCESS
        }
    }
}

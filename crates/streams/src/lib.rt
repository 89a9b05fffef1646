// Standard input and output of the programs: what fails there is said on standard error, with the system's own reason. A program's status is 0 whatever it
// printed, so that the message, and the line that is missing on standard output, are all that tells.
#![tactic(auto)]

ghost use Rattle.std.specs.Prelude.{◌≤◌, ◌<◌, length, take, IfOk, IfSome};
ghost use Rattle.std.specs.Io.{ReadsAtMost};
ghost use Rattle.std.specs.Io.KnownBytes.{Consumes, IsAtEnd};

use std::io;
use std::io::{Eprint, Input, Print, Read};

// The system's reason as std prints it, without the number that std puts after it.
fn reason(text: &str) -> &str {
    match text.split_once(" (os error ") {
        Some((words, _)) => words,
        None => text,
    }
}

// Says on standard error what failed, as the caller names it, a colon and the system's reason, with std's number where there is no memory to cut it off.
fn say(rt: &HostRuntime, what: &[u8], error: io::Error) -> io::Result<()> {
    rt.stderr().write_all(what)?;
    match format!(in rt.alloc(); "{error}") {
        Ok(text) => {
            let why = reason(text.as_str());
            eprintln!(rt; ": {why}")
        }
        Err(_) => eprintln!(rt; ": {error}"),
    }
}

// Reads until `buf` is full or the input has ended, and answers how many bytes stand at the front of `buf`. The first read that fails ends it.
pub fn read_full<R: Read>(input: &mut R, buf: &mut [u8]) -> io::Result<usize>
    ensures in_bounds { ReadsAtMost result buf.new }
    ensures bytes { IfOk result (λ n. Consumes (R.remaining input.old) (R.remaining input.new) (take n buf.new)) }
    ensures whole { IfOk result (λ n. n < length buf.new → IsAtEnd (R.remaining input.new)) }
{
    let mut size = 0;
    // Kept: no index is counted: each turn goes on by what one read gave.
    while size < buf.len() {
        let n = input.read(&mut buf[size..])?;
        if n == 0 {
            break;
        }
        size += n;
    }
    Ok(size)
}

// Reads standard input as far as it is needed, until `buf` is full or the input has ended, and answers how many bytes stand at the front of `buf`. If a read
// fails it is said, `what` in front, and there is no answer.
pub fn input_whole(rt: &HostRuntime, what: &[u8], buf: &mut [u8]) -> Option<usize>
    ensures { IfSome result (λ n. n ≤ length buf.new) }
{
    match read_full(&mut rt.reader(), buf) {
        Ok(size) => Some(size),
        Err(error) => {
            let _said = say(rt, what, error);
            None
        }
    }
}

// Writes a text on standard output; if that fails it is said, `what` in front.
pub fn write_output(rt: &HostRuntime, what: &[u8], text: &[u8]) {
    if let Err(error) = rt.write_all(text) {
        let _said = say(rt, what, error);
    }
}

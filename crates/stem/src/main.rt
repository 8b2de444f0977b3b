// The program: it reads standard input to its end and writes the text after the run, or the line `refused 5` if more than
// 65,536 bytes came. What could not be read or written is said on standard error, and then nothing claims success.
#![tactic(auto)]

ghost use Rattle.std.specs.Prelude.{◌≡◌, ◌≤◌, ◌<◌, IfOk, IfSome, OnOk, length, take};
ghost use Rattle.std.specs.Io.KnownBytes.{Appends, Consumes, IsAtEnd};
ghost use Rattle.paper.specs.Shipped.{shipped};
ghost use Rattle.paper.specs.Words.{stem};
ghost use Rattle.texts.specs.Texts.{text_outcome};
ghost use Rattle.stem.specs.Input.{came};
ghost use Rattle.stem.specs.Output.{written};

use answers::TooLong;
use filling::fill;
use std::fmt;
use std::io::{Read, Write};
use std::process::ExitCode;

// What could not be done.
#[derive(Clone, Copy)]
enum Failure {
    Unread,
    Unwritten,
}

impl fmt::Display for Failure {
    fn fmt<W: fmt::Write>(&self, f: &mut fmt::Formatter<W>) -> fmt::Result {
        f.write_str(match self {
            Failure::Unread => "stem: standard input cannot be read",
            Failure::Unwritten => "stem: the answer was not written whole",
        })
    }
}

// Reads until the input ends, however small the pieces in which it comes, or until the buffer is full, and says how many bytes came.
fn read_input<R: Read>(from: &mut R, buffer: &mut [u8]) -> Result<usize, Failure>
    ensures count { came result ≤ length buffer.new }
    ensures taken { IfOk result (λ count.
        Consumes (R.remaining from.old) (R.remaining from.new) (take count buffer.new)) }
    ensures ended { IfOk result (λ count. count < length buffer.new → IsAtEnd (R.remaining from.new)) }
{
    fill(from, buffer).map_err(|_| Failure::Unread)
}

// Writes the text after the run, or the refusal.
fn write_answer<W: Write>(to: &mut W, text: &mut [u8]) -> Result<(), Failure>
    ensures { OnOk result
        (Appends (W.contents to.old) (W.contents to.new) (written (text_outcome (stem shipped) text.old))) }
{
    let wrote = match texts::run(text) {
        Ok(_) => to.write_all(text),
        Err(TooLong) => to.write_all(b"refused 5\n"),
    };
    wrote.map_err(|_| Failure::Unwritten)
}

// The whole run, from any reader to any writer. The buffer holds one byte more than a text may have, so that a longer one is seen and
// refused.
fn run<R: Read, W: Write>(from: &mut R, to: &mut W) -> Result<(), Failure>
    ensures { OnOk result (IfSome (R.remaining from.old)
        (λ input. Appends (W.contents to.old) (W.contents to.new) (written (text_outcome (stem shipped) input)))) }
{
    let mut buffer = [0u8; 65537];
    let count = read_input(from, &mut buffer)?;
    write_answer(to, &mut buffer[..count])
}

// If what failed cannot be said on standard error either, the status alone says that something did.
fn main(rt: HostRuntime) -> ExitCode {
    match run(&mut rt.stdin(), &mut rt.stdout()) {
        Ok(()) => ExitCode::SUCCESS,
        Err(failure) => {
            let _ = rt.eprintln(failure);
            ExitCode::FAILURE
        }
    }
}

//! What the program says about itself, if its one word asks for it.
//!
//! The texts are the program's own, and no contract has them. `main` writes them instead of a run of `top`,
//! for which these words are bad ones.
ghost use Rattle.std.specs.Prelude.{◌≡◌, map, string_bytes};
ghost use Rattle.vchan_top.specs.About.{about_of, Tells};
ghost use Rattle.vchan_top.specs.Status.{IsWritten, status_line};

use crate::entry::report_status;
use crate::status::Status;
use vchan_io::{Sink, WriteFault, write_all};

/// What the program can say about itself.
#[derive(Clone, Copy)]
pub enum About {
    /// The words that it takes, what it then reads and prints, and its statuses.
    Help,
    /// Its name and number, and the kit with which it is proved.
    Version,
}

/// Returns what these words ask the program to say about itself. Returns `None` if and only if they aren't
/// one of the two words, alone.
pub fn about_in(words: &[String]) -> Option<About>
    ensures { result ≡ about_of (map string_bytes words.now) }
{
    match words {
        [word] if word.as_str() == "--help" => Some(About::Help),
        [word] if word.as_str() == "--version" => Some(About::Version),
        _ => None,
    }
}

impl About {
    /// Returns the text, with a line feed after each line.
    pub fn text(self) -> &'static [u8] {
        match self {
            About::Help => HELP,
            About::Version => VERSION,
        }
    }
}

/// Writes a text of the program's own to `out`. The status is `Done`, or `WriteFault` only if the count of
/// `out` rose; a part of the text was written then. `err` gets the line of the status, or a
/// proper prefix of it if its own count rose.
pub fn tell<K: Sink, E: Sink>(text: &[u8], out: &mut K, err: &mut E) -> Status
    ensures tells { Tells result text.now (K.held out.old) (K.held out.new) (K.faults out.old) (K.faults out.new) }
    ensures line { IsWritten (status_line result) (E.held err.old) (E.held err.new) (E.faults err.old) (E.faults err.new) }
{
    let status = match write_all(out, text) {
        Ok(()) => Status::Done,
        Err(WriteFault) => Status::WriteFault,
    };
    let _ = report_status(&status, err);
    status
}

const VERSION: &[u8] = b"vchan 0.2.0\nproved with rattle-kit-13f logic dac8208d650f15bf\n";

const HELP: &[u8] = b"usage: vchan WORDS

    step            reads a script of calls on one page with two ends, and prints
                    what each call answers
    decode control  reads a captured stream of a qrexec control channel, as byte
                    strings, and prints its messages
    decode data     the same of a data channel
    run W           reads a scenario of domains and calls, runs it with W workers,
                    1 to 16, and prints a line for each call
    load N C        makes a scenario of C calls, 1 to 2,000, from a number N, 0 to
                    65,535, runs it with 4 workers, and prints sums over its calls
    pipe L R        passes any bytes through a channel whose rings have the orders
                    L and R, 10 to 20 but not both 10 or both 11, from one thread
                    to another, and prints what comes out
    persist NAME    reads a list of clients, serves them one after another by the
                    service NAME, and prints a line for what each is answered
    relay K W       passes any bytes through K relays with W workers, both 1 to 16,
                    and prints how many bytes went through each channel, and in
                    hexadecimal what comes out behind the last
    --help          prints this text
    --version       prints the version, and the kit that it is proved with

A command but load, which reads nothing, reads standard input to its end,
4,194,304 bytes at most, and then writes its text to standard output.
docs/SCRIPTS.md has the lines of a script and of a captured stream,
docs/RUNS.md the keys of a scenario and what run and load print,
docs/CHANNELS.md what relay prints and the lines of a list of clients.

statuses, each but 0 and 8 with a line on standard error:

    0   the whole text was written
    2   these words are no command's
    3   standard input could not be read to its end
    4   the input is too long
    5   the input is no script, no list of byte strings, no scenario, or no list
        of clients; the line has the number of the first bad line, or the place
        in the scenario, and what is wrong with it
    6   standard output failed
    7   out of memory
    8   a word isn't UTF-8

The launcher ./vchan has two of its own: 127 where the program has to be built
and there is no command rt, and 70 where the build fails.
";

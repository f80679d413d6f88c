ghost use Rattle.std.specs.Prelude.{◌≡◌, ◌≤◌, drop, map, string_bytes, IfSome};
ghost use Rattle.std.specs.Option.{option_map};
ghost use Rattle.step_script.specs.Language.Opening.{orders_of};
ghost use Rattle.vchan_top.specs.Command.{channel_of, command_of, load_of, number_within, persist_of, pipe_of, relay_of, run_of, KeepsLimits, reads_input};

use crate::service_name::ServiceName;
use ring_words::{Orders, check_orders};
use script_words::parse_number;
use stream_text::Channel;

/// The greatest number that is read as an order. It is the greatest that an order word can hold.
const MOST_ORDER: u32 = 65_535;

/// What the words tell the program to do.
#[derive(Drop)]
pub enum Command {
    /// Reads a step script and plays it on one thread.
    Step,
    /// Reads the pieces of a stream of this kind of channel, and prints its messages.
    Decode(Channel),
    /// Reads a scenario, runs it, and prints its report.
    Run {
        /// The number of workers that run it, from 1 to 16.
        workers: u32,
    },
    /// Generates a scenario, runs it, and prints the sums of its report. It reads nothing.
    Load {
        /// The number from which the scenario is generated, at most 65,535.
        number: u32,
        /// The number of calls of the scenario, from 1 to 2,000.
        calls: u32,
    },
    /// Reads any bytes, passes them through one channel from one thread to another, and prints them.
    Pipe {
        /// The orders of the channel's page.
        orders: Orders,
    },
    /// Reads a list of clients, serves them one after another, and prints the answer to each.
    Persist {
        /// The service that serves them.
        name: ServiceName,
    },
    /// Reads any bytes, passes them through a row of relays, and prints how many went through each channel,
    /// and what came out of the last.
    Relay {
        /// The number of relays, from 1 to 16.
        hops: u32,
        /// The number of workers that turn them, from 1 to 16.
        workers: u32,
    },
}

impl Command {
    /// Returns whether it reads its input: all commands but `load` do.
    pub(crate) fn reads_input(&self) -> bool
        ensures { result ≡ reads_input self.now }
    {
        match self {
            Command::Step | Command::Decode(_) | Command::Run { .. } => true,
            Command::Pipe { .. } | Command::Persist { .. } | Command::Relay { .. } => true,
            Command::Load { .. } => false,
        }
    }
}

/// Returns the command of these words. Its numbers keep their limits. Returns `None` if and only if the words
/// are no command.
pub fn command_in(words: &[String]) -> Option<Command>
    ensures command { result ≡ command_of (map string_bytes words.now) }
    ensures limits { IfSome result KeepsLimits }
{
    match words {
        [word] if word.as_str() == "step" => Some(Command::Step),
        [word, channel] if word.as_str() == "decode" => decode_in(channel),
        [word, workers] if word.as_str() == "run" => run_in(workers),
        [word, name] if word.as_str() == "persist" => persist_in(name),
        [word, number, calls] if word.as_str() == "load" => load_in(number, calls),
        [word, left, right] if word.as_str() == "pipe" => pipe_in(left, right),
        [word, hops, workers] if word.as_str() == "relay" => relay_in(hops, workers),
        _ => None,
    }
}

/// Returns the command that decodes the kind of channel that a word names.
fn decode_in(channel: &String) -> Option<Command>
    ensures command { result ≡ option_map Command.Decode (channel_of (string_bytes channel.now)) }
    ensures limits { IfSome result KeepsLimits }
{
    let channel = channel_in(channel)?;
    Some(Command::Decode(channel))
}

/// Returns the kind of channel that a word names.
fn channel_in(word: &String) -> Option<Channel>
    ensures { result ≡ channel_of (string_bytes word.now) }
{
    match word.as_str() {
        "control" => Some(Channel::Control),
        "data" => Some(Channel::Data),
        _ => None,
    }
}

/// Returns the command that runs a scenario with the number of workers in a word.
fn run_in(workers: &String) -> Option<Command>
    ensures command { result ≡ run_of (string_bytes workers.now) }
    ensures limits { IfSome result KeepsLimits }
{
    let workers = number_within(workers, 1, 16)?;
    Some(Command::Run { workers })
}

/// Returns the command that generates a scenario from two numbers, and runs it.
fn load_in(number: &String, calls: &String) -> Option<Command>
    ensures command { result ≡ load_of (string_bytes number.now) (string_bytes calls.now) }
    ensures limits { IfSome result KeepsLimits }
{
    let number = number_within(number, 0, 65_535)?;
    let calls = number_within(calls, 1, 2000)?;
    Some(Command::Load { number, calls })
}

/// Returns the command that passes bytes through a page with the orders in two words.
fn pipe_in(left: &String, right: &String) -> Option<Command>
    ensures command { result ≡ pipe_of (string_bytes left.now) (string_bytes right.now) }
    ensures limits { IfSome result KeepsLimits }
{
    let left = number_within(left, 0, MOST_ORDER)?;
    let right = number_within(right, 0, MOST_ORDER)?;
    let orders = orders_in(left as u16, right as u16)?;
    Some(Command::Pipe { orders })
}

/// Returns the orders of a page with these two numbers.
#[tactic(auto, using(step_script::proofs::Language::OrdersLaws::orders_of_bad))]
fn orders_in(left: u16, right: u16) -> Option<Orders>
    ensures { result ≡ orders_of left right }
{
    match check_orders(left, right) {
        Ok(orders) => Some(orders),
        Err(_) => None,
    }
}

/// Returns the command that serves clients by the service that a word names.
fn persist_in(name: &String) -> Option<Command>
    ensures command { result ≡ persist_of (string_bytes name.now) }
    ensures limits { IfSome result KeepsLimits }
{
    let name = ServiceName::of(name.as_bytes())?;
    Some(Command::Persist { name })
}

/// Returns the command that passes bytes through a number of relays with a number of workers.
fn relay_in(hops: &String, workers: &String) -> Option<Command>
    ensures command { result ≡ relay_of (string_bytes hops.now) (string_bytes workers.now) }
    ensures limits { IfSome result KeepsLimits }
{
    let (hops, workers) = (number_within(hops, 1, 16)?, number_within(workers, 1, 16)?);
    Some(Command::Relay { hops, workers })
}

/// Returns the number in a word, if it is from `least` to `most`. It is written in decimal digits without a leading
/// zero, or as `0`.
fn number_within(word: &String, least: u32, most: u32) -> Option<u32>
    ensures number { result ≡ number_within least most (string_bytes word.now) }
    ensures limits { IfSome result (λ number. (least ≤ number) × (number ≤ most)) }
{
    let number = parse_number(word.as_bytes(), u64::from(most))?;
    if number < u64::from(least) {
        return None;
    }
    Some(number as u32)
}

/// Returns the words of a command among all arguments: those after the first, which is the program's own
/// name.
pub fn command_words(arguments: &[String]) -> &[String]
    ensures { result.now ≡ drop 1 arguments.now }
{
    match arguments {
        [] => arguments,
        [_, words @ ..] => words,
    }
}

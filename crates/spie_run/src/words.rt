// The arguments of the command line.
ghost use Rattle.std.specs.Prelude.{◌≡◌, ◌≤◌, ℕ, List, IfSome, map, option_map, string_bytes};
ghost use Rattle.spie_run.specs.Words.{IsInRange, IsMaking, IsNamed, check_of, command_of, count_in, first_word, folder_of, load_of, make_of, making_of, name_in, pcap_of, play_of, reads, replay_of, third_of};

use gate_core::MOST_PASSES;
use made_trace::MOST_MADE;
use spie_base::decimal;
use trace_format::{MOST_NUMBER, is_name};

/// Which trace is made: by this seed, of so many packets, 1 to `MOST_MADE`.
#[derive(Clone, Copy, PartialEq, Eq, Debug)]
pub struct Making {
    pub seed: u64,
    pub packets: u32,
}

/// What the arguments ask for.
#[derive(Clone, Copy, PartialEq, Eq, Debug)]
pub enum Command {
    /// `replay W`, also with a folder: a trace is replayed by W workers, 1 to 16.
    Replay { workers: u32 },
    /// `play`: the steps of a script are done on the gate core.
    Play,
    /// `pcap NAME FIRST SKIP`: the packets of a capture become lines of the router that `capture_word` finds.
    Pcap { first: u32, skip: u32 },
    /// `pcap count`: how many records of a capture became what.
    PcapCount,
    /// `make SEED PACKETS`: the made trace is written.
    Make { made: Making },
    /// `load SEED PACKETS W`: the made trace is replayed by W workers, 1 to 16, and summed up in one line.
    Load { made: Making, workers: u32 },
    /// `check`: the lines of a certificate are judged.
    Check,
}

/// The greatest SKIP.
const MOST_SKIP: u64 = 4_294_967_295;

/// The greatest SEED.
const MOST_SEED: u64 = 18_446_744_073_709_551_615;

// The count that a word says, from 1 to `most`.
fn count_in(word: &String, most: u32) -> Option<u32>
    ensures count { result ≡ count_in most (string_bytes word.now) }
    ensures range { IfSome result (λ n. (1 ≤ n) × (n ≤ most)) }
{
    match decimal(word.as_bytes(), u64::from(most)) {
        Some(0) | None => None,
        Some(count) => Some(count as u32),
    }
}

// Behind `replay` stand W, or W and a folder's name.
fn replay_of(rest: &[String], most: u32) -> Option<Command>
    ensures command { result ≡ replay_of most (map string_bytes rest.now) }
    ensures range { IfSome result (λ command. IsInRange most command) }
{
    let workers = match rest {
        [workers] => workers,
        [workers, folder] if !folder.is_empty() => workers,
        _ => return None,
    };
    let workers = count_in(workers, most)?;
    Some(Command::Replay { workers })
}

// Behind `play` stands nothing.
fn play_of(rest: &[String]) -> Option<Command>
    ensures { result ≡ play_of (map string_bytes rest.now) }
{
    match rest {
        [] => Some(Command::Play),
        _ => None,
    }
}

// Behind `pcap` stand NAME, FIRST and SKIP, or `count`.
fn pcap_of(rest: &[String]) -> Option<Command>
    ensures command { result ≡ pcap_of (map string_bytes rest.now) }
    ensures range { (most : ℕ) → IfSome result (λ command. IsInRange most command) }
    ensures named { IfSome result (λ command. IsNamed command (first_word (map string_bytes rest.now))) }
{
    match rest {
        [word] if word.as_str() == "count" => Some(Command::PcapCount),
        [name, first, skip] if is_name(name.as_bytes()) => {
            let first = decimal(first.as_bytes(), MOST_NUMBER)?;
            let skip = decimal(skip.as_bytes(), MOST_SKIP)?;
            Some(Command::Pcap {
                first: first as u32,
                skip: skip as u32,
            })
        }
        _ => None,
    }
}

fn making_of(seed: &String, packets: &String) -> Option<Making>
    ensures made { result ≡ making_of (string_bytes seed.now) (string_bytes packets.now) }
    ensures range { IfSome result IsMaking }
{
    let seed = decimal(seed.as_bytes(), MOST_SEED)?;
    let packets = count_in(packets, MOST_MADE)?;
    Some(Making { seed, packets })
}

// Behind `make` stand SEED and PACKETS.
fn make_of(rest: &[String]) -> Option<Command>
    ensures command { result ≡ make_of (map string_bytes rest.now) }
    ensures range { (most : ℕ) → IfSome result (λ command. IsInRange most command) }
    ensures unnamed { (name : List ℕ) → IfSome result (λ command. IsNamed command name) }
{
    match rest {
        [seed, packets] => Some(Command::Make {
            made: making_of(seed, packets)?,
        }),
        _ => None,
    }
}

// Behind `load` stand SEED, PACKETS and W.
fn load_of(rest: &[String], most: u32) -> Option<Command>
    ensures command { result ≡ load_of most (map string_bytes rest.now) }
    ensures range { IfSome result (λ command. IsInRange most command) }
    ensures unnamed { (name : List ℕ) → IfSome result (λ command. IsNamed command name) }
{
    match rest {
        [seed, packets, workers] => {
            let made = making_of(seed, packets)?;
            let workers = count_in(workers, most)?;
            Some(Command::Load { made, workers })
        }
        _ => None,
    }
}

// Behind `check` stands nothing.
fn check_of(rest: &[String]) -> Option<Command>
    ensures { result ≡ check_of (map string_bytes rest.now) }
{
    match rest {
        [] => Some(Command::Check),
        _ => None,
    }
}

/// Whether a command reads an input.
pub(crate) fn reads(command: &Command) -> bool
    ensures { result ≡ reads command.now }
{
    !matches!(command, Command::Make { .. } | Command::Load { .. })
}

/// What the arguments ask for, with `most` workers at most, and `None` for an unknown command or wrong arguments. The
/// first word names the command, and each command looks at the words behind it.
pub fn command_of(words: &[String], most: u32) -> Option<Command>
    ensures command { result ≡ command_of most (map string_bytes words.now) }
    ensures range { IfSome result (λ command. IsInRange most command) }
    ensures named { IfSome result (λ command. IsNamed command (name_in (map string_bytes words.now))) }
{
    let [word, rest @ ..] = words else {
        return None;
    };
    if word.as_str() == "replay" {
        replay_of(rest, most)
    } else if word.as_str() == "play" {
        play_of(rest)
    } else if word.as_str() == "pcap" {
        pcap_of(rest)
    } else if word.as_str() == "make" {
        make_of(rest)
    } else if word.as_str() == "load" {
        load_of(rest, most)
    } else if word.as_str() == "check" {
        check_of(rest)
    } else {
        None
    }
}

// The last of three words.
fn third_word(words: &[String]) -> Option<&str>
    ensures { option_map (λ word. word.now) result ≡ third_of (map string_bytes words.now) }
{
    match words {
        [_, _, third] => Some(third.as_str()),
        _ => None,
    }
}

/// The folder of `replay W FOLDER`, and `None` where the arguments are others. It has one byte at least.
pub fn shelf_word(words: &[String]) -> Option<&str>
    ensures { option_map (λ folder. folder.now) result ≡ folder_of (map string_bytes words.now) }
{
    match command_of(words, MOST_PASSES) {
        Some(Command::Replay { .. }) => third_word(words),
        _ => None,
    }
}

/// The router of `pcap NAME FIRST SKIP`: the second argument, and nothing where there is none.
pub fn capture_word(words: &[String]) -> &[u8]
    ensures { result.now ≡ name_in (map string_bytes words.now) }
{
    match words {
        [_, name, ..] => name.as_bytes(),
        _ => b"",
    }
}

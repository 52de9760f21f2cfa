// From words to a command.
ghost use Rattle.std.specs.Prelude.{◌≡◌, ◌≤◌, length, IfOk, IfErr, IfSome, None, map, string_bytes};
ghost use Rattle.hy_base.specs.Lines.{digits, digits_from};
ghost use Rattle.hy_words.specs.Commands.{command_of, is_file, is_report, number_of, turns_of, with_turns, options_of};
ghost use Rattle.hy_words.specs.Reads.{Reads, IsWithin};

/// How many turns a run has where the words do not say.
pub const TURNS: u64 = 1_000_000_000;

/// How many turns the words may say at the most, 2^32.
pub const MOST_TURNS: u64 = 4_294_967_296;

/// What the words ask for. `file` is the place of the file's name among them.
#[derive(Clone, Copy, Debug, PartialEq, Eq)]
pub enum Command {
    /// Compile this source and run it.
    Run {
        file: usize,
    },
    /// Run this object file with at most so many turns, and tell its counts where `report` says so.
    Exec {
        file: usize,
        turns: u64,
        report: bool,
    },
}

/// The words are no command.
#[derive(Clone, Copy, Debug, PartialEq, Eq)]
pub struct Usage;

/// What the words after the file say: at most how many turns a run has, and whether its counts are told.
#[derive(Clone, Copy, Debug, PartialEq, Eq)]
pub struct Options {
    pub turns: u64,
    pub report: bool,
}

// Where the file stands.
const FILE: usize = 1;

fn is_file(word: &str) -> bool
    ensures { result ≡ is_file word.now }
{
    match word.as_bytes() {
        [] => false,
        [first, ..] => *first != b'-',
    }
}

fn is_report(word: &str) -> bool
    ensures { result ≡ is_report word.now }
{
    word == "--report"
}

// The number that decimal digits write.
fn value_of(word: &[u8]) -> Option<u64>
    requires { length word.now ≤ 10 }
    ensures { result ≡ digits_from 0 word.now }
{
    let mut value = 0u64;
    for byte in word {
        if *byte < b'0' || *byte > b'9' {
            return None;
        }
        value = 10 * value + u64::from(*byte - b'0');
    }
    Some(value)
}

fn number_of(word: &str) -> Option<u64>
    ensures { result ≡ number_of word.now }
{
    let bytes = word.as_bytes();
    if bytes.is_empty() || bytes.len() > 10 {
        return None;
    }
    let value = value_of(bytes)?;
    if value > MOST_TURNS {
        return None;
    }
    Some(value)
}

fn turns_of(name: &str, number: &str) -> Option<u64>
    ensures { result ≡ turns_of name.now number.now }
{
    if name != "--turns" {
        return None;
    }
    number_of(number)
}

fn with_turns(turns: Option<u64>, report: bool) -> Option<Options>
    ensures { result ≡ with_turns turns report }
{
    let turns = turns?;
    Some(Options { turns, report })
}

fn options_of(words: &[String]) -> Option<Options>
    ensures { result ≡ options_of (map string_bytes words.now) }
{
    match words {
        [] => with_turns(Some(TURNS), false),
        [report] => {
            if !is_report(report.as_str()) {
                return None;
            }
            with_turns(Some(TURNS), true)
        }
        [name, number] => with_turns(turns_of(name.as_str(), number.as_str()), false),
        [first, second, third] => {
            if is_report(first.as_str()) {
                with_turns(turns_of(second.as_str(), third.as_str()), true)
            } else if is_report(third.as_str()) {
                with_turns(turns_of(first.as_str(), second.as_str()), true)
            } else {
                None
            }
        }
        _ => None,
    }
}

/// The command that the words are; they are those after the program's name. No memory is taken.
pub fn read_words(words: &[String]) -> Result<Command, Usage>
    ensures command { IfOk result (Reads (map string_bytes words.now)) }
    ensures within { IfOk result (IsWithin words.now) }
    ensures usage { IfErr result (λ _. command_of (map string_bytes words.now) ≡ None) }
{
    let [verb, file, rest @ ..] = words else {
        return Err(Usage);
    };
    if !is_file(file.as_str()) {
        return Err(Usage);
    }
    if verb.as_str() == "run" && rest.is_empty() {
        return Ok(Command::Run { file: FILE });
    }
    if verb.as_str() != "exec" {
        return Err(Usage);
    }
    let Some(Options { turns, report }) = options_of(rest) else {
        return Err(Usage);
    };
    Ok(Command::Exec {
        file: FILE,
        turns,
        report,
    })
}

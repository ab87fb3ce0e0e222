//! The words of the command line.
ghost use Rattle.std.specs.Prelude.{◌≡◌, map, string_bytes, option_map};
ghost use Rattle.std.specs.Char.{is_ascii_digit};
ghost use Rattle.std.specs.List.{list_all};
ghost use Rattle.syntox.specs.Command.{asked_of, is_operand, plain, steps_of, told, with_points, with_steps};

/// The whole usage line.
pub const USAGE: &str =
    "usage: syntox analyse FILE [--rounds N] [--points] | run FILE [--steps N] | make N\n";

/// The steps of a run where the words name no number.
const DEFAULT_STEPS: u32 = 1_000_000;

/// The greatest number of steps that may be asked for.
const MAX_STEPS: u32 = 1_000_000_000;

/// What the words ask for.
#[derive(Clone, Copy, Debug)]
pub enum Command<'a> {
    /// The report of the program in a file, with or without what is known at each point.
    Analyse { file: &'a str, points: bool },
    /// A run of the program in a file, of at most so many steps.
    Run { file: &'a str, steps: u32 },
}

/// Whether a word is no option: it doesn't begin with `-`, or is `-` alone.
fn is_operand(word: &str) -> bool
    ensures { result ≡ is_operand word.now }
{
    word == "-" || !word.as_bytes().starts_with(b"-")
}

/// Whether each byte is a digit.
fn has_digits_alone(word: &str) -> bool
    ensures { result ≡ list_all is_ascii_digit word.now }
{
    word.as_bytes().iter().all(|byte| byte.is_ascii_digit())
}

/// The number of steps that a word asks for: one or more digits, with a value from 1 to 1,000,000,000.
fn steps_of(word: &str) -> Option<u32>
    ensures { result ≡ steps_of word.now }
{
    if !has_digits_alone(word) {
        return None;
    }
    match word.parse::<u32>() {
        Ok(steps) if 0 < steps && steps <= MAX_STEPS => Some(steps),
        _ => None,
    }
}

/// `analyse FILE` or `run FILE`
fn plain_command<'a>(command: &str, file: &'a str) -> Option<Command<'a>>
    ensures { option_map told result ≡ plain command.now file.now }
{
    match command {
        "analyse" => Some(Command::Analyse {
            file,
            points: false,
        }),
        "run" => Some(Command::Run {
            file,
            steps: DEFAULT_STEPS,
        }),
        _ => None,
    }
}

/// `analyse FILE --points`
fn with_points<'a>(command: &str, file: &'a str, option: &str) -> Option<Command<'a>>
    ensures { option_map told result ≡ with_points command.now file.now option.now }
{
    let points = true;
    (command == "analyse" && option == "--points").then_some(Command::Analyse { file, points })
}

/// `run FILE --steps N`
fn with_steps<'a>(command: &str, file: &'a str, option: &str, number: &str) -> Option<Command<'a>>
    ensures { option_map told result ≡ with_steps command.now file.now option.now number.now }
{
    if command != "run" || option != "--steps" {
        return None;
    }
    let steps = steps_of(number)?;
    Some(Command::Run { file, steps })
}

/// What the words ask for: `analyse FILE`, `analyse FILE --points`, `run FILE` or `run FILE --steps N`. Nothing else is served.
pub fn command_of(words: &[String]) -> Option<Command<'_>>
    ensures { option_map told result ≡ asked_of (map string_bytes words.now) }
{
    match words {
        [command, file] if is_operand(file.as_str()) => {
            plain_command(command.as_str(), file.as_str())
        }
        [command, file, option] if is_operand(file.as_str()) => {
            with_points(command.as_str(), file.as_str(), option.as_str())
        }
        [command, file, option, number] if is_operand(file.as_str()) => with_steps(
            command.as_str(),
            file.as_str(),
            option.as_str(),
            number.as_str(),
        ),
        _ => None,
    }
}

//! The words of the commands: a row for each verb, and the command that words spell by it.

ghost use Rattle.std.specs.Prelude.{◌≡◌, ◌≢◌, ℕ, List, ◌^◌, ◌<◌, [], ◌∷◌, ◌++◌, codes, Option, IfSome, IfNone};
ghost use Rattle.std.specs.Fmt.{decimal};
ghost use Rattle.clinda.specs.Commands.{word_of, form_of, Spells, SpellsNone, Fits, IsWithinRange, number_words};
ghost use Rattle.clinda.specs.Taking.{TakesNumber, TakesOption, TakesTrace};
ghost use Rattle.clinda.specs.Words.{words_in};

use cl_ground::{DEFAULT_ENTRIES, DEFAULT_STEPS, MOST_STEPS};

/// The most acts of a set that a command may ask for.
pub const MOST_ENTRIES: u64 = 16_777_216;

/// What a command does.
#[derive(Clone, Copy, Debug, PartialEq, Eq)]
pub enum Verb {
    /// Runs the source on one thread, with turns drawn from its number.
    Seq,
    /// Writes the canonical text of the source.
    Print,
}

/// The numbers from one to another.
#[derive(Clone, Copy, Debug, PartialEq, Eq)]
pub struct Range {
    /// The least.
    pub least: u64,
    /// The most.
    pub most: u64,
}

/// What may stand behind the word of a verb, in this order.
#[derive(Clone, Copy, Debug, PartialEq, Eq)]
pub struct Form {
    /// The range of its number, where it has one.
    pub number: Option<Range>,
    /// Whether `steps=N` may stand there.
    pub steps: bool,
    /// Whether `entries=N` may stand there.
    pub entries: bool,
    /// Whether `trace` may stand there.
    pub trace: bool,
}

/// A command.
#[derive(Clone, Copy, Debug, PartialEq, Eq)]
pub struct Command {
    /// What it does.
    pub verb: Verb,
    /// Its number, where it has one.
    pub number: Option<u64>,
    /// How many ticks each process may take, where that is said.
    pub steps: Option<u64>,
    /// How many acts each set may have, where that is said.
    pub entries: Option<u64>,
    /// Whether the acts are to be written.
    pub trace: bool,
}

/// How far a run may go.
#[derive(Clone, Copy, Debug, PartialEq, Eq)]
pub struct RunLimits {
    /// The ticks of a process.
    pub ticks: u64,
    /// The acts of a set.
    pub entries: u32,
}

impl Command {
    ghost use Rattle.std.specs.Prelude.{◌≡◌};
    ghost use Rattle.clinda.specs.Commands.{ticks_of, entries_of};

    /// How far its run may go: `DEFAULT_STEPS` and `DEFAULT_ENTRIES` where nothing is said.
    pub fn limits(self) -> RunLimits
        ensures { result ≡ record { ticks = ticks_of self; entries = entries_of self } }
    {
        RunLimits {
            ticks: self.steps.unwrap_or(DEFAULT_STEPS),
            entries: DEFAULT_ENTRIES,
        }
    }
}

impl Verb {
    ghost use Rattle.std.specs.Prelude.{◌≡◌, ◌≢◌, IfSome, IfNone};
    ghost use Rattle.clinda.specs.Commands.{word_of, form_of};

    /// The verb that a word is, or none.
    pub fn of(word: &str) -> Option<Verb>
        ensures spelled { IfSome result (λ verb. word.now ≡ word_of verb) }
        ensures none { IfNone result ((verb : Verb) → word.now ≢ word_of verb) }
    {
        match word {
            "seq" => Some(Verb::Seq),
            "print" => Some(Verb::Print),
            _ => None,
        }
    }

    /// What may stand behind its word.
    pub fn form(self) -> Form
        ensures { result ≡ form_of self }
    {
        match self {
            Verb::Seq => Form {
                number: Some(Range {
                    least: 0,
                    most: u64::MAX,
                }),
                steps: true,
                entries: false,
                trace: false,
            },
            Verb::Print => Form {
                number: None,
                steps: false,
                entries: false,
                trace: false,
            },
        }
    }
}

/// The command that the words spell, or none.
pub fn command_of(words: &[String]) -> Option<Command>
    ensures spelled { IfSome result (Spells (words_in words.now)) }
    ensures none { IfNone result (SpellsNone (words_in words.now)) }
{
    match words {
        [] => None,
        [word, rest @ ..] => {
            let verb = Verb::of(word.as_str())?;
            behind(verb, rest)
        }
    }
}

// The command of a verb that these words spell behind its own, or none.
fn behind(verb: Verb, words: &[String]) -> Option<Command>
    ensures spelled { IfSome result (λ command. (command.verb ≡ verb) × Spells (word_of verb ∷ words_in words.now) command) }
    ensures none { IfNone result ((command : Command) → command.verb ≡ verb → Spells (word_of verb ∷ words_in words.now) command → ⊥) }
{
    let form = verb.form();
    let (number, options) = take_number(form.number, words)?;
    let (steps, behind_steps) = take_option("steps=", form.steps, 0, MOST_STEPS, options);
    let (entries, behind_entries) = take_option(
        "entries=",
        form.entries,
        1,
        MOST_ENTRIES,
        behind_steps,
    );
    let (trace, rest) = take_trace(form.trace, behind_entries);
    if !rest.is_empty() {
        return None;
    }
    Some(Command {
        verb,
        number,
        steps,
        entries,
        trace,
    })
}

// The number at the front of words where one is to be there, and the words behind it; or none.
fn take_number(range: Option<Range>, words: &[String]) -> Option<(Option<u64>, &[String])>
    ensures taken { IfSome result (λ taken. TakesNumber range (words_in words.now) taken.0 (words_in taken.1.now)) }
    ensures none { IfNone result ((number : Option ℕ) (rest : List (List ℕ)) → Fits range number → words_in words.now ≢ number_words number ++ rest) }
{
    match range {
        None => Some((None, words)),
        Some(range) => match words {
            [] => None,
            [word, rest @ ..] => {
                let number = number_within(word.as_str(), range.least, range.most)?;
                Some((Some(number), rest))
            }
        },
    }
}

// What is said by an option at the front of words, where it may be said and is, and the words behind it.
fn take_option<'a>(
    name: &str,
    may: bool,
    least: u64,
    most: u64,
    words: &'a [String],
) -> (Option<u64>, &'a [String])
    ensures { TakesOption name.now may least most (words_in words.now) result.0 (words_in result.1.now) }
{
    match words {
        [word, rest @ ..] if may => match said(word.as_str(), name, least, most) {
            Some(number) => (Some(number), rest),
            None => (None, words),
        },
        _ => (None, words),
    }
}

// Whether `trace` stands at the front of words where it may, and the words behind it.
fn take_trace(may: bool, words: &[String]) -> (bool, &[String])
    ensures { TakesTrace may (words_in words.now) result.0 (words_in result.1.now) }
{
    match words {
        [word, rest @ ..] if may => match trace_of(word.as_str()) {
            Some(()) => (true, rest),
            None => (false, words),
        },
        _ => (false, words),
    }
}

// Whether a word is `trace`.
fn trace_of(word: &str) -> Option<()>
    ensures said { IfSome result (λ _. word.now ≡ codes "trace") }
    ensures none { IfNone result (word.now ≢ codes "trace") }
{
    if word != "trace" {
        return None;
    }
    Some(())
}

// The number that a word says behind this name, or none.
fn said(word: &str, name: &str, least: u64, most: u64) -> Option<u64>
    ensures written { IfSome result (λ n. word.now ≡ name.now ++ decimal n) }
    ensures range { IfSome result (IsWithinRange least most) }
    ensures none { IfNone result ((n : ℕ) → IsWithinRange least most n → word.now ≢ name.now ++ decimal n) }
{
    let number = word.strip_prefix(name)?;
    number_within(number, least, most)
}

// The number of a range that a word writes, or none.
fn number_within(word: &str, least: u64, most: u64) -> Option<u64>
    ensures written { IfSome result (λ n. word.now ≡ decimal n) }
    ensures range { IfSome result (IsWithinRange least most) }
    ensures none { IfNone result ((n : ℕ) → IsWithinRange least most n → word.now ≢ decimal n) }
{
    let number = number_of(word)?;
    if number < least || most < number {
        return None;
    }
    Some(number)
}

// The number that a word writes, decimal without sign or leading zero, or none.
fn number_of(word: &str) -> Option<u64>
    ensures written { IfSome result (λ n. word.now ≡ decimal n) }
    ensures none { IfNone result ((n : ℕ) → n < 2 ^ 64 → word.now ≢ decimal n) }
{
    let bytes = word.as_bytes();
    if bytes.is_empty() {
        return None;
    }
    if bytes[0] == b'+' {
        return None;
    }
    if bytes[0] == b'0' && bytes.len() > 1 {
        return None;
    }
    word.parse().ok()
}

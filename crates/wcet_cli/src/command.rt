//! What the words of a command say.

ghost use Rattle.std.specs.Prelude.{◌≡◌, ◌↔◌, ◌≤◌, ℕ, List, IsTrue, IfSome, MatchOption, Some, map, string_bytes, option_copied};
ghost use Rattle.wx_text.specs.Decimal.{decimal};
ghost use Rattle.wcet_cli.specs.Words.{CheckWords, IsCheck, IsFlat, IsMigrate, IsRun, MigrateWords, RunWords, entry_words, most_steps};
ghost use Rattle.wcet_cli.specs.Commands.{FitsForm, IsForm, check_words, form_of, migrate_words, run_words};

use wcet_front::InputNames;
use wx_text::read_number;

/// The most instructions that a run may be given.
const MOST_STEPS: u32 = 1_000_000_000;

/// A command.
#[derive(Clone, Copy)]
pub enum Command<'a> {
    /// `flat` and the name of a file of words.
    Flat { code: &'a str },
    /// `run` and what it names.
    Run { run: RunCommand<'a> },
    /// `migrate` and what it names.
    Migrate { migrate: MigrateCommand<'a> },
    /// `check` and what it names.
    Check { check: CheckCommand<'a> },
}

/// What the words of `run` name.
#[derive(Clone, Copy)]
pub struct RunCommand<'a> {
    /// The names of the files of the image, the facts and the machine.
    pub inputs: InputNames<'a>,
    /// The name of the start text's file.
    pub start: &'a str,
    /// The most instructions to execute.
    pub steps: u64,
    /// The name of the symbol where the run begins; without it the image's entry.
    pub entry: Option<&'a str>,
}

/// What the words of `migrate` name.
#[derive(Clone, Copy)]
pub struct MigrateCommand<'a> {
    /// The name of the certificate's file.
    pub source: &'a str,
    /// The name of the file that is written.
    pub target: &'a str,
}

/// What the words of `check` name.
#[derive(Clone, Copy)]
pub struct CheckCommand<'a> {
    /// The names of the files of the image, the facts and the machine.
    pub inputs: InputNames<'a>,
    /// The name of the certificate's file.
    pub certificate: &'a str,
    /// The name of the symbol where runs begin; without it the image's entry.
    pub entry: Option<&'a str>,
}

/// The command that the words are; None exactly where they fit no form.
pub fn command_of(words: &[String]) -> Option<Command<'_>>
    ensures { let said = map string_bytes words.now in
        MatchOption result (¬ FitsForm said) (λ command. IsForm said (form_of command)) }
{
    if let Some(code) = flat_code(words) {
        return Some(Command::Flat { code });
    }
    if let Some(migrate) = migrate_command(words) {
        return Some(Command::Migrate { migrate });
    }
    if let Some(check) = check_command(words) {
        return Some(Command::Check { check });
    }
    let run = run_command(words)?;
    Some(Command::Run { run })
}

/// The name of the file, where the words are `flat` and a name.
fn flat_code(words: &[String]) -> Option<&str>
    ensures { let said = map string_bytes words.now in
        MatchOption result ((name : List ℕ) → ¬ IsFlat said name) (λ code. IsFlat said code.now) }
{
    let [name, code] = words else {
        return None;
    };
    if is_word(name.as_str(), "flat") {
        Some(code.as_str())
    } else {
        None
    }
}

/// What the words name, where they are those of `migrate`.
fn migrate_command(words: &[String]) -> Option<MigrateCommand<'_>>
    ensures { let said = map string_bytes words.now in
        MatchOption result ((w : MigrateWords) → ¬ IsMigrate said w) (λ migrate. IsMigrate said (migrate_words migrate)) }
{
    let [name, source, target] = words else {
        return None;
    };
    if is_word(name.as_str(), "migrate") {
        Some(MigrateCommand {
            source: source.as_str(),
            target: target.as_str(),
        })
    } else {
        None
    }
}

/// What the words name, where they are those of `check`.
fn check_command(words: &[String]) -> Option<CheckCommand<'_>>
    ensures { let said = map string_bytes words.now in
        MatchOption result ((w : CheckWords) → ¬ IsCheck said w) (λ check. IsCheck said (check_words check)) }
{
    let [verb, image, facts, machine, certificate, behind @ ..] = words else {
        return None;
    };
    if !is_word(verb.as_str(), "check") {
        return None;
    }
    let entry = entry_in(behind)?;
    let inputs = InputNames {
        image: image.as_str(),
        facts: facts.as_str(),
        machine: machine.as_str(),
    };
    Some(CheckCommand {
        inputs,
        certificate: certificate.as_str(),
        entry,
    })
}

/// What the words name, where they are those of `run`.
fn run_command(words: &[String]) -> Option<RunCommand<'_>>
    ensures { let said = map string_bytes words.now in
        MatchOption result ((w : RunWords) → ¬ IsRun said w) (λ run. IsRun said (run_words run)) }
{
    let [verb, image, facts, machine, start, steps, behind @ ..] = words else {
        return None;
    };
    if !is_word(verb.as_str(), "run") {
        return None;
    }
    let steps = steps_in(steps.as_str())?;
    let entry = entry_in(behind)?;
    let inputs = InputNames {
        image: image.as_str(),
        facts: facts.as_str(),
        machine: machine.as_str(),
    };
    Some(RunCommand {
        inputs,
        start: start.as_str(),
        steps,
        entry,
    })
}

/// The number of instructions that a word is: a decimal number without leading zeros, at most 10^9.
fn steps_in(word: &str) -> Option<u64>
    ensures sound { IfSome result (λ n. (word.now ≡ decimal n) × (n ≤ most_steps)) }
    ensures complete { (n : ℕ) → n ≤ most_steps → word.now ≡ decimal n → result ≡ Some n }
{
    let steps = read_number(word.as_bytes())?;
    if steps <= MOST_STEPS {
        Some(u64::from(steps))
    } else {
        None
    }
}

/// The name of the entry, if one is given, where the words are nothing or `entry` and a name.
fn entry_in(words: &[String]) -> Option<Option<&str>>
    ensures { let said = map string_bytes words.now in
        MatchOption result ((entry : _) → ¬ (said ≡ entry_words entry))
        (λ entry. said ≡ entry_words (option_copied entry)) }
{
    if words.is_empty() {
        return Some(None);
    }
    let [verb, name] = words else {
        return None;
    };
    if is_word(verb.as_str(), "entry") {
        Some(Some(name.as_str()))
    } else {
        None
    }
}

/// Whether a text is this word.
fn is_word(text: &str, word: &str) -> bool
    ensures { IsTrue result ↔ (text.now ≡ word.now) }
{
    text == word
}

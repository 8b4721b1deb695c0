//! The words of each command, matched one by one. Numbers are read by `tz_text`.
ghost use Rattle.std.specs.Prelude.{◌≡◌, ℕ, List, ℤ, IsNone, IfSome};
ghost use Rattle.tz_words.specs.Command.{IsInfo, IsLocalCommand, IsMovesCommand, IsDaysCommand, IsTzifCommand, IsDumpCommand, IsCheck, IsClock, Command, IsCommand, words_of, meant, day_count_of, short_year_of};
ghost use Rattle.tz_words.specs.NamedText.{NamedText};
ghost use Rattle.tz_lookup.specs.declared.choice.Choice.{Choice};
ghost use Rattle.tz_lookup.specs.declared.conversion.Conversion.{Conversion};

use crate::command_line::CommandLine;
use crate::text_word::TextWord;
use tz_lookup::{Choice, Conversion};
use tz_text::{local_time, number, signed_number};

/// The most days that are asked for at once.
pub const MOST_DAYS: u64 = 4_096;

/// `info TEXT ZONE T`.
fn info(words: &[String]) -> Option<CommandLine<'_>>
    ensures some { IfSome result (λ command. IsCommand (words_of words.now) (meant command)) }
    ensures none { IsNone result → (text : NamedText) (zone : List ℕ) (instant : ℤ) → ¬ (IsInfo (words_of words.now) text zone instant) }
{
    match words {
        [keyword, text, zone, number] => {
            if keyword.as_str() != "info" {
                return None;
            }
            let Some(text) = TextWord::new(text.as_str()) else {
                return None;
            };
            match signed_number(number.as_bytes()) {
                Some(instant) => Some(CommandLine::Info {
                    text,
                    zone: zone.as_str(),
                    instant,
                }),
                None => None,
            }
        }
        _ => None,
    }
}

/// `local TEXT ZONE L CHOICE`.
fn local(words: &[String]) -> Option<CommandLine<'_>>
    ensures some { IfSome result (λ command. IsCommand (words_of words.now) (meant command)) }
    ensures none { IsNone result → (text : NamedText) (zone : List ℕ) (l : ℤ) (choice : Choice) → ¬ (IsLocalCommand (words_of words.now) text zone l choice) }
{
    match words {
        [keyword, text, zone, time, choice] => {
            if keyword.as_str() != "local" {
                return None;
            }
            let Some(text) = TextWord::new(text.as_str()) else {
                return None;
            };
            let Some(choice) = Choice::from_word(choice.as_str()) else {
                return None;
            };
            match local_time(time.as_bytes()) {
                Some(time) => Some(CommandLine::Local {
                    text,
                    zone: zone.as_str(),
                    time,
                    choice,
                }),
                None => None,
            }
        }
        _ => None,
    }
}

/// `moves TEXT ZONE FROM TO`.
fn moves(words: &[String]) -> Option<CommandLine<'_>>
    ensures some { IfSome result (λ command. IsCommand (words_of words.now) (meant command)) }
    ensures none { IsNone result → (text : NamedText) (zone : List ℕ) (from to : ℤ) → ¬ (IsMovesCommand (words_of words.now) text zone from to) }
{
    match words {
        [keyword, text, zone, first, last] => {
            if keyword.as_str() != "moves" {
                return None;
            }
            let Some(text) = TextWord::new(text.as_str()) else {
                return None;
            };
            let Some(from) = signed_number(first.as_bytes()) else {
                return None;
            };
            match signed_number(last.as_bytes()) {
                Some(to) => Some(CommandLine::Moves {
                    text,
                    zone: zone.as_str(),
                    from,
                    to,
                }),
                None => None,
            }
        }
        _ => None,
    }
}

/// How many days a word asks for: one to fifteen digits, whose value is from 1 to the most.
fn day_count(word: &[u8]) -> Option<u32>
    ensures { result ≡ day_count_of word.now }
{
    let count = number(word, 1, 15)?;
    if count < 1 || count > MOST_DAYS {
        return None;
    }
    Some(count as u32)
}

/// `days TEXT ZONE FIRST COUNT`.
fn days(words: &[String]) -> Option<CommandLine<'_>>
    ensures some { IfSome result (λ command. IsCommand (words_of words.now) (meant command)) }
    ensures none { IsNone result → (text : NamedText) (zone : List ℕ) (first : ℤ) (count : ℕ) → ¬ (IsDaysCommand (words_of words.now) text zone first count) }
{
    match words {
        [keyword, text, zone, number, many] => {
            if keyword.as_str() != "days" {
                return None;
            }
            let Some(text) = TextWord::new(text.as_str()) else {
                return None;
            };
            let Some(first) = signed_number(number.as_bytes()) else {
                return None;
            };
            match day_count(many.as_bytes()) {
                Some(count) => Some(CommandLine::Days {
                    text,
                    zone: zone.as_str(),
                    first,
                    count,
                }),
                None => None,
            }
        }
        _ => None,
    }
}

/// A year of a command: an optional `-` and one to four digits.
#[tactic(auto, unfolding(tz_specs::specs::Number::signed_number_of))]
fn short_year(word: &[u8]) -> Option<i32>
    ensures { result ≡ short_year_of word.now }
{
    match word {
        [b'-', digits @ ..] => Some(-(number(digits, 1, 4)? as i32)),
        _ => Some(number(word, 1, 4)? as i32),
    }
}

/// `tzif TEXT ZONE FIRST LAST`.
fn tzif(words: &[String]) -> Option<CommandLine<'_>>
    ensures some { IfSome result (λ command. IsCommand (words_of words.now) (meant command)) }
    ensures none { IsNone result → (text : NamedText) (zone : List ℕ) (first last : ℤ) → ¬ (IsTzifCommand (words_of words.now) text zone first last) }
{
    match words {
        [keyword, text, zone, begins, ends] => {
            if keyword.as_str() != "tzif" {
                return None;
            }
            let Some(text) = TextWord::new(text.as_str()) else {
                return None;
            };
            let Some(first) = short_year(begins.as_bytes()) else {
                return None;
            };
            match short_year(ends.as_bytes()) {
                Some(last) => Some(CommandLine::Tzif {
                    text,
                    zone: zone.as_str(),
                    first,
                    last,
                }),
                None => None,
            }
        }
        _ => None,
    }
}

/// `dump TEXT FROM TO ZONE`.
fn dump(words: &[String]) -> Option<CommandLine<'_>>
    ensures some { IfSome result (λ command. IsCommand (words_of words.now) (meant command)) }
    ensures none { IsNone result → (text : NamedText) (from to : ℤ) (zone : List ℕ) → ¬ (IsDumpCommand (words_of words.now) text from to zone) }
{
    match words {
        [keyword, text, first, last, zone] => {
            if keyword.as_str() != "dump" {
                return None;
            }
            let Some(text) = TextWord::new(text.as_str()) else {
                return None;
            };
            let Some(from) = signed_number(first.as_bytes()) else {
                return None;
            };
            match signed_number(last.as_bytes()) {
                Some(to) => Some(CommandLine::Dump {
                    text,
                    from,
                    to,
                    zone: zone.as_str(),
                }),
                None => None,
            }
        }
        _ => None,
    }
}

/// `check TEXT`.
fn check(words: &[String]) -> Option<CommandLine<'_>>
    ensures some { IfSome result (λ command. IsCommand (words_of words.now) (meant command)) }
    ensures none { IsNone result → (text : NamedText) → ¬ (IsCheck (words_of words.now) text) }
{
    match words {
        [keyword, text] => {
            if keyword.as_str() != "check" {
                return None;
            }
            match TextWord::new(text.as_str()) {
                Some(text) => Some(CommandLine::Check { text }),
                None => None,
            }
        }
        _ => None,
    }
}

/// `clock LEAPS CONV X`.
fn clock(words: &[String]) -> Option<CommandLine<'_>>
    ensures some { IfSome result (λ command. IsCommand (words_of words.now) (meant command)) }
    ensures none { IsNone result → (leaps : List ℕ) (conversion : Conversion) (count : ℤ) → ¬ (IsClock (words_of words.now) leaps conversion count) }
{
    match words {
        [keyword, leaps, conversion, number] => {
            if keyword.as_str() != "clock" {
                return None;
            }
            let Some(conversion) = Conversion::from_word(conversion.as_str()) else {
                return None;
            };
            match signed_number(number.as_bytes()) {
                Some(number) => Some(CommandLine::Clock {
                    leaps: leaps.as_str(),
                    conversion,
                    number,
                }),
                None => None,
            }
        }
        _ => None,
    }
}

/// The command that the words stand for. None comes exactly where they match the form of none. It takes no memory.
pub fn command_of(words: &[String]) -> Option<CommandLine<'_>>
    ensures some { IfSome result (λ command. IsCommand (words_of words.now) (meant command)) }
    ensures none { IsNone result → (command : Command) → ¬ (IsCommand (words_of words.now) command) }
{
    if let Some(command) = info(words) {
        return Some(command);
    }
    if let Some(command) = local(words) {
        return Some(command);
    }
    if let Some(command) = moves(words) {
        return Some(command);
    }
    if let Some(command) = days(words) {
        return Some(command);
    }
    if let Some(command) = tzif(words) {
        return Some(command);
    }
    if let Some(command) = dump(words) {
        return Some(command);
    }
    if let Some(command) = check(words) {
        return Some(command);
    }
    clock(words)
}

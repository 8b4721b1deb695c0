//! The forms of the command line, one for each command.
ghost use Rattle.std.specs.Prelude.{◌≡◌, IsNone, IfSome, Contains};
ghost use Rattle.tz_words.specs.Command.{IsNoCommand, words_of, meant};
ghost use Rattle.tz_words.specs.Form.{HasForm, command_form};
ghost use Rattle.tz_words.specs.declared.form.Form.{Form as DeclaredForm};

use crate::batch_line::BatchLine;
use crate::command_line::CommandLine;
use crate::words::command_of;

/// The form of a command, by the command.
#[derive(Clone, Copy, Debug, PartialEq, Eq, Hash)]
pub enum Form {
    Info,
    Local,
    Moves,
    Days,
    Tzif,
    Dump,
    Check,
    Clock,
    Batch,
}

/// Every form.
pub fn all_forms() -> [Form; 9]
    ensures { (form : DeclaredForm) → Contains result form }
{
    [
        Form::Info,
        Form::Local,
        Form::Moves,
        Form::Days,
        Form::Tzif,
        Form::Dump,
        Form::Check,
        Form::Clock,
        Form::Batch,
    ]
}

/// The form of a command that was read from words.
fn form_of_command(command: CommandLine<'_>) -> Form
    ensures { result ≡ command_form (meant command.entry) }
{
    match command {
        CommandLine::Info { .. } => Form::Info,
        CommandLine::Local { .. } => Form::Local,
        CommandLine::Moves { .. } => Form::Moves,
        CommandLine::Days { .. } => Form::Days,
        CommandLine::Tzif { .. } => Form::Tzif,
        CommandLine::Dump { .. } => Form::Dump,
        CommandLine::Check { .. } => Form::Check,
        CommandLine::Clock { .. } => Form::Clock,
    }
}

/// The form that words have. None comes exactly where they have none, which is where `usage` is told.
pub fn form_of(words: &[String]) -> Option<Form>
    ensures some { IfSome result (HasForm (words_of words.now)) }
    ensures none { IsNone result → IsNoCommand (words_of words.now) }
{
    match BatchLine::new(words) {
        Some(_) => Some(Form::Batch),
        None => match command_of(words) {
            Some(command) => Some(form_of_command(command)),
            None => None,
        },
    }
}

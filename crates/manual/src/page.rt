//! What a manual page in the language of man(7) shows of the command line.
use std::alloc::{AllocError, Global};

/// The sections of a page that are read.
#[derive(Clone, Copy, Debug, PartialEq, Eq)]
enum Section {
    Synopsis,
    ExitStatus,
    Other,
}

/// The forms of commands, as the section SYNOPSIS has them, and the numbers of the section EXIT STATUS; and where the
/// reading stands: in which section, and behind the word of which command.
#[derive(Debug, Drop)]
pub struct Page {
    pub forms: Vec<String>,
    pub statuses: Vec<u8>,
    section: Section,
    command: String,
}

impl Page {
    /// What a page shows.
    pub fn of_text(alloc: Global, text: &str) -> Result<Self, AllocError> {
        let mut page = Page {
            forms: Vec::new(alloc),
            statuses: Vec::new(alloc),
            section: Section::Other,
            command: String::new(alloc),
        };
        for line in text.lines() {
            page.add_line(alloc, line)?;
        }
        Ok(page)
    }

    /// Takes one more line: `.SH TITLE` begins a section, `.B TEXT` is set bold, and `.I TEXT` in italics.
    fn add_line(&mut self, alloc: Global, line: &str) -> Result<(), AllocError> {
        if let Some(title) = line.strip_prefix(".SH ") {
            self.section = section_of(title);
        } else if let Some(text) = line.strip_prefix(".B ") {
            self.add_bold(alloc, text)?;
        } else if let Some(text) = line.strip_prefix(".I ") {
            self.add_italics(alloc, text)?;
        }
        Ok(())
    }

    /// Takes the word of a command, or the number of a status.
    fn add_bold(&mut self, alloc: Global, text: &str) -> Result<(), AllocError> {
        match self.section {
            Section::Synopsis => {
                let command = text.strip_prefix("tzlist ").unwrap_or(text);
                self.command = String::from_str(alloc, command)?;
            }
            Section::ExitStatus => {
                if let Ok(number) = text.parse::<u8>() {
                    self.statuses.push(number)?;
                }
            }
            Section::Other => {}
        }
        Ok(())
    }

    /// Takes the operands of the command whose word came last.
    fn add_italics(&mut self, alloc: Global, text: &str) -> Result<(), AllocError> {
        if self.section == Section::Synopsis {
            let form = format!(in alloc; "{} {text}", self.command.as_str())?;
            self.forms.push(form)?;
        }
        Ok(())
    }
}

/// The section of a title.
fn section_of(title: &str) -> Section {
    match title {
        "SYNOPSIS" => Section::Synopsis,
        "\"EXIT STATUS\"" => Section::ExitStatus,
        _ => Section::Other,
    }
}

//! Holds the manual page against the program that it describes.
//!
//! The page is `data/tzlist.1`, and `docs/tzlist.1` is a copy of it. A command line is made of each form that the page shows,
//! and the program's own reader of words is asked whether it has that form; then each command is looked for among the forms
//! of the page, and each exit status among its statuses. The forms and statuses are printed, and what is missing on either
//! side, so that this program's stored run keeps the page in step with the words that `tzlist` takes.
#![tactic(auto)]

mod command_line;
mod page;

use crate::command_line::line_of;
use crate::page::Page;
use std::rt::Files;
use std::{fs, io};
use tz_words::{Form, all_forms, all_statuses, form_of};

/// The form of the program that a form of the page shows, and a line that tells it.
fn shown<R: Print + AllocGlobal>(rt: &R, form: &str) -> io::Result<Option<Form>> {
    let Some(words) = line_of(rt.alloc(), form)? else {
        println!(rt; "{form}: a word of it isn't known")?;
        return Ok(None);
    };
    let found = form_of(words.as_slice());
    match found {
        Some(_) => println!(rt; "{form}")?,
        None => println!(rt; "{form}: no command has this form")?,
    }
    Ok(found)
}

/// Prints the forms of the page, and the commands of which it has none.
fn print_forms<R: Print + AllocGlobal>(rt: &R, page: &Page) -> io::Result<()> {
    let mut found = Vec::new(rt.alloc());
    for form in &page.forms {
        if let Some(form) = shown(rt, form.as_str())? {
            found.push(form)?;
        }
    }
    for form in all_forms() {
        if !found.contains(&form) {
            println!(rt; "no form of {form:?}")?;
        }
    }
    Ok(())
}

/// Prints the exit statuses of the page, and those of the program that it lacks.
fn print_statuses<R: Print>(rt: &R, page: &Page) -> io::Result<()> {
    let statuses = all_statuses();
    for number in &page.statuses {
        if statuses.iter().any(|status| status.code() == *number) {
            println!(rt; "status {number}")?;
        } else {
            println!(rt; "status {number}: no command ends with it")?;
        }
    }
    for status in statuses {
        if !page.statuses.contains(&status.code()) {
            println!(rt; "no status {}", status.code())?;
        }
    }
    Ok(())
}

fn main(rt: HostRuntime) -> io::Result<()> {
    let text = fs::read_to_string(&rt, "tzlist.1")?;
    let page = Page::of_text(rt.alloc(), text.as_str())?;
    print_forms(&rt, &page)?;
    print_statuses(&rt, &page)
}

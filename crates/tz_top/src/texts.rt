//! The texts of a batch: its script, its leap text, and its sources.
ghost use Rattle.std.specs.Prelude.{◌≡◌, ◌≤◌, ℕ, List, length, IsTrue, IsSome, IfOk, IfErr, OnOk};
ghost use Rattle.std.specs.List.{concat};
ghost use Rattle.tz_types.specs.declared.limit.TheConstants.{MOST_BYTES};
ghost use Rattle.tz_words.specs.NamedText.{NamedText, named_text_of};
ghost use Rattle.tz_words.specs.BatchCommand.{IsTextOf, name_texts, texts_in};
ghost use Rattle.tz_words.specs.Command.{batch_meant};
ghost use Rattle.tz_cli.specs.Refusal.{RefusesContents};
ghost use Rattle.tz_top.specs.BatchTexts.{file_groups, text_groups, IsReadSource, AreReadSources, AreReadTexts};
ghost use Rattle.tz_top.specs.Refusal.{RefusesGroups};

use std::alloc::Global;
use tz_cli::{Refusal, read_files, read_leaps, read_one};
use tz_io::Files;
use tz_types::{Items, Source, Text};
use tz_version::Sources;
use tz_words::{BatchLine, TextWord};

/// What a batch reads: the text of its script, and its sources.
#[derive(Drop)]
pub struct BatchTexts {
    pub script: Text,
    pub sources: Sources,
    pub ghost few_bytes: { length script ≤ MOST_BYTES },
}

/// The one text, or one without bytes where there is none.
fn lone_text(alloc: Global, contents: Items<Text>) -> Text
    requires { length contents ≤ 1 }
    ensures { result ≡ concat contents }
{
    match contents.into_vec().pop() {
        Some(text) => text,
        None => Items::new(alloc),
    }
}

/// The source of the text that a word names.
fn read_source<F: Files>(alloc: Global, word: &str, files: &mut F) -> Result<Source, Refusal>
    requires { IsSome (named_text_of word.now) }
    ensures source { IfOk result (λ source. (text : NamedText) → IsTextOf word.now text →
        IsReadSource (F.state files.old) text source) }
    ensures unharmed { OnOk result (F.state files.new ≡ F.state files.old) }
    ensures refused { IfErr result (λ refusal. (text : NamedText) → IsTextOf word.now text →
        RefusesContents (F.state files.old) (F.state files.new) text.files refusal) }
    ensures kept { (F.state files.new).contents ≡ (F.state files.old).contents }
{
    let Some(text) = TextWord::new(word) else {
        unreachable!()
    };
    match read_files(alloc, text.names, files) {
        Ok(contents) => Ok(text.source(contents)),
        Err(refusal) => Err(refusal),
    }
}

/// The sources of the texts that words name, in their order.
fn read_sources<F: Files>(
    alloc: Global,
    words: &[String],
    files: &mut F,
) -> Result<Items<Source>, Refusal>
    requires { IsTrue (name_texts words.now) }
    ensures sources { IfOk result (λ sources. AreReadSources (F.state files.old) (texts_in words.now) sources) }
    ensures refused { IfErr result (λ refusal.
        RefusesGroups (F.state files.old) (F.state files.new) (text_groups (texts_in words.now)) refusal) }
    ensures kept { (F.state files.new).contents ≡ (F.state files.old).contents }
{
    let mut sources = Items::new(alloc);
    for word in words {
        let source = match read_source(alloc, word.as_str(), files) {
            Ok(source) => source,
            Err(refusal) => return Err(refusal),
        };
        if sources.push(source).is_err() {
            return Err(Refusal::Memory);
        }
    }
    Ok(sources)
}

/// The texts of a batch. The files are read in the order of the words: the script's, that of the leap text, and those of
/// each text. The script alone, the leap text alone and each text alone may have 4,194,304 bytes.
pub fn read_texts<F: Files>(
    alloc: Global,
    line: BatchLine<'_>,
    files: &mut F,
) -> Result<BatchTexts, Refusal>
    ensures texts { IfOk result (λ texts. AreReadTexts (F.state files.old) (batch_meant line.entry) texts.script texts.sources) }
    ensures refused { IfErr result (λ refusal.
        RefusesGroups (F.state files.old) (F.state files.new) (file_groups (batch_meant line.entry)) refusal) }
    ensures kept { (F.state files.new).contents ≡ (F.state files.old).contents }
{
    let script = match read_one(alloc, line.script, files) {
        Ok(contents) => lone_text(alloc, contents),
        Err(refusal) => return Err(refusal),
    };
    let leaps = match read_leaps(alloc, line.leaps, files) {
        Ok(contents) => lone_text(alloc, contents),
        Err(refusal) => return Err(refusal),
    };
    let texts = match read_sources(alloc, line.texts, files) {
        Ok(texts) => texts,
        Err(refusal) => return Err(refusal),
    };
    Ok(BatchTexts {
        script,
        sources: Sources { texts, leaps },
    })
}

//! What the text of an outcome settles: laws of specs/OutcomeText.antt and specs/Run.antt.
ghost use Rattle.std.specs.Prelude.{◌≡◌, ℕ, ◌<◌, [], ◌∷◌, length, map};
ghost use Rattle.tz_script.specs.Keeping.{KeepsSources};
ghost use Rattle.tz_script.specs.declared.script.Script.{Script as DeclaredScript};
ghost use Rattle.tz_version.specs.declared.sources.Sources.{Sources as DeclaredSources};
ghost use Rattle.tz_batch.specs.OutcomeText.{outcome_text};
ghost use Rattle.tz_batch.specs.Fitting.{FitsOutcome, reply_told};
ghost use Rattle.tz_batch.specs.Run.{IsRun};
ghost use Rattle.tz_batch.specs.FirstLook.{lone_look, first_outcome};
ghost use Rattle.tz_batch.specs.declared.outcome.Outcome.{Outcome as DeclaredOutcome};

/// Two outcomes with the same text have the same journal.
pub fn texts_settle_journals()
    ensures { (a b : DeclaredOutcome) → FitsOutcome a → FitsOutcome b → outcome_text a ≡ outcome_text b → a.journal ≡ b.journal }
{}

/// They have as many replies, to operations at the same lines, at the same positions, and with the same text of the
/// answer.
pub fn texts_settle_what_replies_tell()
    ensures { (a b : DeclaredOutcome) → FitsOutcome a → FitsOutcome b → outcome_text a ≡ outcome_text b → map reply_told a.replies ≡ map reply_told b.replies }
{}

/// Two runs of one script, over the same sources and in lists of as many slots, that have the same text are the same,
/// where each text that the script asks for is among the sources, as it has to be before a script is run.
pub fn texts_settle_outcomes()
    ensures { (script : DeclaredScript) (sources : DeclaredSources) (slots : ℕ) (a b : DeclaredOutcome) → KeepsSources (length sources.texts) script.operations → IsRun script sources slots a → IsRun script sources slots b → outcome_text a ≡ outcome_text b → a ≡ b }
{}

/// A script that only looks once, in its first lane and round, has a run: no write, and version 1 in slot 0.
pub fn a_look_has_a_run()
    ensures { (script : DeclaredScript) (sources : DeclaredSources) (slots line : ℕ) → script.operations ≡ lone_look line ∷ [] → 0 < slots → IsRun script sources slots (first_outcome line) }
{}

//! What a text says is settled by the text, and what scripts keep: laws of specs/Script.antt and specs/Size.antt.
ghost use Rattle.std.specs.Prelude.{◌≡◌, ℕ, ◌≤◌, ◌<◌, ◌⊎◌, ℤ, pos, neg_ℤ, ◌<ℤ◌, List, None, Ok};
ghost use Rattle.tz_types.specs.declared.fault.LineFault.{LineFault};
ghost use Rattle.tz_script.specs.Contents.{ScriptContents};
ghost use Rattle.tz_script.specs.Keeping.{KeepsHolds, KeepsSources};
ghost use Rattle.tz_script.specs.Script.{script_contents_of, whole_fault, ReadsScript, RefusesScript};
ghost use Rattle.tz_script.specs.Laws.{HasSameParts, IsReadable};
ghost use Rattle.tz_script.specs.Size.{IsSized};
ghost use Rattle.tz_lookup.specs.declared.conversion.Conversion.{Conversion};
ghost use Rattle.tz_script.specs.declared.operation.Op.TheVariants as ops;
ghost use Rattle.tz_script.specs.declared.operation.Pick.{Pick};
ghost use Rattle.tz_script.specs.declared.script.Script.{Script as DeclaredScript};

/// A text is read as at most one script.
pub fn at_most_one_script()
    ensures { (sources : ℕ) (text : List ℕ) (a b : DeclaredScript) → ReadsScript sources text a → ReadsScript sources text b → HasSameParts a b }
{}

/// A text is refused with at most one fault.
pub fn at_most_one_script_fault()
    ensures { (sources : ℕ) (text : List ℕ) (a b : LineFault) → RefusesScript sources text a → RefusesScript sources text b → a ≡ b }
{}

/// A text that is read isn't refused.
pub fn read_scripts_are_not_refused()
    ensures { (sources : ℕ) (text : List ℕ) (script : DeclaredScript) (fault : LineFault) → ReadsScript sources text script → ¬ (RefusesScript sources text fault) }
{}

/// Where a text gives contents without a fault, each lane has no hold open as a round begins, does only what it may by
/// its open holds, and has none open as the round ends. So it is where a script is read.
pub fn read_scripts_keep_holds()
    ensures contents { (sources : ℕ) (text : List ℕ) (contents : ScriptContents) → script_contents_of sources text ≡ Ok contents → whole_fault contents ≡ None → KeepsHolds contents.operations }
    ensures scripts { (sources : ℕ) (text : List ℕ) (script : DeclaredScript) → ReadsScript sources text script → KeepsHolds script.operations }
{}

/// Where a script is read, each text that it asks for is there.
pub fn read_scripts_keep_sources()
    ensures { (sources : ℕ) (text : List ℕ) (script : DeclaredScript) → ReadsScript sources text script → KeepsSources sources script.operations }
{}

/// Of a sized operation the instant or the count has at most 15 digits, with either sign; the instants of a scan are at least a
/// second apart, by a number of 32 bits, and there are from 1 to 65,536.
pub fn numbers_of_sized_operations_have_few_digits()
    ensures info { (v : Pick) (zone : List ℕ) (t : ℤ) → IsSized (ops.Info v zone t) →
        (neg_ℤ (pos 1_000_000_000_000_000) <ℤ t) × (t <ℤ pos 1_000_000_000_000_000) }
    ensures scan { (v : Pick) (zone : List ℕ) (from : ℤ) (step count : ℕ) → IsSized (ops.Scan v zone from step count) →
        (neg_ℤ (pos 1_000_000_000_000_000) <ℤ from) × (from <ℤ pos 1_000_000_000_000_000)
        × (1 ≤ step) × (step < 4_294_967_296) × (1 ≤ count) × (count ≤ 65_536) }
    ensures clock { (v : Pick) (conv : Conversion) (x : ℤ) → IsSized (ops.Clock v conv x) →
        (neg_ℤ (pos 1_000_000_000_000_000) <ℤ x) × (x <ℤ pos 1_000_000_000_000_000) }
{}

/// Each text gives contents, whose parts a script has, or is refused.
pub fn each_script_is_read_or_refused()
    ensures { (sources : ℕ) (text : List ℕ) → IsReadable sources text ⊎ ((fault : LineFault) × RefusesScript sources text fault) }
{}

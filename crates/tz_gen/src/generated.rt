//! Texts and their script, made together.
ghost use Rattle.std.specs.Prelude.{◌≡◌, ◌≤◌, All, length, map, IfOk};
ghost use Rattle.std.specs.List.{range_with_len};
ghost use Rattle.tz_types.specs.declared.limit.TheConstants.{MOST_BYTES};
ghost use Rattle.tz_gen.specs.Generated.{text_lines, script_lines, bytes_of_lines};
ghost use Rattle.tz_gen.specs.declared.sizes.TheConstants.{MOST_GENERATED, GENERATED_TEXTS};

use crate::GENERATED_TEXTS;
use crate::script::generated_script;
use crate::text::generated_text;
use std::alloc::Global;
use tz_types::{Items, NoMemory, Text};

/// Texts of many zones, and a script whose sources they are.
#[derive(Debug, PartialEq, Drop)]
pub struct Generated {
    pub texts: Items<Text>,
    pub script: Text,
}

/// The texts of so many zones, in the order of their numbers.
fn generated_texts(alloc: Global, n: u32) -> Result<Items<Text>, NoMemory>
    ensures { IfOk result (λ texts. texts ≡ map (λ number. bytes_of_lines (text_lines n number)) (range_with_len 0 GENERATED_TEXTS)) }
{
    let mut texts = Items::new(alloc);
    for number in 0..GENERATED_TEXTS {
        texts.push(generated_text(alloc, n, number)?)?;
    }
    Ok(texts)
}

/// Makes four texts of `n` zones, and the script over them.
///
/// The texts bear the versions g0 to g3. In each of four rounds the script reloads one of them in one lane, holds and
/// erases in another, and looks `n` times in each of eight lanes. Each text, and the script, has at most 4,194,304 bytes.
pub fn generate(alloc: Global, n: u32) -> Result<Generated, NoMemory>
    requires { (1 ≤ n) × (n ≤ MOST_GENERATED) }
    ensures texts { IfOk result (λ generated. generated.texts ≡ map (λ number. bytes_of_lines (text_lines n number)) (range_with_len 0 GENERATED_TEXTS)) }
    ensures script { IfOk result (λ generated. generated.script ≡ bytes_of_lines (script_lines n)) }
    ensures text_sizes { IfOk result (λ generated. All (λ text. length text ≤ MOST_BYTES) generated.texts) }
    ensures script_size { IfOk result (λ generated. length generated.script ≤ MOST_BYTES) }
{
    let texts = generated_texts(alloc, n)?;
    let script = generated_script(alloc, n)?;
    Ok(Generated { texts, script })
}

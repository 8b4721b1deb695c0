//! What the bytes of a line come to, of a zone text or of a leap text, before anybody asks what its fields say.
ghost use Rattle.std.specs.Prelude.{◌≡◌, ◌==◌, ◌≤◌, false, Some, None, option_map, IfOk, IfErr, length};
ghost use Rattle.std.specs.List.{list_any};
ghost use Rattle.tz_text.specs.declared.kept.TheConstants.{MOST_KEPT};
ghost use Rattle.tz_text.specs.Kept.{kept_of};
ghost use Rattle.tz_specs.specs.Field.{fields_of};
ghost use Rattle.tz_specs.specs.Causes.{least_cause};
ghost use Rattle.tz_specs.specs.LineCauses.{opening_causes};

use tz_text::{Fields, Joined};
use tz_types::{Cause, LONGEST_LINE};

/// Whether the line has a NUL byte. Only a line of a text that may have one is looked through.
fn has_nul(line: &[u8], nuls: bool) -> bool
    requires { nuls ≡ false → list_any (λ byte. byte == 0) line.now ≡ false }
    ensures { result ≡ list_any (λ byte. byte == 0) line.now }
{
    nuls && line.iter().any(|byte| *byte == 0)
}

/// The fields of a line, or the least cause that it has by its bytes: it is too long, has a NUL byte, or leaves a quote open.
///
/// `nuls` says whether the text may have a NUL byte. `joined` keeps the bytes of fields that join pieces; what it had is gone.
pub fn cut_fields<'a>(
    line: &'a [u8],
    joined: &'a mut Joined,
    nuls: bool,
) -> Result<Fields<'a>, Cause>
    requires { nuls ≡ false → list_any (λ byte. byte == 0) line.now ≡ false }
    ensures good { IfOk result (λ fields. least_cause (opening_causes line.now) ≡ None) }
    ensures fields { IfOk result (λ fields. option_map kept_of (fields_of line.now) ≡ Some fields) }
    ensures counted { IfOk result (λ fields. fields.count ≤ MOST_KEPT → length fields.first ≡ fields.count) }
    ensures cause { IfErr result (λ cause. least_cause (opening_causes line.now) ≡ Some cause) }
{
    if line.len() + 1 > LONGEST_LINE {
        return Err(Cause::LongLine);
    }
    if has_nul(line, nuls) {
        return Err(Cause::Nul);
    }
    match Fields::cut(line, joined) {
        Ok(fields) => Ok(fields),
        Err(_) => Err(Cause::OpenQuote),
    }
}

//! A name as its line has it.
ghost use Rattle.std.specs.Prelude.{◌≡◌, false};
ghost use Rattle.tz_types.specs.Text.{IsText};
ghost use Rattle.tz_types.specs.declared.limit.TheConstants.{LONGEST_NAME};
ghost use Rattle.tz_specs.specs.Value.{is_bad_name, is_long_name};

use tz_types::Label;

/// A name as its line has it: 1 to `LONGEST_NAME` bytes, all from 0x21 to 0x7E.
#[derive(Clone, Copy, Debug)]
pub struct GivenName<'a> {
    bytes: &'a [u8],
    ghost text: { IsText 1 LONGEST_NAME bytes.now },
}

impl<'a> GivenName<'a> {
    /// The name that a field gives, which is neither bad nor long.
    pub fn of_field(field: &'a [u8]) -> Self
        requires good { is_bad_name field.now ≡ false }
        requires short { is_long_name field.now ≡ false }
        ensures { result.bytes.now ≡ field.now }
    {
        GivenName { bytes: field }
    }

    /// Its bytes.
    pub fn as_bytes(&self) -> &'a [u8]
        ensures { result.now ≡ self.now.bytes.now }
    {
        self.bytes
    }

    /// A copy that outlives the line.
    pub fn label(&self) -> Label
        ensures { result ≡ self.now.bytes.now }
    {
        match Label::new(self.bytes) {
            Ok(label) => label,
            Err(_) => unreachable!(),
        }
    }
}

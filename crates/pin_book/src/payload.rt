//! What a list of versions may ask of a version.

use tz_types::VersionText;

/// A version of which a list keeps copies. Its home is all that it was made from, as plain data that contracts alone
/// see, and its source is its place there. Two versions of one home and one source have one name.
pub trait Payload: Drop + Send + Sync {
    ghost use Rattle.std.specs.Prelude.{◌≡◌, ℕ, List};

    type Home;

    /// What the version was made from.
    ghost home: { Self → Self.Home };

    /// Its place there.
    ghost source: { Self → ℕ };

    /// The name of each version of a home and a source.
    ghost name_of: { Self.Home → ℕ → List ℕ };

    /// Returns the version's source.
    fn src(&self) -> u32
        ensures { result ≡ source self.now };

    /// Returns a copy of the version's name. It takes no memory.
    fn name(&self) -> VersionText
        ensures { result ≡ name_of (home self.now) (source self.now) };
}

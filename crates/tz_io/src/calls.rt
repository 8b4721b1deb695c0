//! Which calls fail, of files and of a sink in memory.
ghost use Rattle.std.specs.Prelude.{◌≡◌};
ghost use Rattle.tz_io.specs.Calls.{fails_at};

/// Whether a list of the calls that fail has the number of this call.
pub fn is_failing(failing: &[u32], call: u64) -> bool
    ensures { result ≡ fails_at failing.now call }
{
    failing.iter().any(|number| u64::from(*number) == call)
}

//! The conversions between the system clock and those of UTC, TAI and GPS, and their words.
ghost use Rattle.std.specs.Prelude.{◌≡◌, ◌≢◌, IsNone, IfSome};
ghost use Rattle.tz_lookup.specs.Conversion.{conversion_word};
ghost use Rattle.tz_lookup.specs.declared.conversion.Conversion.{Conversion};

/// A conversion from a count of one clock to that of another. `UtcInfo` tells of a UTC count what there is to know.
#[derive(Clone, Copy, Debug, PartialEq, Eq, Hash)]
pub enum Conversion {
    SysToUtc,
    UtcToSys,
    UtcInfo,
    UtcToTai,
    TaiToUtc,
    UtcToGps,
    GpsToUtc,
}

impl Conversion {
    /// The conversion that the word stands for, spelt so. None comes exactly where it stands for none.
    pub fn from_word(word: &str) -> Option<Self>
        ensures some { IfSome result (λ conversion. word.now ≡ conversion_word conversion) }
        ensures none { IsNone result → (conversion : Conversion) → word.now ≢ conversion_word conversion }
    {
        match word {
            "sys-utc" => Some(Conversion::SysToUtc),
            "utc-sys" => Some(Conversion::UtcToSys),
            "utc-info" => Some(Conversion::UtcInfo),
            "utc-tai" => Some(Conversion::UtcToTai),
            "tai-utc" => Some(Conversion::TaiToUtc),
            "utc-gps" => Some(Conversion::UtcToGps),
            "gps-utc" => Some(Conversion::GpsToUtc),
            _ => None,
        }
    }
}

//! The exit statuses of the program.
ghost use Rattle.std.specs.Prelude.{◌≡◌, Contains};
ghost use Rattle.tz_words.specs.Status.{exit_code};
ghost use Rattle.tz_words.specs.declared.status.Status.{Status as DeclaredStatus};

/// How a command ended.
#[derive(Clone, Copy, Debug, PartialEq, Eq, Hash)]
pub enum Status {
    Ok,
    Usage,
    Text,
    Script,
    Read,
    Write,
    Memory,
    NoZone,
    Range,
    Local,
    TooLarge,
    Types,
    Designations,
}

impl Status {
    /// The exit status of the program.
    pub fn code(self) -> u8
        ensures { result ≡ exit_code self }
    {
        match self {
            Status::Ok => 0,
            Status::Usage => 2,
            Status::Text => 3,
            Status::Script => 4,
            Status::Read => 5,
            Status::Write => 6,
            Status::Memory => 7,
            Status::NoZone => 8,
            Status::Range => 9,
            Status::Local => 10,
            Status::TooLarge => 11,
            Status::Types => 14,
            Status::Designations => 15,
        }
    }
}

/// Every status.
pub fn all_statuses() -> [Status; 13]
    ensures { (status : DeclaredStatus) → Contains result status }
{
    [
        Status::Ok,
        Status::Usage,
        Status::Text,
        Status::Script,
        Status::Read,
        Status::Write,
        Status::Memory,
        Status::NoZone,
        Status::Range,
        Status::Local,
        Status::TooLarge,
        Status::Types,
        Status::Designations,
    ]
}

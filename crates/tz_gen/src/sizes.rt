//! How much is generated.

/// The most zones that are generated. There is at least one.
pub const MOST_GENERATED: u32 = 1_024;

/// How many texts are generated.
pub const GENERATED_TEXTS: u32 = 4;

/// How many rounds a generated script has. Each reloads one of the texts.
pub const GENERATED_ROUNDS: u32 = 4;

/// How many lanes a generated script has. In each round each looks as often as there are zones.
pub const GENERATED_LANES: u32 = 8;

//! What is asked of a local time, and the words that ask it.
ghost use Rattle.std.specs.Prelude.{◌≡◌, ◌≢◌, IsNone, IfSome};
ghost use Rattle.tz_lookup.specs.Choice.{choice_word};
ghost use Rattle.tz_lookup.specs.declared.choice.Choice.{Choice};

/// What is asked of a local time: which ranges show it, or its instant. `Strict` asks for the instant without a choice, so
/// that a time has one only where one range shows it; `Earliest` and `Latest` choose.
#[derive(Clone, Copy, Debug, PartialEq, Eq, Hash)]
pub enum Choice {
    None,
    Strict,
    Earliest,
    Latest,
}

impl Choice {
    /// The choice that the word stands for, spelt so. None comes exactly where it stands for none.
    pub fn from_word(word: &str) -> Option<Self>
        ensures some { IfSome result (λ choice. word.now ≡ choice_word choice) }
        ensures none { IsNone result → (choice : Choice) → word.now ≢ choice_word choice }
    {
        match word {
            "none" => Some(Choice::None),
            "strict" => Some(Choice::Strict),
            "earliest" => Some(Choice::Earliest),
            "latest" => Some(Choice::Latest),
            _ => None,
        }
    }
}

//! Laws: the greatest number of rules that a line of a zone follows.
ghost use Rattle.std.specs.Prelude.{◌≡◌, ◌≤◌, ◌⊎◌, ℕ, List};
ghost use Rattle.std.specs.List.{All, Contains};
ghost use Rattle.tz_types.specs.declared.limit.TheConstants.{MOST_RULES};
ghost use Rattle.tz_specs.specs.Expansion.{Period};
ghost use Rattle.tz_specs.specs.RulesFollowed.{rules_followed, most_rules_followed};

/// No line of a zone follows more rules than the greatest number told, some line follows so many, or none follows any,
/// and it is at most the number that a set may have.
pub fn most_rules_followed_is_the_greatest()
    ensures each { (periods : List Period) (period : Period) → Contains periods period → rules_followed period.following ≤ most_rules_followed periods }
    ensures some { (periods : List Period) → (most_rules_followed periods ≡ 0) ⊎ ((period : Period) × Contains periods period × (rules_followed period.following ≡ most_rules_followed periods)) }
    ensures bound { (periods : List Period) → most_rules_followed periods ≤ MOST_RULES }
{}

//! A line stands for at most one list of fields, and for none exactly where it leaves a quote open.
ghost use Rattle.std.specs.Prelude.{◌≡◌, ◌↔◌, ℕ, List, Some, None};
ghost use Rattle.tz_specs.specs.Field.{fields_of, StandsFor, LeavesQuoteOpen};

/// The list that the reading of a line gives is the one that the line stands for.
pub fn one_reading()
    ensures { (line : List ℕ) (fields : List (List ℕ)) → StandsFor line fields ↔ (fields_of line ≡ Some fields) }
{}

/// Two lists that a line stands for are one.
pub fn at_most_one_list()
    ensures { (line : List ℕ) (fields others : List (List ℕ)) → StandsFor line fields → StandsFor line others → fields ≡ others }
{}

/// The reading gives no list exactly where a quoted piece isn't closed.
pub fn no_list_where_open()
    ensures { (line : List ℕ) → (fields_of line ≡ None) ↔ LeavesQuoteOpen line }
{}

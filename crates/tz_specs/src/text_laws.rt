//! A source is read as one database, or refused with one fault, and not both.
ghost use Rattle.std.specs.Prelude.{◌≡◌};
ghost use Rattle.tz_types.specs.declared.fault.Fault.{Fault};
ghost use Rattle.tz_types.specs.declared.source.Source.{Source};
ghost use Rattle.tz_types.specs.declared.database.Db.{Db};
ghost use Rattle.tz_specs.specs.Reads.{Reads, Refuses};

/// Two databases that a source is read as are one.
pub fn at_most_one_database()
    ensures { (source : Source) (db other : Db) → Reads source db → Reads source other → db ≡ other }
{}

/// Two faults with which a source is refused are one.
pub fn at_most_one_fault()
    ensures { (source : Source) (fault other : Fault) → Refuses source fault → Refuses source other → fault ≡ other }
{}

/// A source that is read isn't refused.
pub fn read_sources_are_not_refused()
    ensures { (source : Source) (db : Db) (fault : Fault) → Reads source db → ¬ (Refuses source fault) }
{}

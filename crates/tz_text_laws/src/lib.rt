//! Laws of whole sources: with those of `tz_specs`, each source is read as one database or refused with one fault. There is
//! no code here, and nothing stands on the crate.
//!
//! Read aloud, `links_stand_for_zones_that_they_reach` says: take any link of a database that a source is read as; then
//! the place that it has is that of a zone, and from its target one comes to the name of that zone through links, each the
//! earliest of its name, however many there are.
#![tactic(auto)]

ghost use Rattle.std.specs.Prelude.{◌≡◌, ◌⊎◌, ◌↔◌, ℕ, List, filter_map, slice_get, Some, Ok, IsTrue};
ghost use Rattle.std.specs.List.{Contains};
ghost use Rattle.tz_types.specs.Text.{IsText};
ghost use Rattle.tz_types.specs.declared.limit.TheConstants.{LONGEST_VERSION};
ghost use Rattle.tz_types.specs.declared.fault.Fault.{Fault};
ghost use Rattle.tz_types.specs.declared.zone.Zone.{Zone};
ghost use Rattle.tz_types.specs.declared.link.Link.{Link};
ghost use Rattle.tz_types.specs.declared.source.Source.{Source};
ghost use Rattle.tz_types.specs.declared.database.Db.{Db};
ghost use Rattle.tz_specs.specs.Written.{WrittenLink};
ghost use Rattle.tz_specs.specs.Contents.{Contents, contents_of};
ghost use Rattle.tz_specs.specs.Whole.{zone_of_link};
ghost use Rattle.tz_specs.specs.Sound.{is_sound};
ghost use Rattle.tz_specs.specs.Reads.{Reads, Refuses};
ghost use Rattle.tz_text_laws.specs.Version.{IsVersionGiven};
ghost use Rattle.tz_text_laws.specs.LeadsTo.{LeadsTo};
ghost use Rattle.tz_text_laws.specs.Records.{records_of, rule_named, rules_in, link_said, zones_said};

/// Each source is read as a database, or refused with a fault.
pub fn each_source_is_read_or_refused()
    ensures { (source : Source) → ((db : Db) × Reads source db) ⊎ ((fault : Fault) × Refuses source fault) }
{}

/// A database that a source is read as is sound: its zones run through all of time, and its links lead to zones.
pub fn read_databases_are_sound()
    ensures { (source : Source) (db : Db) → Reads source db → IsTrue (is_sound db) }
{}

/// A database that a source is read as has a version of 1 to 64 bytes, where the one that is given has.
pub fn read_databases_have_a_version()
    ensures { (source : Source) (db : Db) → Reads source db → IsVersionGiven source.version → IsText 1 LONGEST_VERSION db.version }
{}

/// The zone to which a link leads is the one that its target reaches through links of any number.
pub fn links_lead_where_their_targets_reach()
    ensures { (contents : Contents) (link : WrittenLink) (zone : List ℕ) →
        (zone_of_link contents link ≡ Some zone) ↔ LeadsTo contents.zones contents.links link.target zone }
{}

/// The rules of a set are those of the Rule records of its name, and the links are those of the Link records, in the order of the
/// lines of all files.
pub fn sets_and_links_are_those_of_records()
    ensures rules { (files : List (List ℕ)) (contents : Contents) (name : List ℕ) → contents_of files ≡ Ok contents →
        rules_in name contents.sets ≡ filter_map (rule_named name) (records_of files) }
    ensures links { (files : List (List ℕ)) (contents : Contents) → contents_of files ≡ Ok contents →
        contents.links ≡ filter_map link_said (records_of files) }
{}

/// The zones are those of the Zone records, in the order of the lines of all files. The lines of each are that of its Zone record
/// and those of the Continuation records up to the next Zone record.
pub fn zones_are_those_of_records()
    ensures { (files : List (List ℕ)) (contents : Contents) → contents_of files ≡ Ok contents →
        contents.zones ≡ zones_said (records_of files) }
{}

/// A link of a database that a source is read as has the place of the zone that its target reaches.
pub fn links_stand_for_zones_that_they_reach()
    ensures { (source : Source) (db : Db) (reads : Reads source db) (link : Link) → Contains db.links link →
        (zone : Zone) × (slice_get db.zones link.zone ≡ Some zone)
        × LeadsTo reads.contents.zones reads.contents.links link.target zone.name }
{}

//! Versions, and their zones by name.
ghost use Rattle.std.specs.Prelude.{◌≡◌, ◌<◌, ◌↔◌, length, Err, IsErr, IfOk, IfErr};
ghost use Rattle.tz_types.specs.declared.fault.Fault.{Fault};

use crate::ready_zones::{compiled_zones, empty_cells};
use crate::search::place_called;
use crate::texts::{database, leap_table};
use crate::{MakeError, NoZone, Sources};
use pin_book::Payload;
use std::alloc::Global;
use std::marker::Model;
use std::sync::Arc;
use tz_expand::CompiledZone;
use tz_types::{Db, Items, Leaps, Link, Shared, VersionText};
use tz_windows::{Cells, ZoneRef};

/// One release: its version text, its zones ready for questions, its links, and the leap table that came with it.
///
/// It keeps the sources that it was made from and the place of its own among them, so that two versions are told to be of one
/// source by what they keep.
#[derive(Debug, Drop)]
pub struct Version {
    sources: Shared<Sources>,
    src: u32,
    name: VersionText,
    leaps: Leaps,
    zones: Items<Shared<CompiledZone>>,
    links: Items<Link>,
    cells: Items<Cells>,
}

impl Model for Version {
    ghost use Rattle.tz_version.specs.Release.{Release};
    ghost use Rattle.tz_version.specs.Kept.{IsKept};

    ghost Value = { Release };

    ghost view = { λ version. record { sources = version.sources; src = version.src; name = version.name; leaps = version.leaps; zones = version.zones; links = version.links } };

    ghost invariant = { λ version. IsKept (record { sources = version.sources; src = version.src; name = version.name; leaps = version.leaps; zones = version.zones; links = version.links }) version.cells };
}

impl Version {
    ghost use Rattle.tz_version.specs.Release.{IsVersionOf, IsZoneCalled, LacksZone};
    ghost use Rattle.tz_version.specs.Refusal.{RefusesLeapText, RefusesSource, MeansMakeError};

    /// The version of the source at a place.
    fn of_source(alloc: Global, sources: &Shared<Sources>, src: u32) -> Result<Self, MakeError>
        requires { src < length sources.now.texts }
        ensures ok { IfOk result (λ version. IsVersionOf sources.now src version) }
        ensures refused { IfErr result (λ e. MeansMakeError e sources.now src) }
    {
        let home = sources.get();
        let source = &home.texts.as_slice()[src as usize];
        let leaps = leap_table(alloc, home.leaps.as_slice())?;
        let db = database(alloc, source)?;
        let zones = compiled_zones(alloc, &db)?;
        let cells = empty_cells(alloc, zones.len())?;
        let Db {
            version: name,
            links,
            ..
        } = db;
        Ok(Version {
            sources: sources.share()?,
            src,
            name,
            leaps,
            zones,
            links,
            cells,
        })
    }

    /// Makes the version of the source at place `src`: reads the leap text and the source whole, and compiles each zone once.
    ///
    /// `NoMemory` may come at any time. Memory aside, `Leaps` comes exactly where the leap text is refused, with its fault, and
    /// `Text` exactly where the leap text is accepted and the source refused, with the source's.
    pub fn read(alloc: Global, sources: &Shared<Sources>, src: u32) -> Result<Self, MakeError>
        requires { src < length sources.now.texts }
        ensures ok { IfOk result (λ version. IsVersionOf sources.now src version) }
        ensures leaps { (fault : Fault) → ¬ (result ≡ Err MakeError.NoMemory) → (result ≡ Err (MakeError.Leaps fault)) ↔ RefusesLeapText sources.now.leaps fault }
        ensures text { (fault : Fault) → ¬ (result ≡ Err MakeError.NoMemory) → (result ≡ Err (MakeError.Text fault)) ↔ RefusesSource sources.now src fault }
    {
        Version::of_source(alloc, sources, src)
    }

    /// Makes the version as `read` does, to be shared.
    pub fn make(
        alloc: Global,
        sources: &Shared<Sources>,
        src: u32,
    ) -> Result<Shared<Version>, MakeError>
        requires { src < length sources.now.texts }
        ensures ok { IfOk result (λ version. IsVersionOf sources.now src version) }
        ensures leaps { (fault : Fault) → ¬ (result ≡ Err MakeError.NoMemory) → (result ≡ Err (MakeError.Leaps fault)) ↔ RefusesLeapText sources.now.leaps fault }
        ensures text { (fault : Fault) → ¬ (result ≡ Err MakeError.NoMemory) → (result ≡ Err (MakeError.Text fault)) ↔ RefusesSource sources.now src fault }
    {
        match Version::of_source(alloc, sources, src) {
            Ok(version) => match Arc::new(alloc, version) {
                Ok(arc) => Ok(Shared::from_arc(arc)),
                Err(_) => Err(MakeError::NoMemory),
            },
            Err(error) => Err(error),
        }
    }

    /// The place of its source among the sources.
    pub fn src(&self) -> u32
        ensures { result ≡ self.now.src }
    {
        self.src
    }

    /// A copy of its version text.
    pub fn name(&self) -> VersionText
        ensures name { result ≡ self.now.name }
        ensures is { IsVersionOf self.now.sources self.now.src self.now }
    {
        self.name.copied()
    }

    /// Its leap table.
    pub fn leaps(&self) -> &Leaps
        ensures leaps { result.now ≡ self.now.leaps }
        ensures is { IsVersionOf self.now.sources self.now.src self.now }
    {
        &self.leaps
    }

    /// Its zones, in the order of their names.
    pub fn zones(&self) -> &[Shared<CompiledZone>]
        ensures zones { result.now ≡ self.now.zones }
        ensures is { IsVersionOf self.now.sources self.now.src self.now }
    {
        self.zones.as_slice()
    }

    /// The zone that a name stands for: the one of that name, or else the one that the link of that name leads to. `NoZone` comes
    /// exactly where no zone and no link has the name. It is found by search in sorted order, and takes no memory.
    pub fn zone(&self, name: &[u8]) -> Result<ZoneRef<'_>, NoZone>
        ensures found { IfOk result (λ zone. IsZoneCalled self.now name.now zone) }
        ensures missing { IsErr result ↔ LacksZone self.now name.now }
        ensures is { IsVersionOf self.now.sources self.now.src self.now }
    {
        match place_called(self.zones.as_slice(), self.links.as_slice(), name) {
            Some(place) => Ok(ZoneRef::new(
                &self.zones.as_slice()[place],
                &self.cells.as_slice()[place],
            )),
            None => Err(NoZone),
        }
    }
}

/// A list of versions keeps copies of one: its home is the sources that it was made from.
impl Payload for Version {
    ghost use Rattle.tz_version.specs.Release.{Release, version_name};

    type Home = Sources;

    ghost home = { λ version. version.sources };

    ghost source = { λ version. version.src };

    ghost name_of = { version_name };

    fn src(&self) -> u32 {
        self.src
    }

    fn name(&self) -> VersionText {
        self.name.copied()
    }
}

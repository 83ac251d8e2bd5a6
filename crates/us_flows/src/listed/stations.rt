ghost use Rattle.std.specs.Prelude.{◌≡◌, List, ◌++◌, [], ◌∷◌, false, length, map, IfOk, OnOk};
ghost use Rattle.us_flows.specs.Checks.{has_station};
ghost use Rattle.std.specs.Map.{values_of};
ghost use Rattle.us_flows.specs.Lawful.{AreApart};
ghost use Rattle.us_flows.specs.Listed.{by_id};
ghost use Rattle.us_flows.specs.declared.stations.Station.{Station};

use crate::stations::Station;
use indexmap::IndexMap;
use std::alloc::{AllocError, Global};
use std::marker::Model;

/// Stations in table order, found by id.
pub(crate) struct Stations {
    map: IndexMap<u16, Station>,
}

impl Model for Stations {
    ghost Value = { List Station };

    ghost view = { λ c. values_of c.map.entries };

    ghost invariant = { λ c. c.map.entries ≡ by_id (λ station. station.id) (values_of c.map.entries) };
}

/// Gives the stations up. It is written out so that it is one step wherever they end.
impl Drop for Stations {
    fn drop(self) {
        let Stations { map: _ } = self;
    }
}

impl Stations {
    /// No station.
    pub(crate) fn new(alloc: Global) -> Stations
        ensures { result ≡ [] }
    {
        Stations {
            map: IndexMap::new(alloc),
        }
    }

    /// Whether a station has this id.
    pub(crate) fn has(&self, id: u16) -> bool
        ensures { result ≡ has_station self.now id }
    {
        self.map.contains_key(&id)
    }

    /// How many there are.
    pub(crate) fn len(&self) -> usize
        ensures { result ≡ length self.now }
    {
        self.map.len()
    }

    /// Puts a station last.
    pub(crate) fn push(&mut self, station: Station) -> Result<(), AllocError>
        requires { has_station self.old station.id ≡ false }
        ensures { OnOk result (self.new ≡ self.old ++ station ∷ []) }
    {
        self.map.insert(station.id, station)?;
        Ok(())
    }

    /// These stations in this order, in memory of their own.
    pub(crate) fn copied(alloc: Global, stations: &[Station]) -> Result<Stations, AllocError>
        requires { AreApart (map (λ station. station.id) stations.now) }
        ensures { IfOk result (λ copy. copy ≡ stations.now) }
    {
        let mut copy = Stations::new(alloc);
        for station in stations {
            copy.push(*station)?;
        }
        Ok(copy)
    }

    /// All of them in table order.
    pub(crate) fn all(&self) -> &[Station]
        ensures { result.now ≡ self.now }
    {
        self.map.values().as_slice()
    }
}

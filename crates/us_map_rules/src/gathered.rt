ghost use Rattle.std.specs.Prelude.{◌≡◌, ℕ, ◌+◌, ◌^◌, ◌<◌, ◌≤◌, ◌*◌, ◌++◌, ◌∷◌, [], List, true, false, length, IfOk, OnOk};
ghost use Rattle.us_output.specs.declared.rows.Row.{Row};
ghost use Rattle.us_lawful.specs.Runs.{Run, RoundMap, run_in};
ghost use Rattle.us_lawful.specs.Regions.{regions_hold};
ghost use Rattle.us_reports.specs.Breaches.{IsFirstBreach};
ghost use Rattle.us_map_rules.specs.MapsReading.{IsMapsOf};
ghost use Rattle.us_map_rules.specs.RegionLines.{PlacedRegion, number_behind, placed_line};
ghost use Rattle.us_map_rules.specs.Gathered.{AreTold, IsPlaceIn, IsStateOf, IsTaken, is_told};

use crate::map_regions::keep_first;
use crate::pieces::first_elements;
use crate::region_lines::{map_at, place_told, region_of};
use crate::regions::Region;
use std::alloc::Global;
use us_flows::Config;
use us_reports::Place;
use us_requests::Trace;
use us_round::Row;
use us_slots::NoMemory;

/// What becomes of a line that [`MapRegions`] is told.
#[derive(Clone, Copy, Debug, PartialEq, Eq)]
pub enum Taken {
    /// It is told.
    Told,
    /// The same, and it is of this round and channel, of which the run lacks one or both.
    Lacked(Place),
    /// It isn't told: it comes too late, behind a line of a later MAP.
    Late,
}

/// The rule of minislots, told one line after another in the order of MAPs: by round, and then by channel in table order. The
/// minislots of one MAP are kept at a time, and its elements are read where they stand in the maps file.
pub struct MapRegions {
    /// The number of the MAP whose lines come.
    number: u64,
    /// Where its record begins in the maps file.
    at: usize,
    /// The minislots of its lines.
    regions: Vec<Region>,
    /// The place of its channel in the table, where that of a line is looked for first.
    near: usize,
    /// Of the MAPs before it, the number of the first that has a minislot that isn't what it must be, and that minislot.
    first: Option<(u64, u64)>,
}

/// Gives it up. It is written out so that it is one step wherever it ends.
impl Drop for MapRegions {
    fn drop(self) {
        let MapRegions {
            number: _,
            at: _,
            regions: _,
            near: _,
            first: _,
        } = self;
    }
}

impl MapRegions {
    /// No line is told.
    pub fn new(alloc: Global) -> MapRegions
        ensures { (run : Run) (bytes : List ℕ) (maps : List RoundMap) → IsMapsOf bytes maps →
            AreTold run bytes maps [] result }
    {
        MapRegions {
            number: 0,
            at: 0,
            regions: Vec::new(alloc),
            near: 0,
            first: None,
        }
    }

    /// Tells a line more. One that comes too late changes nothing. After an error it isn't known what is told.
    #[inline(always)]
    pub fn take(
        &mut self,
        config: &Config,
        trace: &Trace,
        file: &[u8],
        line: &Row,
    ) -> Result<Taken, NoMemory>
        ensures answer { IfOk result (IsTaken (run_in config.now trace.now) self.old.number line.now) }
        ensures told { IfOk result (λ taken. is_told taken ≡ true → (maps : List RoundMap) (lines : List Row) →
            AreTold (run_in config.now trace.now) file.now maps lines self.old →
            AreTold (run_in config.now trace.now) file.now maps (lines ++ line.now ∷ []) self.new) }
        ensures number { IfOk result (λ taken. is_told taken ≡ true → self.new.number ≡
            number_behind self.old.number (placed_line config.now trace.now.rounds line.now)) }
        ensures late { IfOk result (λ taken. is_told taken ≡ false → self.new ≡ self.old) }
    {
        let Some(place) = place_told(line) else {
            return Ok(Taken::Told);
        };
        let near = self.near;
        let Some(map) = map_at(config, trace.rounds(), near, place.round, place.channel) else {
            return Ok(Taken::Lacked(place));
        };
        let Row::Granted(grant) = line else {
            return Ok(Taken::Told);
        };
        if map < self.number {
            return Ok(Taken::Late);
        }
        self.put(config, file, map, region_of(grant))?;
        Ok(Taken::Told)
    }

    /// Tells the minislots of a line more, which is for the MAP of this number.
    #[inline(always)]
    fn put(
        &mut self,
        config: &Config,
        file: &[u8],
        map: u64,
        region: Region,
    ) -> Result<(), NoMemory>
        requires { self.old.number ≤ map }
        ensures told { let one : PlacedRegion = record { map = map; region = region } in
            OnOk result ((rounds : ℕ) (maps : List RoundMap) (placed : List PlacedRegion) →
            map < rounds * length config.now.channels →
            IsStateOf config.now rounds file.now maps placed self.old →
            IsStateOf config.now rounds file.now maps (placed ++ one ∷ []) self.new) }
        ensures number { OnOk result (self.new.number ≡ map) }
    {
        self.close_before(config, file, map)?;
        self.regions.push(region)?;
        Ok(())
    }

    /// Judges the MAPs before this one. Each line asks for it, and mostly there is none.
    #[inline(always)]
    fn close_before(&mut self, config: &Config, file: &[u8], number: u64) -> Result<(), NoMemory>
        ensures number { OnOk result (self.old.number ≤ number → self.new.number ≡ number) }
        ensures told { OnOk result ((rounds : ℕ) (maps : List RoundMap) (placed : List PlacedRegion) →
            number ≤ rounds * length config.now.channels →
            IsStateOf config.now rounds file.now maps placed self.old →
            IsStateOf config.now rounds file.now maps placed self.new) }
    {
        if self.number < number {
            self.close_until(config, file, number)?;
        }
        Ok(())
    }

    /// The same, where there are some.
    #[inline(never)]
    fn close_until(&mut self, config: &Config, file: &[u8], number: u64) -> Result<(), NoMemory>
        ensures number { OnOk result (self.old.number ≤ number → self.new.number ≡ number) }
        ensures told { OnOk result ((rounds : ℕ) (maps : List RoundMap) (placed : List PlacedRegion) →
            number ≤ rounds * length config.now.channels →
            IsStateOf config.now rounds file.now maps placed self.old →
            IsStateOf config.now rounds file.now maps placed self.new) }
    {
        while self.number < number {
            self.close(config, file)?;
        }
        Ok(())
    }

    /// Judges the MAP whose lines came, and goes on to the next one.
    #[inline(always)]
    fn close(&mut self, config: &Config, file: &[u8]) -> Result<(), NoMemory>
        requires { self.old.number + 1 < 2 ^ 64 }
        ensures number { OnOk result (self.new.number ≡ self.old.number + 1) }
        ensures told { OnOk result ((rounds : ℕ) (maps : List RoundMap) (placed : List PlacedRegion) →
            self.old.number < rounds * length config.now.channels →
            IsStateOf config.now rounds file.now maps placed self.old →
            IsStateOf config.now rounds file.now maps placed self.new) }
    {
        let at = self.at.min(file.len());
        let (elements, len) = first_elements(&file[at..]);
        let regions = &mut self.regions;
        keep_first(&mut self.first, config, self.number, regions, elements)?;
        self.regions.clear();
        self.number += 1;
        self.near = next_place(self.near, config.channels().len());
        self.at = at + len;
        Ok(())
    }

    /// The first place at which a minislot of a MAP isn't what it must be, by the lines that were told. After it nothing is
    /// known of what is told.
    pub fn breach(
        &mut self,
        config: &Config,
        trace: &Trace,
        file: &[u8],
    ) -> Result<Option<Place>, NoMemory>
        ensures { IfOk result (λ first. (maps : List RoundMap) (lines : List Row) →
            AreTold (run_in config.now trace.now) file.now maps lines self.old →
            IsFirstBreach config.now.channels
            (λ p. regions_hold (run_in config.now trace.now) (record { maps = maps; lines = lines }) p ≡ true) first) }
    {
        let count = u64::from(trace.rounds()) * config.channels().len() as u64;
        self.close_before(config, file, count)?;
        match self.first {
            Some((number, third)) => Ok(Some(place_in(config, number, third))),
            None => Ok(None),
        }
    }
}

/// The place behind this one in a table of so many, or the first one.
fn next_place(place: usize, count: usize) -> usize {
    let next = place.wrapping_add(1);
    if next < count { next } else { 0 }
}

/// A minislot of the MAP of this number.
fn place_in(config: &Config, number: u64, third: u64) -> Place
    ensures { IsPlaceIn config.now.channels number third result }
{
    let channels = config.channels();
    let count = channels.len() as u64;
    Place {
        round: number / count,
        channel: u64::from(channels[(number % count) as usize].id),
        third,
    }
}

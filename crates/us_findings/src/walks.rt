ghost use Rattle.std.specs.Prelude.{◌≡◌, length, IfOk};
ghost use Rattle.std.specs.List.{All};
ghost use Rattle.us_findings.specs.Places.{IsWithin};

use crate::documents::{key_of, list_at};
use crate::scopes::Scope;
use crate::spots::{Found, KeyPath, Spot};
use crate::tokens::{behind_value, key_before, past};
use std::alloc::Global;
use toml_parser::text::{first, skip_blank, skip_ws};
use toml_parser::{Key, ParseError};
use us_flows::{Place, TableName};
use us_slots::NoMemory;

/// Where each of these tables and keys stands in the text of a document, in the same order. Of a text that is no document,
/// the places are those up to where it goes wrong.
pub fn spots_of(alloc: Global, text: &str, wanted: &[KeyPath<'_>]) -> Result<Vec<Spot>, NoMemory>
    ensures count { IfOk result (λ spots. length spots.items ≡ length wanted.now) }
    ensures within { IfOk result (λ spots. All (IsWithin (length text.now)) spots.items) }
{
    let found = found_in(alloc, text, wanted)?;
    spots_in(alloc, &found, wanted.len(), text.len())
}

/// So many spots of what was found in a text of so many bytes.
fn spots_in(
    alloc: Global,
    found: &[Found<'_>],
    count: usize,
    len: usize,
) -> Result<Vec<Spot>, NoMemory>
    ensures count { IfOk result (λ spots. length spots.items ≡ count) }
    ensures within { IfOk result (λ spots. All (IsWithin len) spots.items) }
{
    let mut spots = Vec::new(alloc);
    for place in 0..count {
        spots.push(spot_at(found, place).within(len))?;
    }
    Ok(spots)
}

/// The spot of what is looked for at a place.
fn spot_at(found: &[Found<'_>], place: usize) -> Spot {
    match found.get(place) {
        Some(found) => found.spot,
        None => Spot::of(0),
    }
}

/// What a walk over the text finds of these.
fn found_in<'w>(
    alloc: Global,
    text: &str,
    wanted: &[KeyPath<'w>],
) -> Result<Vec<Found<'w>>, NoMemory> {
    let mut found = Vec::new(alloc);
    for path in wanted {
        found.push(Found {
            wanted: *path,
            spot: Spot::of(0),
            is_own: false,
        })?;
    }
    let mut walk = Walk {
        alloc,
        text,
        found,
        counts: [0; 3],
        section: Some(Scope::TOP),
        open: Vec::new(alloc),
    };
    match walk.document() {
        Err(ParseError::OutOfMemory) => Err(NoMemory),
        Ok(()) | Err(ParseError::At(..)) => Ok(walk.found),
    }
}

/// A walk over the text of a document.
#[derive(Drop)]
struct Walk<'t, 'w> {
    alloc: Global,
    text: &'t str,
    /// What is looked for, as far as it was met.
    found: Vec<Found<'w>>,
    /// How many tables of each list were met.
    counts: [u32; 3],
    /// The table below the last header, if something is looked for in it.
    section: Option<Scope>,
    /// The brackets that are open, of those that are looked into.
    open: Vec<Open>,
}

/// A table in braces, or a list of tables.
#[derive(Clone, Copy)]
struct Open {
    /// The table, or one of the list.
    scope: Scope,
    is_list: bool,
}

impl<'t> Walk<'t, '_> {
    /// From the start of the text, behind the mark of the order of bytes, to its end.
    fn document(&mut self) -> Result<(), ParseError> {
        let mut rest = self.text.strip_prefix('\u{feff}').unwrap_or(self.text);
        for _ in 0..self.text.len() {
            rest = skip_blank(rest, true);
            if rest.is_empty() {
                break;
            }
            rest = match self.open.last().copied() {
                Some(open) => self.member(open, rest),
                None if first(rest) == b'[' => self.header(past(rest)),
                None => self.pair(self.section, rest),
            }?;
        }
        Ok(())
    }

    /// A header, behind its first bracket: what stands behind.
    fn header(&mut self, inside: &'t str) -> Result<&'t str, ParseError> {
        let spot = Spot::of(self.offset(inside).saturating_sub(1));
        let is_item = first(inside) == b'[';
        let name = if is_item { past(inside) } else { inside };
        let (key, rest) = key_before(self.alloc, skip_ws(name), b']')?;
        let is_next = is_item & key.path.is_empty();
        self.section = self.meet_key(Some(Scope::TOP), &key, spot, is_next);
        Ok(if is_item { past(rest) } else { rest })
    }

    /// A key with its value, in a table where something is looked for or not: what stands behind, or inside.
    fn pair(&mut self, scope: Option<Scope>, start: &'t str) -> Result<&'t str, ParseError> {
        let (key, value) = key_before(self.alloc, start, b'=')?;
        let value = skip_ws(value);
        let rest = behind_value(self.alloc, value)?;
        let spot = Spot {
            at: self.offset(start),
            from: self.offset(value),
            to: self.offset(rest),
        };
        let inside = self.meet_key(scope, &key, spot, false);
        self.enter(inside, value, rest)
    }

    /// Into a table in braces or a list of tables that is looked into, and else behind the value.
    fn enter(
        &mut self,
        inside: Option<Scope>,
        value: &'t str,
        rest: &'t str,
    ) -> Result<&'t str, ParseError> {
        match (inside, first(value)) {
            (Some(scope), b'{') => self.descend(scope, false, value),
            (Some(scope), b'[') if scope.profile.is_none() => self.descend(scope, true, value),
            _ => Ok(rest),
        }
    }

    /// What stands in a table in braces or in a list, or its end.
    fn member(&mut self, open: Open, start: &'t str) -> Result<&'t str, ParseError> {
        match first(start) {
            b'}' | b']' => {
                let _ = self.open.pop();
                Ok(past(start))
            }
            b',' => Ok(past(start)),
            _ if open.is_list => self.item(open.scope, start),
            _ => self.pair(Some(open.scope), start),
        }
    }

    /// An item of a list, which may be a table.
    fn item(&mut self, list: Scope, start: &'t str) -> Result<&'t str, ParseError> {
        let spot = Spot::of(self.offset(start));
        let scope = self.meet_part(Scope::TOP, key_of(list.place.table), spot, true);
        match scope {
            Some(scope) if first(start) == b'{' => self.descend(scope, false, start),
            _ => behind_value(self.alloc, start),
        }
    }

    /// Into brackets that begin here.
    fn descend(
        &mut self,
        scope: Scope,
        is_list: bool,
        start: &'t str,
    ) -> Result<&'t str, ParseError> {
        self.open.push(Open { scope, is_list })?;
        Ok(past(start))
    }

    /// A key of a table where something is looked for or not: the table that it names, which may be the next one of a list.
    fn meet_key(
        &mut self,
        scope: Option<Scope>,
        key: &Key,
        spot: Spot,
        is_next: bool,
    ) -> Option<Scope> {
        let mut scope = scope?;
        for part in &key.path {
            scope = self.meet_part(scope, part.as_str(), Spot::of(spot.at), false)?;
        }
        self.meet_part(scope, key.last.as_str(), spot, is_next)
    }

    /// A part of a key: the table that it names, of a list the last one, or the next one, which stands here.
    fn meet_part(&mut self, scope: Scope, name: &str, spot: Spot, is_next: bool) -> Option<Scope> {
        let path = KeyPath {
            place: scope.place,
            profile: scope.profile,
            key: Some(name),
        };
        self.meet(path, spot);
        if scope.place.table != TableName::Top {
            return scope.profile_named(name);
        }
        let place = self.item_of(name, is_next)?;
        if is_next {
            self.meet(KeyPath::of(place, None), Spot::of(spot.at));
        }
        Some(Scope {
            place,
            profile: None,
        })
    }

    /// The last table of the list with this name, or the next one.
    fn item_of(&mut self, name: &str, is_next: bool) -> Option<Place> {
        let (list, table) = list_at(name)?;
        let count = self.counts.get_mut(list)?;
        *count = count.saturating_add(u32::from(is_next));
        Some(Place {
            table,
            index: count.saturating_sub(1),
        })
    }

    /// Notes where a table or a key stands.
    fn meet(&mut self, met: KeyPath<'_>, spot: Spot) {
        for found in self.found.iter_mut() {
            found.meet(met, spot);
        }
    }

    /// The place at which this rest of the text begins.
    fn offset(&self, rest: &str) -> usize {
        self.text.len().saturating_sub(rest.len())
    }
}

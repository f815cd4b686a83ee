// Rows of decimals, in room that is made once.
ghost use Rattle.std.specs.Prelude.{◌≡◌, ◌+◌, ◌*◌, ◌^◌, ◌<◌, ◌≤◌, [], ◌∷◌, ◌++◌, length, map, take, set, get_or, slice_get, unsigned_abs, Some, IfOk};
ghost use Rattle.std.specs.List.{All};
ghost use Rattle.dk_num.specs.Units.{in_units, IsUnitExponent};

use crate::region::Region;
use dk_num::{Dec, Unit, from_units};
use std::alloc::{AllocError, Global};
use std::marker::Model;

/// Names a row by its place, counted from 0.
#[derive(Clone, Copy, Debug, PartialEq, Eq)]
pub struct RowId {
    /// How many rows stand before it.
    pub index: u32,
}

/// Rows of decimals of one width, in order, with room for a fixed number of rows.
///
/// Contracts see the rows, the width and for how many more rows there is room. Only `reserve` takes memory: one region for
/// all rows, in which they lie one behind another. It is given back with the pool. Rows of no decimals take none.
pub struct Pool {
    alloc: Global,
    region: Option<Region<Dec, Global>>,
    room: usize,
    count: usize,
    width: usize,
}

impl Model for Pool {
    ghost use Rattle.dk_pool.specs.Pool.{PoolState};
    ghost use Rattle.dk_pool.specs.Rows.{IsPool, pool_of};

    ghost Value = { PoolState };

    ghost view = { λ p. pool_of p.region p.room p.count p.width };

    ghost invariant = { λ p. IsPool p.alloc p.region p.room p.count p.width };
}

impl Drop for Pool {
    fn drop(self) {
        let Pool {
            alloc,
            region,
            room: _,
            count: _,
            width: _,
        } = self;
        if let Some(region) = region {
            region.give_back(&alloc);
        }
    }
}

impl Pool {
    /// A pool with no rows, and room for so many rows of so many decimals each.
    ///
    /// There are fewer than 2^32 rows, and together they have at most 2^25 decimals.
    pub fn reserve(alloc: Global, rows: usize, width: usize) -> Result<Pool, AllocError>
        requires has_few_rows { rows < 2 ^ 32 }
        requires has_few_decimals { rows * width ≤ 2 ^ 25 }
        ensures begins_empty { IfOk result (λ p. p ≡ record { rows = []; width = width; spare = rows }) }
    {
        let places = rows * width;
        let region = if places == 0 {
            None
        } else {
            Some(Region::reserve(&alloc, places)?)
        };
        Ok(Pool {
            alloc,
            region,
            room: rows,
            count: 0,
            width,
        })
    }

    /// For how many more rows there is room.
    pub fn spare(&self) -> usize
        ensures gives_spare { result ≡ self.now.spare }
        ensures stays_small { length self.now.rows + self.now.spare < 2 ^ 32 }
    {
        self.room - self.count
    }

    /// How many rows there are.
    pub fn count(&self) -> usize
        ensures gives_count { result ≡ length self.now.rows }
        ensures stays_small { length self.now.rows + self.now.spare < 2 ^ 32 }
    {
        self.count
    }

    /// How many decimals each row has.
    pub fn width(&self) -> usize
        ensures gives_width { result ≡ self.now.width }
    {
        self.width
    }

    /// Puts a row of the width behind the others, where there is room for one, and names it.
    ///
    /// Afterwards there is room for one row fewer, and the rows before it are as they were.
    pub fn put_row(&mut self, row: &[Dec]) -> RowId
        requires has_room { 1 ≤ self.old.spare }
        requires has_width { length row.now ≡ self.old.width }
        ensures adds_row { self.new.rows ≡ self.old.rows ++ row.now ∷ [] }
        ensures keeps_width { self.new.width ≡ self.old.width }
        ensures takes_room { self.new.spare + 1 ≡ self.old.spare }
        ensures names_row { result.index ≡ length self.old.rows }
    {
        let index = self.count as u32;
        if let Some(region) = &mut self.region {
            region.write_all(self.count * self.width, row);
        }
        self.count += 1;
        RowId { index }
    }

    /// Puts a row of the width behind the others, where there is room for one, and names it: the decimals of these whole numbers
    /// of a unit, of at most 34 digits each.
    ///
    /// Afterwards there is room for one row fewer, and the rows before it are as they were.
    pub fn put_units(&mut self, units: &[i128], unit: Unit) -> RowId
        requires has_room { 1 ≤ self.old.spare }
        requires has_width { length units.now ≡ self.old.width }
        requires is_unit_exponent { IsUnitExponent unit.exponent }
        requires are_small { All (λ k. unsigned_abs k < 10 ^ 34) units.now }
        ensures adds_row { self.new.rows ≡ self.old.rows ++ map (in_units unit.exponent) units.now ∷ [] }
        ensures keeps_width { self.new.width ≡ self.old.width }
        ensures takes_room { self.new.spare + 1 ≡ self.old.spare }
        ensures names_row { result.index ≡ length self.old.rows }
    {
        let id = RowId {
            index: self.count as u32,
        };
        if let Some(region) = &mut self.region {
            write_units(region, self.count * self.width, units, unit);
        }
        self.count += 1;
        id
    }

    /// Writes a decimal over the one at this place, counted from 0, of the row of this name, which is there.
    ///
    /// All other decimals stay as they were.
    pub fn set(&mut self, id: RowId, place: usize, number: Dec)
        requires is_there { id.index < length self.old.rows }
        requires is_place { place < self.old.width }
        ensures sets_number { self.new.rows ≡ set self.old.rows id.index (set (get_or self.old.rows id.index []) place number) }
        ensures keeps_width { self.new.width ≡ self.old.width }
        ensures keeps_room { self.new.spare ≡ self.old.spare }
    {
        if let Some(region) = &mut self.region {
            region.write(id.index as usize * self.width + place, number);
        }
    }

    /// The row of this name, which is there.
    pub fn row(&self, id: RowId) -> &[Dec]
        requires is_there { id.index < length self.now.rows }
        ensures lends_row { slice_get self.now.rows id.index ≡ Some result.now }
        ensures has_width { length result.now ≡ self.now.width }
    {
        match &self.region {
            Some(region) => region.view(id.index as usize * self.width, self.width),
            None => &[],
        }
    }

    /// Keeps so many of the first rows, of which there are at least as many, and removes the others.
    ///
    /// Afterwards there is room for as many more rows as were removed.
    pub fn truncate(&mut self, rows: usize)
        requires has_rows { rows ≤ length self.old.rows }
        ensures keeps_first_rows { self.new.rows ≡ take rows self.old.rows }
        ensures keeps_width { self.new.width ≡ self.old.width }
        ensures gives_room_back { self.new.spare + length self.new.rows ≡ self.old.spare + length self.old.rows }
    {
        self.count = rows;
    }
}

/// Writes the decimals of these whole numbers of a unit from this place on, over those that are there and behind the last.
fn write_units(region: &mut Region<Dec, Global>, start: usize, units: &[i128], unit: Unit)
    requires within { (start ≤ length region.old.values) × (start + length units.now ≤ region.old.room) }
    requires is_unit_exponent { IsUnitExponent unit.exponent }
    requires are_small { All (λ k. unsigned_abs k < 10 ^ 34) units.now }
    ensures block { (region.new.room ≡ region.old.room) × (region.new.alloc ≡ region.old.alloc) }
    ensures written { take (start + length units.now) region.new.values ≡ take start region.old.values ++ map (in_units unit.exponent) units.now }
    ensures reaches { start + length units.now ≤ length region.new.values }
{
    for place in 0..units.len() {
        region.write(start + place, from_units(units[place], unit));
    }
}

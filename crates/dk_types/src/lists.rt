// Small types over vectors, which contracts see as lists.
ghost use Rattle.std.specs.Prelude.{◌≡◌, ◌<◌, length, set, IfOk};

use dk_num::Dec;
use dk_outside::Text;
use dk_outside::texts::copy_texts;
use std::alloc::{AllocError, Global};
use std::marker::Model;

/// Labels in order.
#[derive(Debug, Drop)]
pub struct Labels {
    items: Vec<Text>,
}

impl Model for Labels {
    ghost use Rattle.std.specs.Prelude.{List, ℕ};

    ghost Value = { List (List ℕ) };

    ghost view = { λ l. l.items.items };
}

impl Labels {
    /// The same labels, owned.
    pub fn of(alloc: Global, items: &[Text]) -> Result<Labels, AllocError>
        ensures { IfOk result (λ l. l ≡ items.now) }
    {
        Ok(Labels {
            items: copy_texts(alloc, items)?,
        })
    }

    /// The labels of a vector, which takes no memory.
    pub fn of_vec(items: Vec<Text>) -> Labels
        ensures { result ≡ items.items }
    {
        Labels { items }
    }

    pub fn items(&self) -> &[Text]
        ensures { result.now ≡ self.now }
    {
        &self.items
    }

    /// Equal labels.
    pub fn copy(&self, alloc: Global) -> Result<Labels, AllocError>
        ensures { IfOk result (λ l. l ≡ self.now) }
    {
        Labels::of(alloc, self.items())
    }
}

/// Whole numbers of a study's unit, in order.
#[derive(Debug, Drop)]
pub struct Units {
    items: Vec<i128>,
}

impl Model for Units {
    ghost use Rattle.std.specs.Prelude.{List, ℤ};

    ghost Value = { List ℤ };

    ghost view = { λ u. u.items.items };
}

impl Units {
    /// The same numbers, owned.
    pub fn of(alloc: Global, items: &[i128]) -> Result<Units, AllocError>
        ensures { IfOk result (λ u. u ≡ items.now) }
    {
        Ok(Units {
            items: Vec::from_slice(alloc, items)?,
        })
    }

    /// The numbers of a vector, which takes no memory.
    pub fn of_vec(items: Vec<i128>) -> Units
        ensures { result ≡ items.items }
    {
        Units { items }
    }

    pub fn items(&self) -> &[i128]
        ensures { result.now ≡ self.now }
    {
        &self.items
    }

    /// Equal numbers.
    pub fn copy(&self, alloc: Global) -> Result<Units, AllocError>
        ensures { IfOk result (λ u. u ≡ self.now) }
    {
        Units::of(alloc, self.items())
    }

    /// Writes a number over the one at this place, counted from 0.
    pub fn set(&mut self, place: usize, number: i128)
        requires is_place { place < length self.old }
        ensures sets_number { self.new ≡ set self.old place number }
    {
        self.items[place] = number;
    }
}

/// Whole numbers that count, one a variable.
#[derive(Debug, Drop)]
pub struct Counts {
    items: Vec<u32>,
}

impl Model for Counts {
    ghost use Rattle.std.specs.Prelude.{List, ℕ};

    ghost Value = { List ℕ };

    ghost view = { λ c. c.items.items };
}

impl Counts {
    /// The same numbers, owned.
    pub fn of(alloc: Global, items: &[u32]) -> Result<Counts, AllocError>
        ensures { IfOk result (λ c. c ≡ items.now) }
    {
        Ok(Counts {
            items: Vec::from_slice(alloc, items)?,
        })
    }

    /// The numbers of a vector, which takes no memory.
    pub fn of_vec(items: Vec<u32>) -> Counts
        ensures { result ≡ items.items }
    {
        Counts { items }
    }

    pub fn items(&self) -> &[u32]
        ensures { result.now ≡ self.now }
    {
        &self.items
    }

    /// Equal numbers.
    pub fn copy(&self, alloc: Global) -> Result<Counts, AllocError>
        ensures { IfOk result (λ c. c ≡ self.now) }
    {
        Counts::of(alloc, self.items())
    }
}

/// Decimals in order, as a point or its values.
#[derive(Debug, Drop)]
pub struct Decs {
    items: Vec<Dec>,
}

impl Model for Decs {
    ghost use Rattle.std.specs.Prelude.{List};
    ghost use Rattle.dk_num.specs.Decimal.{Decimal};

    ghost Value = { List Decimal };

    ghost view = { λ d. d.items.items };
}

impl Decs {
    /// The same decimals, owned.
    pub fn of(alloc: Global, items: &[Dec]) -> Result<Decs, AllocError>
        ensures { IfOk result (λ d. d ≡ items.now) }
    {
        Ok(Decs {
            items: Vec::from_slice(alloc, items)?,
        })
    }

    /// The decimals of a vector, which takes no memory.
    pub fn of_vec(items: Vec<Dec>) -> Decs
        ensures { result ≡ items.items }
    {
        Decs { items }
    }

    pub fn items(&self) -> &[Dec]
        ensures { result.now ≡ self.now }
    {
        &self.items
    }

    /// Equal decimals.
    pub fn copy(&self, alloc: Global) -> Result<Decs, AllocError>
        ensures { IfOk result (λ d. d ≡ self.now) }
    {
        Decs::of(alloc, self.items())
    }
}

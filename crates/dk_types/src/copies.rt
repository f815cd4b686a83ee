// Copies of a study and its parts.
ghost use Rattle.std.specs.Prelude.{◌≡◌, IfOk};

use crate::{Driver, Interface, Method, Responses, Study, Text, Units, Variables, Way};
use std::alloc::{AllocError, Global};

impl Study {
    /// An equal study.
    pub fn copy(&self, alloc: Global) -> Result<Study, AllocError>
        ensures { IfOk result (λ study. study ≡ self.now) }
    {
        Ok(Study {
            unit: self.unit,
            variables: self.variables.copy(alloc)?,
            responses: self.responses.copy(alloc)?,
            method: self.method.copy(alloc)?,
            interface: self.interface.copy(alloc)?,
            table: copy_name(alloc, &self.table)?,
            limit: self.limit,
        })
    }
}

impl Variables {
    /// Equal variables.
    pub fn copy(&self, alloc: Global) -> Result<Variables, AllocError>
        ensures { IfOk result (λ variables. variables ≡ self.now) }
    {
        Ok(Variables {
            labels: self.labels.copy(alloc)?,
            initial: self.initial.copy(alloc)?,
            lower: copy_bound(alloc, &self.lower)?,
            upper: copy_bound(alloc, &self.upper)?,
        })
    }
}

impl Responses {
    /// Equal responses.
    pub fn copy(&self, alloc: Global) -> Result<Responses, AllocError>
        ensures { IfOk result (λ responses. responses ≡ self.now) }
    {
        Ok(Responses {
            labels: self.labels.copy(alloc)?,
            objectives: self.objectives,
        })
    }
}

impl Way {
    /// An equal way.
    pub fn copy(&self, alloc: Global) -> Result<Way, AllocError>
        ensures { IfOk result (λ way. way ≡ self.now) }
    {
        match self {
            Way::Step(step) => Ok(Way::Step(step.copy(alloc)?)),
            Way::Final(last) => Ok(Way::Final(last.copy(alloc)?)),
        }
    }
}

impl Method {
    /// An equal method.
    pub fn copy(&self, alloc: Global) -> Result<Method, AllocError>
        ensures { IfOk result (λ method. method ≡ self.now) }
    {
        match self {
            Method::Vector { steps, way } => Ok(Method::Vector {
                steps: *steps,
                way: way.copy(alloc)?,
            }),
            Method::List { points } => Ok(Method::List {
                points: points.copy(alloc)?,
            }),
            Method::Centered { step, counts } => Ok(Method::Centered {
                step: step.copy(alloc)?,
                counts: counts.copy(alloc)?,
            }),
            Method::Multidim { partitions } => Ok(Method::Multidim {
                partitions: partitions.copy(alloc)?,
            }),
            Method::Compass {
                delta,
                threshold,
                iterations,
                evaluations,
            } => Ok(Method::Compass {
                delta: *delta,
                threshold: *threshold,
                iterations: *iterations,
                evaluations: *evaluations,
            }),
        }
    }
}

impl Driver {
    /// An equal driver.
    pub fn copy(&self, alloc: Global) -> Result<Driver, AllocError>
        ensures { IfOk result (λ driver. driver ≡ self.now) }
    {
        match self {
            Driver::Direct => Ok(Driver::Direct),
            Driver::Fork { words } => Ok(Driver::Fork {
                words: words.copy(alloc)?,
            }),
        }
    }
}

impl Interface {
    /// An equal interface.
    pub fn copy(&self, alloc: Global) -> Result<Interface, AllocError>
        ensures { IfOk result (λ interface. interface ≡ self.now) }
    {
        Ok(Interface {
            driver: self.driver.copy(alloc)?,
            parameters: self.parameters.copy(alloc)?,
            results: self.results.copy(alloc)?,
            form: self.form,
            tag: self.tag,
            save: self.save,
            concurrency: self.concurrency,
            rule: self.rule.copy(alloc)?,
        })
    }
}

/// The same bounds, or none.
fn copy_bound(alloc: Global, bound: &Option<Units>) -> Result<Option<Units>, AllocError>
    ensures { IfOk result (λ copied. copied ≡ bound.now) }
{
    match bound {
        Some(units) => Ok(Some(units.copy(alloc)?)),
        None => Ok(None),
    }
}

/// The same name, or none.
fn copy_name(alloc: Global, name: &Option<Text>) -> Result<Option<Text>, AllocError>
    ensures { IfOk result (λ copied. copied ≡ name.now) }
{
    match name {
        Some(text) => Ok(Some(text.copy(alloc)?)),
        None => Ok(None),
    }
}

//! The versions of the watches in JSON.
ghost use Rattle.std.specs.Prelude.{◌≡◌, ◌≤◌, length, map, IfOk, All};
ghost use Rattle.serde_json.specs.View.{view};
ghost use Rattle.versions.specs.Versions.{IsLog};
ghost use Rattle.watches.specs.Watches.{IsInterval, interval_of};
ghost use Rattle.answers.specs.Json.{watch_json};

use crate::watched::watched;
use serde_json::Value;
use std::alloc::Global;
use versions::Accepted;
use watches::{Interval, Watches};
use words::{Memory, Shape};

/// The versions of a watch, by its number from 1.
fn watch_value(alloc: Global, watches: &Watches, number: u32) -> Result<Value, Memory>
    requires some { 1 ≤ number }
    requires within { number ≤ length watches.now.intervals }
    ensures { IfOk result (λ value. view value ≡ watch_json watches.now.log.edits (interval_of watches.now number)) }
{
    let versions = watches.versions_of(number);
    let mut values = Vec::new(alloc);
    for version in versions {
        values.push(Value::from(*version))?;
    }
    Ok(Value::Array(values))
}

/// The versions of each watch.
fn values_of(alloc: Global, watches: &Watches) -> Result<Vec<Value>, Memory>
    ensures { IfOk result (λ values. map view values.items ≡ map (watch_json watches.now.log.edits) watches.now.intervals) }
{
    let mut values = Vec::new(alloc);
    for before in 0..watches.len() {
        let value = watch_value(alloc, watches, before + 1)?;
        values.push(value)?;
    }
    Ok(values)
}

/// The versions of each watch of these intervals over these accepted edits.
pub(crate) fn watch_values(
    alloc: Global,
    shape: Shape,
    intervals: &[Interval],
    edits: &[Accepted],
) -> Result<Vec<Value>, Memory>
    requires few { length intervals.now ≤ 64 }
    requires intervals { All IsInterval intervals.now }
    requires log { IsLog (record { extent = shape; edits = edits.now }) }
    ensures { IfOk result (λ values. map view values.items ≡ map (watch_json edits.now) intervals.now) }
{
    if intervals.is_empty() {
        return Ok(Vec::new(alloc));
    }
    values_of(alloc, &watched(alloc, shape, intervals, edits)?)
}

//! The line that asks for the logarithms of a partition.
ghost use Rattle.std.specs.Prelude.{◌≡◌, map, IfOk};
ghost use Rattle.script_reader.specs.Forms.{rises_from, query_over, partition_queries, parts_form};
ghost use Rattle.script_reader.specs.Reading.{Reads};

use crate::command::{Ask, Command, Commands, Kind};
use crate::fault::{LineFault, Reason};
use crate::form::fields::{number_at, ticks_from, version_at};
use crate::form::queries::{MOST_END, MOST_RESOLUTION};
use crate::said::Said;
use crate::tally::Tally;
use std::alloc::Global;
use words::Memory;

/// The words of a partition into one interval, and of one into 64.
const FEWEST_WORDS: usize = 5;

const MOST_WORDS: usize = 68;

/// Whether none of the ticks exceeds the next one.
fn rises(ticks: &[u64]) -> bool
    ensures { result ≡ rises_from 0 ticks.now }
{
    let mut from = 0;
    for to in ticks {
        if from > *to {
            return false;
        }
        from = *to;
    }
    true
}

/// What is asked of an interval, at a resolution and a version.
fn query_over(r: u8, version: u64, kind: Kind, from: u64, to: u64) -> Command
    ensures { result ≡ query_over r version kind from to }
{
    let version = Some(version);
    Command::Ask(Ask {
        kind,
        from,
        to,
        r,
        version,
    })
}

/// The logarithm of each interval between the ticks, and then the signature of all of them together.
fn partition_queries(alloc: Global, r: u8, version: u64, ticks: &[u64]) -> Result<Commands, Memory>
    ensures { IfOk result (λ queries. queries ≡ partition_queries r version ticks.now) }
{
    let mut queries = Commands::new(alloc);
    let [start, ends @ ..] = ticks else {
        return Ok(queries);
    };
    let mut from = *start;
    for to in ends {
        queries.push(query_over(r, version, Kind::Log, from, *to))?;
        from = *to;
    }
    queries.push(query_over(r, version, Kind::Sig, *start, from))?;
    Ok(queries)
}

/// A line that asks for the logarithms of a partition.
pub(crate) fn read_parts(alloc: Global, tally: &Tally, words: &[&[u8]]) -> Result<Said, LineFault>
    ensures { Reads parts_form tally.now (map (λ w. w.now) words.now) result }
{
    if tally.sessions == 0 {
        return Err(LineFault::Bad(Reason::Place));
    }
    if words.len() < FEWEST_WORDS || words.len() > MOST_WORDS {
        return Err(LineFault::Bad(Reason::Fields));
    }
    let (Some(r), Some(version)) = (number_at(words, 1), version_at(words, 2)) else {
        return Err(LineFault::Bad(Reason::Number));
    };
    let Some(ticks) = ticks_from(alloc, words, 3, MOST_END)? else {
        return Err(LineFault::Bad(Reason::Time));
    };
    if !rises(&ticks) {
        return Err(LineFault::Bad(Reason::Interval));
    }
    if r > MOST_RESOLUTION {
        return Err(LineFault::Bad(Reason::Resolution));
    }
    let queries = partition_queries(alloc, r as u8, version, &ticks)?;
    Ok(Said::Commands(queries))
}

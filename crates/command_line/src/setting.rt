//! The options that stand in the words, with their values.
ghost use Rattle.std.specs.Prelude.{◌≡◌, ◌≤◌, ◌∷◌, false, length, map, IfOk, MatchOption, string_bytes, codes};
ghost use Rattle.std.specs.Str.{bytes_eq};
ghost use Rattle.command_line.specs.Settings.{valued_named, setting_at, before, settings_in};

use crate::values::{capacity_in, number_in, order_in};
use crate::wish::OrderList;
use std::alloc::Global;
use words::{Capacity, Memory};

/// The most commands of a generated script.
pub const MOST_COMMANDS: u32 = 10_000;

/// An option that has a value.
#[derive(Clone, Copy, Drop)]
pub(crate) enum Valued {
    Order,
    Cache,
    Gen,
}

/// An option with its value.
#[derive(Drop)]
pub(crate) enum Setting {
    Order(OrderList),
    Cache(Capacity),
    Json,
    Gen(u32),
}

// The option with a value that has this name.
fn valued_named(name: &str) -> Option<Valued>
    ensures { result ≡ valued_named name.now }
{
    match name {
        "--order" => Some(Valued::Order),
        "--cache" => Some(Valued::Cache),
        "--gen" => Some(Valued::Gen),
        _ => None,
    }
}

// The option at this value, `None` where the value is not of its form or outside of its range.
fn setting_at(alloc: Global, name: Valued, value: &str) -> Result<Option<Setting>, Memory>
    ensures { IfOk result (λ setting. setting ≡ setting_at name value.now) }
{
    Ok(match name {
        Valued::Order => order_in(alloc, value)?.map(Setting::Order),
        Valued::Cache => capacity_in(value).map(Setting::Cache),
        Valued::Gen => number_in(value, MOST_COMMANDS).map(Setting::Gen),
    })
}

// The option with a value that begins with this word, its value, and the words after it. `None` where
// no such option begins so, or it has no value.
fn split_value<'a>(word: &'a str, after: &'a [String]) -> Option<(Valued, &'a str, &'a [String])>
    requires { bytes_eq word.now (codes "--json") ≡ false }
    ensures { let settings = settings_in (word.now ∷ map string_bytes after.now) in
        MatchOption result (settings ≡ None) (λ r. (settings ≡ before (setting_at r.0 r.1.now) (settings_in (map string_bytes r.2.now))) × (length r.2.now ≤ length after.now)) }
{
    match word.split_once('=') {
        Some((name, value)) => Some((valued_named(name)?, value, after)),
        None => {
            let name = valued_named(word)?;
            let (value, after) = after.split_first()?;
            Some((name, value.as_str(), after))
        }
    }
}

/// The option that begins with this word, with its value, and the words after it. `None` where no
/// option begins so, or its value is missing or wrong.
pub(crate) fn split_setting<'a>(
    alloc: Global,
    word: &'a str,
    after: &'a [String],
) -> Result<Option<(Setting, &'a [String])>, Memory>
    ensures { let settings = settings_in (word.now ∷ map string_bytes after.now) in
        IfOk result (λ split. MatchOption split (settings ≡ None) (λ r. (settings ≡ before (Some r.0) (settings_in (map string_bytes r.1.now))) × (length r.1.now ≤ length after.now))) }
{
    if word == "--json" {
        return Ok(Some((Setting::Json, after)));
    }
    let Some((name, value, after)) = split_value(word, after) else {
        return Ok(None);
    };
    let Some(setting) = setting_at(alloc, name, value)? else {
        return Ok(None);
    };
    Ok(Some((setting, after)))
}

//! The script that a number generates.
ghost use Rattle.std.specs.Prelude.{◌≡◌, ◌+◌, ◌*◌, ◌%◌, ◌≤◌, IfOk};
ghost use Rattle.definitions.specs.Moves.{IsMove, plain};
ghost use Rattle.answers.specs.Generator.{entries_from, row_name, kind_at, command_from, generated};

use script_reader::{Ask, Command, Commands, Edit, Kind, Name, Script};
use std::alloc::Global;
use words::{Entries, Memory, Move, Shape};

/// The number that is drawn after this one.
fn drawn_after(z: u64) -> u64
    requires { z ≤ 65536 }
    ensures value { result ≡ (75 * z + 74) % 65537 }
    ensures bound { result ≤ 65536 }
{
    (75 * z + 74) % 65537
}

/// The entries that a number gives.
fn drawn_entries(alloc: Global, z: u64) -> Result<Vec<i64>, Memory>
    ensures { IfOk result (λ entries. entries.items ≡ entries_from z) }
{
    Ok(vec![in alloc; (z % 7) as i64 - 3, (z / 7 % 7) as i64 - 3]?)
}

/// The move of these entries.
fn drawn_move(alloc: Global, shape: Shape, z: u64) -> Result<Move, Memory>
    requires { shape ≡ record { width = 2; depth = 4 } }
    ensures { IfOk result (λ x. x ≡ plain 4 (entries_from z)) }
{
    let mut parts = Vec::new(alloc);
    parts.push(Entries::of(drawn_entries(alloc, z)?))?;
    match Move::of(alloc, shape, parts)? {
        Some(x) => Ok(x),
        None => unreachable!(),
    }
}

/// The name of the row of that number.
fn numbered_name(alloc: Global, i: u32) -> Result<Name, Memory>
    ensures { IfOk result (λ name. name ≡ row_name i) }
{
    Name::of(format!(in alloc; "r{i}")?)
}

/// The kind of query of the command of number i.
fn numbered_kind(i: u32) -> Kind
    ensures { result ≡ kind_at i }
{
    if i / 8 % 2 == 0 { Kind::Sig } else { Kind::Log }
}

/// The command of number i, which draws z.
fn drawn_command(alloc: Global, shape: Shape, z: u64, i: u32) -> Result<Command, Memory>
    requires shape { shape ≡ record { width = 2; depth = 4 } }
    requires bound { z ≤ 65536 }
    ensures { IfOk result (λ command. command ≡ command_from z i) }
{
    match i % 8 {
        0..=5 => Ok(Command::Edit(Edit::Append {
            name: numbered_name(alloc, i)?,
            tick: 64 * z,
            x: drawn_move(alloc, shape, z)?,
        })),
        6 => Ok(Command::Edit(Edit::Correct {
            name: numbered_name(alloc, i - 6)?,
            x: drawn_move(alloc, shape, z)?,
        })),
        _ => Ok(Command::Ask(Ask {
            kind: numbered_kind(i),
            from: 0,
            to: 65536 * (1 + z % 64),
            r: 16,
            version: None,
        })),
    }
}

/// The script of n commands, which four sessions take in turn.
pub fn gen_script(alloc: Global, n: u32) -> Result<Script, Memory>
    requires some { 1 ≤ n }
    requires within { n ≤ 10000 }
    ensures { IfOk result (λ script. script ≡ generated n) }
{
    let Ok(shape) = Shape::new(2, 4) else {
        unreachable!();
    };
    let mut first = Vec::new(alloc);
    let mut second = Vec::new(alloc);
    let mut third = Vec::new(alloc);
    let mut fourth = Vec::new(alloc);
    let mut z = n as u64;
    for i in 0..n {
        z = drawn_after(z);
        let command = drawn_command(alloc, shape, z, i)?;
        match i % 4 {
            0 => first.push(command)?,
            1 => second.push(command)?,
            2 => third.push(command)?,
            _ => fourth.push(command)?,
        }
    }
    let sessions = vec![in alloc;
        Commands::of(first),
        Commands::of(second),
        Commands::of(third),
        Commands::of(fourth),
    ]?;
    Ok(Script::of(shape, sessions, Vec::new(alloc)))
}

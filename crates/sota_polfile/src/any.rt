// Files of both versions.
ghost use Rattle.std.specs.Prelude.{◌≡◌, ◌≤◌, length, IfOk, Ok};
ghost use Rattle.sota_units.specs.Memory.{Answers};
ghost use Rattle.sota_polfile.specs.declared.any.AnyTable.{AnyTable};
ghost use Rattle.sota_polfile.specs.Limits.{POLICY_LIMIT};
ghost use Rattle.sota_polfile.specs.Words.{is_shortage};
ghost use Rattle.sota_polfile.specs.BracketFile.{IsAny, any_spelling, any_of};

use crate::bracket_reading::{BRACKET_MAGIC, bracket_of};
use crate::{BracketTable, PolicyFault, PolicyTable, read_policy};
use std::alloc::Global;

/// The table of a policy file of either version.
#[derive(Drop)]
pub enum AnyTable {
    /// Version 1: arcs and what they attain.
    One(PolicyTable),
    /// Version 2: arcs and bounds on both sides.
    Two(BracketTable),
}

/// What bytes mean, by the version that their first eight say.
fn any_of(alloc: Global, bytes: &[u8]) -> Result<AnyTable, PolicyFault>
    requires { length bytes.now ≤ POLICY_LIMIT }
    ensures { Answers is_shortage result (any_of bytes.now) }
{
    if bytes.starts_with(&BRACKET_MAGIC) {
        Ok(AnyTable::Two(bracket_of(alloc, bytes)?))
    } else {
        Ok(AnyTable::One(read_policy(alloc, bytes)?))
    }
}

/// The table of a policy file of either version, or the first fault of bytes that are none, from
/// the front on: that of version 2 where the first eight bytes are its own, and else that of
/// version 1. It takes no memory that the bytes do not back, whatever numbers they claim. Who made
/// the file does not matter: arcs and values are as they stand.
pub fn read_any(alloc: Global, bytes: &[u8]) -> Result<AnyTable, PolicyFault>
    requires { length bytes.now ≤ POLICY_LIMIT }
    // What is read and written again has the same bytes.
    ensures read { IfOk result (λ table. IsAny table × (bytes.now ≡ any_spelling table)) }
    // What is spelled so is read, unless memory runs out.
    ensures only { (table : AnyTable) → IsAny table → bytes.now ≡ any_spelling table
        → Answers is_shortage result (Ok table) }
    // Any other list of bytes is answered with its first fault.
    ensures exact { Answers is_shortage result (any_of bytes.now) }
{
    any_of(alloc, bytes)
}

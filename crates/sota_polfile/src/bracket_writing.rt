// A bracket table has one spelling.
ghost use Rattle.std.specs.Prelude.{◌≡◌, ◌+◌, ◌*◌, ◌<◌, ◌^◌, ◌++◌, length, OnOk, IfOk, Ok};
ghost use Rattle.std.specs.Int.{w64, to_be_bytes};
ghost use Rattle.sota_polfile.specs.declared.any.AnyTable.TheVariants.{Two};
ghost use Rattle.sota_polfile.specs.Bracket.{bracket_cells};
ghost use Rattle.sota_polfile.specs.BracketFile.{spelled_bracket_head, spelled_bracket_entry};
ghost use Rattle.sota_polfile.specs.BracketFile.{spelled_bracket_row, bracket_spelling, any_of};

use crate::writing::put_numbers;
use crate::{BracketEntry, BracketHead, BracketRow, BracketTable};
use sota_units::NoMemory;
use std::alloc::{AllocError, Global};

#[tactic(auto, unfolding(crate::specs::BracketFile::spelled_bracket_head))]
fn put_head(out: &mut Vec<u8>, head: &BracketHead) -> Result<(), AllocError>
    ensures { OnOk result (out.new.items ≡ out.old.items ++ spelled_bracket_head head.now) }
{
    out.extend_from_slice(b"SOTAPOL2")?;
    put_numbers(
        out,
        &[head.nodes, head.dest, head.origin, head.budget, head.scale],
    )
}

fn put_values(out: &mut Vec<u8>, lower: u64, upper: u64) -> Result<(), AllocError>
    ensures { OnOk result (out.new.items
        ≡ out.old.items ++ (to_be_bytes w64 lower ++ to_be_bytes w64 upper)) }
{
    out.extend_from_slice(&lower.to_be_bytes())?;
    out.extend_from_slice(&upper.to_be_bytes())
}

#[tactic(auto, unfolding(crate::specs::BracketFile::spelled_bracket_entry))]
fn put_entry(out: &mut Vec<u8>, entry: BracketEntry) -> Result<(), AllocError>
    ensures { OnOk result (out.new.items ≡ out.old.items ++ spelled_bracket_entry entry) }
{
    out.extend_from_slice(&entry.arc.to_be_bytes())?;
    put_values(out, entry.lower, entry.upper)
}

fn put_row(out: &mut Vec<u8>, row: &BracketRow) -> Result<(), AllocError>
    requires { length row.now.entries < 2 ^ 32 }
    ensures { OnOk result (out.new.items ≡ out.old.items ++ spelled_bracket_row row.now) }
{
    put_numbers(out, &[row.first, row.entries.len() as u32])?;
    for entry in row.entries.as_slice() {
        put_entry(out, *entry)?;
    }
    Ok(())
}

/// The bracket file of a table.
pub fn write_bracket(alloc: Global, table: &BracketTable) -> Result<Vec<u8>, NoMemory>
    ensures spelled { IfOk result (λ bytes. bytes.items ≡ bracket_spelling table.now) }
    // What is written is read as that table.
    ensures read { IfOk result (λ bytes. any_of bytes.items ≡ Ok (Two table.now)) }
    ensures len { IfOk result (λ bytes. length bytes.items
        ≡ 28 + 8 * length table.now.rows + 20 * bracket_cells table.now) }
{
    let rows = table.rows();
    let mut out = Vec::with_capacity(alloc, 28 + 8 * rows.len() + 20 * table.cells() as usize)?;
    put_head(&mut out, table.head())?;
    for row in rows {
        put_row(&mut out, row)?;
    }
    Ok(out)
}

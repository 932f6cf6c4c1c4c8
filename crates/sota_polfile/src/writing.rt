// A table has one spelling.
ghost use Rattle.std.specs.Prelude.{◌≡◌, ◌+◌, ◌*◌, ◌<◌, ◌^◌, ◌++◌, length, OnOk, IfOk, Ok};
ghost use Rattle.sota_polfile.specs.Table.{cells};
ghost use Rattle.sota_polfile.specs.Spelling.{spelled_numbers, spelled_head, spelled_entry};
ghost use Rattle.sota_polfile.specs.Spelling.{spelled_row, spelling};
ghost use Rattle.sota_polfile.specs.Faults.{policy_of};

use crate::{PolicyEntry, PolicyHead, PolicyRow, PolicyTable};
use sota_units::NoMemory;
use std::alloc::{AllocError, Global};

pub(crate) fn put_numbers(out: &mut Vec<u8>, ns: &[u32]) -> Result<(), AllocError>
    ensures { OnOk result (out.new.items ≡ out.old.items ++ spelled_numbers ns.now) }
{
    for n in ns {
        out.extend_from_slice(&n.to_be_bytes())?;
    }
    Ok(())
}

#[tactic(auto, unfolding(crate::specs::Spelling::spelled_head))]
fn put_head(out: &mut Vec<u8>, head: &PolicyHead, rows: u32) -> Result<(), AllocError>
    ensures { OnOk result (out.new.items ≡ out.old.items ++ spelled_head head.now rows) }
{
    out.extend_from_slice(b"SOTAPOL1")?;
    put_numbers(
        out,
        &[
            head.nodes,
            head.dest,
            head.origin,
            head.budget,
            head.scale,
            rows,
        ],
    )
}

#[tactic(auto, unfolding(crate::specs::Spelling::spelled_entry))]
fn put_entry(out: &mut Vec<u8>, entry: PolicyEntry) -> Result<(), AllocError>
    ensures { OnOk result (out.new.items ≡ out.old.items ++ spelled_entry entry) }
{
    out.extend_from_slice(&entry.arc.to_be_bytes())?;
    out.extend_from_slice(&entry.value.to_be_bytes())
}

#[tactic(auto, unfolding(crate::specs::Spelling::spelled_row))]
fn put_row(out: &mut Vec<u8>, row: &PolicyRow) -> Result<(), AllocError>
    requires { length row.now.entries < 2 ^ 32 }
    ensures { OnOk result (out.new.items ≡ out.old.items ++ spelled_row row.now) }
{
    put_numbers(out, &[row.node, row.first, row.entries.len() as u32])?;
    for entry in row.entries.as_slice() {
        put_entry(out, *entry)?;
    }
    Ok(())
}

/// The policy file of a table.
pub fn write_policy(alloc: Global, table: &PolicyTable) -> Result<Vec<u8>, NoMemory>
    ensures spelled { IfOk result (λ bytes. bytes.items ≡ spelling table.now) }
    // What is written is read as that table.
    ensures read { IfOk result (λ bytes. policy_of bytes.items ≡ Ok table.now) }
    ensures len { IfOk result (λ bytes. length bytes.items
        ≡ 32 + 12 * length table.now.rows + 12 * cells table.now) }
{
    let rows = table.rows();
    let mut out = Vec::with_capacity(alloc, 32 + 12 * rows.len() + 12 * table.cells() as usize)?;
    put_head(&mut out, table.head(), rows.len() as u32)?;
    for row in rows {
        put_row(&mut out, row)?;
    }
    Ok(out)
}

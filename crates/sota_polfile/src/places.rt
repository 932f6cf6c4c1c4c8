// What stands at a place of a file.
ghost use Rattle.std.specs.Prelude.{◌≡◌, ℕ, ◌+◌, ◌*◌, ◌≤◌, List, length, IfOk};
ghost use Rattle.std.specs.Int.{w32, w64};
ghost use Rattle.sota_polfile.specs.Places.{number_at, head_at, row_count, row_head_at, entry_at};
ghost use Rattle.sota_polfile.specs.Places.{all_at};
ghost use Rattle.sota_polfile.specs.BracketFile.{part_at, bracket_entry_at};

use crate::row::RowHead;
use crate::{BracketEntry, PolicyEntry, PolicyHead};
use std::alloc::{AllocError, Global};

#[tactic(auto, unfolding(crate::specs::Places::number_at))]
fn u32_at(bytes: &[u8], at: usize) -> u32
    requires { at + 4 ≤ length bytes.now }
    ensures { result ≡ number_at w32 bytes.now at }
{
    let (_, field) = bytes.split_at(at);
    u32::from_be_bytes([field[0], field[1], field[2], field[3]])
}

#[tactic(auto, unfolding(crate::specs::Places::number_at))]
fn u64_at(bytes: &[u8], at: usize) -> u64
    requires { at + 8 ≤ length bytes.now }
    ensures { result ≡ number_at w64 bytes.now at }
{
    let (_, field) = bytes.split_at(at);
    u64::from_be_bytes([
        field[0], field[1], field[2], field[3], field[4], field[5], field[6], field[7],
    ])
}

/// The head of a file. Both versions have its numbers at the same places.
pub(crate) fn head_at(bytes: &[u8]) -> PolicyHead
    requires { 28 ≤ length bytes.now }
    ensures { result ≡ head_at bytes.now }
{
    PolicyHead {
        nodes: u32_at(bytes, 8),
        dest: u32_at(bytes, 12),
        origin: u32_at(bytes, 16),
        budget: u32_at(bytes, 20),
        scale: u32_at(bytes, 24),
    }
}

/// How many rows the head of a file claims.
pub(crate) fn row_count(bytes: &[u8]) -> u32
    requires { 32 ≤ length bytes.now }
    ensures { result ≡ row_count bytes.now }
{
    u32_at(bytes, 28)
}

/// The row head at this place.
pub(crate) fn row_head_at(bytes: &[u8], at: usize) -> RowHead
    requires { at + 12 ≤ length bytes.now }
    ensures { result ≡ row_head_at bytes.now at }
{
    RowHead {
        node: u32_at(bytes, at),
        first: u32_at(bytes, at + 4),
        count: u64::from(u32_at(bytes, at + 8)),
    }
}

/// What stands at this place before the entries of a node.
pub(crate) fn part_at(bytes: &[u8], node: u32, at: usize) -> RowHead
    requires { at + 8 ≤ length bytes.now }
    ensures { result ≡ part_at bytes.now node at }
{
    RowHead {
        node,
        first: u32_at(bytes, at),
        count: u64::from(u32_at(bytes, at + 4)),
    }
}

/// What stands in a file in a fixed number of bytes.
pub(crate) trait Stored: Copy {
    /// What stands at a place of a list of bytes.
    ghost value_at: { List ℕ → ℕ → Self };

    ghost LENGTH: { ℕ };

    /// How many bytes it has.
    const LENGTH: usize;

    /// What stands at this place.
    fn read(bytes: &[u8], at: usize) -> Self
        requires { at + LENGTH ≤ length bytes.now }
        ensures { result ≡ value_at bytes.now at };
}

impl Stored for PolicyEntry {
    ghost value_at = { entry_at };

    ghost LENGTH = { 12 };

    const LENGTH: usize = 12;

    fn read(bytes: &[u8], at: usize) -> PolicyEntry {
        PolicyEntry {
            arc: u32_at(bytes, at),
            value: u64_at(bytes, at + 4),
        }
    }
}

impl Stored for BracketEntry {
    ghost value_at = { bracket_entry_at };

    ghost LENGTH = { 20 };

    const LENGTH: usize = 20;

    fn read(bytes: &[u8], at: usize) -> BracketEntry {
        BracketEntry {
            arc: u32_at(bytes, at),
            lower: u64_at(bytes, at + 4),
            upper: u64_at(bytes, at + 12),
        }
    }
}

/// So many of them, one after the other from this place on.
pub(crate) fn all_at<T: Stored>(
    alloc: Global,
    bytes: &[u8],
    at: usize,
    count: usize,
) -> Result<Vec<T>, AllocError>
    requires { at + T.LENGTH * count ≤ length bytes.now }
    ensures { IfOk result (λ list. list.items ≡ all_at T.value_at T.LENGTH bytes.now at count) }
{
    let mut list = Vec::with_capacity(alloc, count)?;
    for i in 0..count {
        list.push(T::read(bytes, at + T::LENGTH * i))?;
    }
    Ok(list)
}

//! The block, as Rust's `[MaybeUninit<T>]`: places side by side, each empty or written. All that
//! handles a raw pointer is here. The pointer, the owner of the places and the right to free them
//! are three values, as in `circular_buffer`.
ghost use Rattle.std.specs.Prelude.{◌≡◌, ℕ, ◌+◌, ◌<◌, ◌≤◌, List, Option, Some, None, map, length};
ghost use Rattle.std.specs.Prelude.{take, drop, replicate, slice_set, IfOk, IsTrue};
ghost use Rattle.std.specs.Borrow.{sem};
ghost use Rattle.std.specs.Mem.{type_size};
ghost use Rattle.std.specs.Vec.Ownership.{FitsInBlock};
ghost use base.Fml.{ftrue};
ghost use denote.RawPtr.{Ptr};
ghost use prog.Memory.{capped};
ghost use Rattle.sota_bank.specs.Places.{IsRun, spliced};
ghost use Rattle.sota_bank.specs.Ownership.{cells_own, cells_lent, deed_owns};

use std::alloc::{AllocError, Allocator};
use std::marker::{Model, PhantomData};
use std::mem::{align_of, size_of};
use std::ptr::copy_nonoverlapping;
use std::slice;

/// Where the block begins. It owns nothing.
pub struct Base<T> {
    ptr: *mut T,
}

impl<T> Clone for Base<T> {
    ghost use Rattle.std.specs.Prelude.{◌≡◌, ⊤};

    ghost is_clone = { λ x y. y ≡ x };

    ghost is_infallible = { λ _. ⊤ };

    fn clone(&self) -> Result<Base<T>, AllocError> {
        Ok(*self)
    }
}

impl<T> Copy for Base<T> {}

/// The owner of the places. It takes no space: the pointer and the number of places lie beside it.
pub struct Cells<T> {
    mark: PhantomData<*const T>,
    ghost at: { Ptr },
    ghost slots: { List (Option T) },
}

impl<T> Model for Cells<T> {
    ghost also_owns = { λ c. cells_own T.row c.at c.slots };

    ghost also_shares = { λ c _ κ. cells_lent T.row c.at c.slots κ };
}

/// The right to give the block of `len` places at `at` back to `alloc`. It takes no space.
pub struct Deed<T, A: Allocator> {
    mark: PhantomData<*const (T, A)>,
    ghost at: { Ptr },
    ghost len: { ℕ },
    ghost alloc: { A },
}

impl<T, A: Allocator> Model for Deed<T, A> {
    ghost also_owns = { λ d. deed_owns T.row (A.dealloc_token d.alloc) d.at d.len };

    ghost also_shares = { λ _ _ _. ftrue };
}

/// The size of a value, or the largest number where it takes more bytes.
fn item_size<T>() -> usize
    ensures { result ≡ capped (type_size T.row) }
{
    size_of::<T>()
}

/// Whether an allocation may hold this many values.
pub(crate) fn may_hold<T>(len: usize) -> bool
    ensures { IsTrue result → FitsInBlock T.row len }
{
    match len.checked_mul(item_size::<T>()) {
        Some(bytes) => bytes <= isize::MAX as usize && len <= isize::MAX as usize,
        None => false,
    }
}

/// A block of `len` empty places.
pub(crate) fn allocate<T, A: Allocator>(
    alloc: &A,
    len: usize,
) -> Result<(Base<T>, Cells<T>, Deed<T, A>), AllocError>
    requires { FitsInBlock T.row len }
    ensures { IfOk result (λ r. (r.1.at ≡ r.0.ptr) × (r.1.slots ≡ replicate len None)
        × (r.2.at ≡ r.0.ptr) × (r.2.len ≡ len) × (r.2.alloc ≡ alloc.now)) }
{
    match alloc.allocate(len * size_of::<T>(), align_of::<T>()) {
        Ok(block) => {
            let base = Base {
                ptr: block as *mut T,
            };
            Ok((
                base,
                Cells { mark: PhantomData },
                Deed { mark: PhantomData },
            ))
        }
        Err(error) => Err(error),
    }
}

/// Frees the block. The values in it are forgotten.
pub(crate) fn deallocate<T, A: Allocator>(
    alloc: &A,
    base: Base<T>,
    len: usize,
    cells: Cells<T>,
    deed: Deed<T, A>,
)
    requires { (cells.at ≡ base.ptr) × (length cells.slots ≡ len)
        × (deed.at ≡ base.ptr) × (deed.len ≡ len) × (deed.alloc ≡ alloc.now) }
{
    let Cells { mark: _ } = cells;
    let Deed { mark: _ } = deed;
    unsafe {
        alloc.deallocate(base.ptr as *mut u8, len * size_of::<T>(), align_of::<T>());
    }
}

impl<T> Cells<T> {
    ghost use Rattle.sota_bank.specs.Lends.{lends_run};

    /// Writes the place at `index`. A value that it held is forgotten.
    pub(crate) fn write(&mut self, base: Base<T>, index: usize, item: T)
        requires { (base.ptr ≡ self.old.at) × (index < length self.old.slots) }
        ensures { (self.new.at ≡ self.old.at)
            × (self.new.slots ≡ slice_set self.old.slots index (Some item)) }
    {
        unsafe { base.ptr.add(index).write(item) }
    }

    /// The `len` values from the place `from` on.
    pub(crate) fn slice(&self, base: Base<T>, from: usize, len: usize) -> &[T]
        requires { (base.ptr ≡ self.now.at) × IsRun self.now.slots from len }
        ensures { take len (drop from self.now.slots) ≡ map Some result.now }
    {
        unsafe { slice::from_raw_parts(base.ptr.add(from), len) }
    }

    /// The same, for writing.
    pub(crate) fn slice_mut(&mut self, base: Base<T>, from: usize, len: usize) -> &mut [T]
        requires { (base.ptr ≡ self.old.at) × IsRun self.old.slots from len }
        ensures* writes_back { sem 𝓛 (lends_run T.row self.entry from len result) }
        ensures value { take len (drop from self.old.slots) ≡ map Some result.now }
    {
        unsafe { slice::from_raw_parts_mut(base.ptr.add(from), len) }
    }

    /// Moves the `len` values from the place `from` on to the places of `other` from `to` on, in
    /// one block copy. A value that one of those held is forgotten.
    pub(crate) fn move_run(
        &mut self,
        base: Base<T>,
        from: usize,
        other: &mut Cells<T>,
        other_base: Base<T>,
        to: usize,
        len: usize,
    )
        requires { (base.ptr ≡ self.old.at) × IsRun self.old.slots from len
            × (other_base.ptr ≡ other.old.at) × (to + len ≤ length other.old.slots) }
        ensures other { (other.new.at ≡ other.old.at)
            × (other.new.slots
            ≡ spliced other.old.slots to len (take len (drop from self.old.slots))) }
        ensures emptied { (self.new.at ≡ self.old.at)
            × (self.new.slots ≡ spliced self.old.slots from len (replicate len None)) }
    {
        unsafe { copy_nonoverlapping(base.ptr.add(from), other_base.ptr.add(to), len) }
    }
}

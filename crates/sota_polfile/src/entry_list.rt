// The list of a row's entries, for both versions.
ghost use Rattle.std.specs.Prelude.{◌≡◌, ◌==◌, All, length};

use std::marker::Model;

/// An entry of a row, of either version.
pub trait Entry: Copy {
    /// Its numbers fit into their bytes.
    ghost is_entry: { Self → Type 0 };
}

/// The entries of a row, one for each budget from the row's first on. Contracts see the list.
#[derive(Drop)]
pub struct Entries<T: Entry> {
    pub(crate) list: Vec<T>,
}

impl<T: Entry> Model for Entries<T> {
    ghost use Rattle.std.specs.Prelude.{List, All};

    ghost Value = { List T };

    ghost view = { λ a. a.list.items };

    ghost invariant = { λ a. All T.is_entry a.list.items };
}

impl<T: Entry> Entries<T> {
    /// The entries as a vector again. It takes no memory.
    pub fn into_vec(self) -> Vec<T>
        ensures { result.items ≡ self }
    {
        let Entries { list } = self;
        list
    }

    /// The entries.
    pub fn as_slice(&self) -> &[T]
        ensures value { result.now ≡ self.now }
        ensures valid { All T.is_entry self.now }
    {
        self.list.as_slice()
    }

    /// How many there are.
    pub fn len(&self) -> usize
        ensures value { result ≡ length self.now }
        ensures valid { All T.is_entry self.now }
    {
        self.list.len()
    }

    /// There are none.
    pub fn is_empty(&self) -> bool
        ensures { result ≡ (length self.now == 0) }
    {
        self.list.is_empty()
    }
}

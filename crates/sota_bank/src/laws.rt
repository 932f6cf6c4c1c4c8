// What the rows of a bank are after each of its calls, list by list. The functions do nothing:
// their contracts are the theorems.
ghost use Rattle.std.specs.Prelude.{◌≡◌, ◌≢◌, ◌<◌, ℕ, List, [], length, slice_index};
ghost use Rattle.sota_bank.specs.Rows.{Row, list_at, cap_at, with_list, lists, capacities};
ghost use Rattle.sota_bank.specs.Rows.{empty_rows};

/// Where the list of one row changes, as by `push`, `cut` and `window`, it is the new one, and the
/// lists of the other rows, all capacities and the number of rows stay.
pub fn one_list_changes<T: Copy>()
    ensures own { (rows : List (Row T)) (row : ℕ) (list : List T) → row < length rows
        → list_at (with_list rows row list) row ≡ list }
    ensures others { (rows : List (Row T)) (row other : ℕ) (list : List T) → other ≢ row
        → list_at (with_list rows row list) other ≡ list_at rows other }
    ensures capacities { (rows : List (Row T)) (row other : ℕ) (list : List T)
        → cap_at (with_list rows row list) other ≡ cap_at rows other }
    ensures count { (rows : List (Row T)) (row : ℕ) (list : List T)
        → length (with_list rows row list) ≡ length rows }
{}

/// The rows of a new bank are empty, and have the capacities that were asked for.
pub fn new_rows_are_empty<T: Copy>()
    ensures lists { (caps : List ℕ) (row : ℕ) → list_at (empty_rows {X = T} caps) row ≡ [] }
    ensures capacities { (caps : List ℕ) (row : ℕ) → row < length caps
        → cap_at (empty_rows {X = T} caps) row ≡ slice_index caps row }
    ensures count { (caps : List ℕ) → length (empty_rows {X = T} caps) ≡ length caps }
{}

/// What `regrow` says of the lists and of the capacities together, row by row.
pub fn rows_by_lists<T: Copy>()
    ensures list { (old new : List (Row T)) (row : ℕ) → lists new ≡ lists old
        → list_at new row ≡ list_at old row }
    ensures capacity { (rows : List (Row T)) (caps : List ℕ) (row : ℕ) → capacities rows ≡ caps
        → row < length caps → cap_at rows row ≡ slice_index caps row }
    ensures count { (rows : List (Row T)) (caps : List ℕ) → capacities rows ≡ caps
        → length rows ≡ length caps }
{}

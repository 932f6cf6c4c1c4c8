// Laws of the definitions, each the contract of a function that does nothing.
ghost use Rattle.std.specs.Prelude.{◌≡◌, ℕ, ◌+◌, ◌-◌, ◌<◌, ◌≤◌, ◌^◌, List, [], ◌∷◌, map};
ghost use Rattle.std.specs.Prelude.{length, slice_index, take};
ghost use Rattle.std.specs.List.{range_with_len};
ghost use Rattle.sota_online.specs.Summer.{kernel_of, plain};
ghost use Rattle.sota_online.specs.Squares.{LEVELS, levels, numbered, reached, square_counts};

/// The masses 3 at tick 3 and 1 at tick 5 have the kernel 3, 0, 1, and with three ones the sums 3,
/// 3 and 4.
pub fn worked_sums()
    ensures kernel { kernel_of 3 ((3, 3) ∷ (5, 1) ∷ []) ≡ 3 ∷ 0 ∷ 1 ∷ [] }
    ensures sums { map (plain (3 ∷ 0 ∷ 1 ∷ []) (1 ∷ 1 ∷ 1 ∷ [])) (range_with_len 1 3)
        ≡ 3 ∷ 3 ∷ 4 ∷ [] }
{}

/// The first four feeds of a kernel with three places may take 1, 5, 1 and 5 products.
pub fn worked_counts()
    ensures { map (square_counts 3) (range_with_len 1 4) ≡ 1 ∷ 5 ∷ 1 ∷ 5 ∷ [] }
{}

/// At each position that is known, the squares of the whole blocks from a level on and the masses
/// below that level together hold each product of the plain sum, and each once.
pub fn squares_make_sums()
    ensures { (kernel values : List ℕ) (first p : ℕ)
        → first ≤ LEVELS → p ≤ length values → p < 2 ^ LEVELS
        → levels (numbered kernel) (λ a. slice_index values a)
        (λ r. reached first (length values) r) LEVELS p
        + plain (take (2 ^ first - 1) kernel) values p ≡ plain kernel values p }
{}

/// A longer kernel may take more products, so the count for a kernel that was cut is within the
/// count for all its ticks.
pub fn longer_kernels_count_more()
    ensures { (span longer k : ℕ) → span ≤ longer
        → square_counts span k ≤ square_counts longer k }
{}

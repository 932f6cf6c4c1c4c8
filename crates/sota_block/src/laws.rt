// Laws of the definitions, each the contract of a function that does nothing.
ghost use Rattle.std.specs.Prelude.{◌≡◌, [], ◌∷◌, map};
ghost use Rattle.std.specs.List.{range_with_len};
ghost use Rattle.sota_block.specs.Product.{coefficient, fold_count};

/// The first nine counts of a folded product, of blocks of length 1, 2, 4 and so on up to 256.
pub fn first_fold_counts()
    ensures { map fold_count (range_with_len 0 9) ≡ 1 ∷ 4 ∷ 16 ∷ 64 ∷ 256 ∷ 1024 ∷ 3072 ∷ 9216
        ∷ 27648 ∷ [] }
{}

/// The product of the masses 1 and 2 and the values 3 and 4 has the coefficients 3, 10, 8 and 0.
pub fn worked_coefficients()
    ensures { map (coefficient (1 ∷ 2 ∷ []) (3 ∷ 4 ∷ [])) (range_with_len 0 4)
        ≡ 3 ∷ 10 ∷ 8 ∷ 0 ∷ [] }
{}

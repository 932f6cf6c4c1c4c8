//! What is proved of the definitions, apart from any code. A law is a function without a body,
//! whose contract is its statement.
ghost use Rattle.std.specs.Prelude.{ℕ, ◌≡◌, ◌≤◌, List, [], ◌∷◌, codes, Option, Some, None, Ok, Err};
ghost use Rattle.sota_units.specs.GrainText.{grain_spelling};
ghost use Rattle.sota_units.specs.Rounding.{ONE};
ghost use Rattle.sota_script.specs.Lines.{parse_line, pair_of, IsPair, grain_of};
ghost use Rattle.sota_script.specs.declared.command.Command.TheVariants.{Edit, Close, Ask};
ghost use Rattle.sota_script.specs.declared.command.Command.TheVariants.{Policy, Bracket};
ghost use Rattle.sota_script.specs.declared.command.Command.TheVariants.{Route, Need};
ghost use Rattle.sota_script.specs.declared.fault.LineFault.TheVariants.{Word, Count, Number};

/// A field is a pair exactly where it is the texts of two numbers with a colon between, however it
/// is parted.
pub fn pairs_are_parted_once()
    ensures read { (field : List ℕ) (pair : ℕ × ℕ) → IsPair field pair → pair_of field ≡ Some pair }
    ensures only { (field : List ℕ) (pair : ℕ × ℕ) → pair_of field ≡ Some pair → IsPair field pair }
{}

/// A field is a confidence exactly where it is the spelling of a probability, whatever number is
/// tried for it.
pub fn confidences_are_spellings()
    ensures read { (field : List ℕ) (n : ℕ) → n ≤ ONE → field ≡ grain_spelling n
        → grain_of field ≡ Some n }
    ensures only { (field : List ℕ) (n : ℕ) → grain_of field ≡ Some n
        → (n ≤ ONE) × (field ≡ grain_spelling n) }
{}

/// The definitions, computed on lines.
pub fn worked_lines()
    ensures blank { (parse_line (codes " \t") ≡ Ok None) × (parse_line (codes "# note") ≡ Ok None) }
    ensures edit { parse_line (codes "edit 2 1:4 3:0") ≡ Ok (Some (Edit 2 ((1, 4) ∷ (3, 0) ∷ []))) }
    ensures ask { parse_line (codes "ask 1 3 2")
        ≡ Ok (Some (Ask (record { origin = 1; dest = 3; budget = 2 }))) }
    ensures policy { parse_line (codes "policy 1 3 2 p")
        ≡ Ok (Some (Policy (record { origin = 1; dest = 3; budget = 2 }) (codes "p"))) }
    ensures bracket { parse_line (codes "bracket 1 3 2 p")
        ≡ Ok (Some (Bracket (record { origin = 1; dest = 3; budget = 2 }) (codes "p"))) }
    ensures close { parse_line (codes "close 3") ≡ Ok (Some (Close 3)) }
    ensures route { parse_line (codes "route 3 9 1 2") ≡ Ok (Some (Route 3 9 (1 ∷ 2 ∷ []))) }
    ensures need { parse_line (codes "need 1 3 0.750000000000000000 9")
        ≡ Ok (Some (Need (record { origin = 1; dest = 3; budget = 9 }) 750000000000000000)) }
    ensures word { parse_line (codes "go") ≡ Err Word }
    ensures count { (parse_line (codes "ask 1 3") ≡ Err Count)
        × (parse_line (codes "edit x") ≡ Err Count) }
    ensures number { (parse_line (codes "edit 2 1-4") ≡ Err Number)
        × (parse_line (codes "ask 1 3 x") ≡ Err Number) }
{}

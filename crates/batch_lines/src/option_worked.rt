//! Worked rows of the definitions.

ghost use Rattle.std.specs.Prelude.{◌≡◌, ◌∷◌, [], codes, map};
ghost use Rattle.batch_lines.specs.Defaults.{default_groups, default_size};
ghost use Rattle.batch_lines.specs.Texts.{weight_number};

/// The groups of boards of 4, 9 and 15 cells where none are named.
pub fn default_groups_of_boards()
    ensures two_by_two { default_groups (record { rows = 2; cols = 2 })
        ≡ (1 ∷ 2 ∷ []) ∷ (3 ∷ []) ∷ [] }
    ensures three_by_three { default_groups (record { rows = 3; cols = 3 })
        ≡ (1 ∷ 2 ∷ 3 ∷ 4 ∷ []) ∷ (5 ∷ 6 ∷ 7 ∷ 8 ∷ []) ∷ [] }
    ensures three_by_five { default_groups (record { rows = 3; cols = 5 })
        ≡ (1 ∷ 2 ∷ 3 ∷ 4 ∷ 5 ∷ []) ∷ (6 ∷ 7 ∷ 8 ∷ 9 ∷ 10 ∷ []) ∷ (11 ∷ 12 ∷ 13 ∷ 14 ∷ []) ∷ [] }
{}

/// How many tiles a group has where none are named, for each count of cells that a board can have.
pub fn default_sizes_of_boards()
    ensures { map default_size (4 ∷ 6 ∷ 8 ∷ 9 ∷ 10 ∷ 12 ∷ 15 ∷ 16 ∷ 20 ∷ 25 ∷ [])
        ≡ 2 ∷ 2 ∷ 4 ∷ 4 ∷ 4 ∷ 5 ∷ 5 ∷ 5 ∷ 4 ∷ 4 ∷ [] }
{}

/// The weights of words: leading zeros count for nothing, and what is no number from 1 to 255 is 0.
pub fn weight_numbers_of_words()
    ensures zeros { weight_number (codes "007") ≡ 7 }
    ensures greatest { weight_number (codes "255") ≡ 255 }
    ensures above { weight_number (codes "256") ≡ 0 }
    ensures plus { weight_number (codes "+3") ≡ 0 }
    ensures blank { weight_number (codes "1 ") ≡ 0 }
    ensures empty { weight_number [] ≡ 0 }
{}

// Laws of the lists: what is listed does not depend on who decides.

ghost use Rattle.std.specs.Prelude.{◌≡◌, ℕ, List, map};
ghost use Rattle.ct_word.specs.declared.values.CRow.{CRow};
ghost use Rattle.ct_word.specs.Value.{World};
ghost use Rattle.ct_rewrite.specs.declared.answer.CertainRow.{CertainRow};
ghost use Rattle.ct_rewrite.specs.declared.answer.PossibleRow.{PossibleRow};
ghost use Rattle.ct_certain.specs.Certain.{ListsCertain, tuples_in};
ghost use Rattle.ct_certain.specs.Possible.{ListsPossible};

/// Right lists of the possible rows of a table have the same cells in the same order, whichever worlds they have beside
/// these.
pub fn possible_lists_agree()
    ensures { (words : List ℕ) (global : ℕ) (rows : List CRow) (a b : List PossibleRow) → ListsPossible words global rows a → ListsPossible words global rows b
        → map (λ x. x.cells) a ≡ map (λ x. x.cells) b }
{}

/// Right lists of the certain tuples of a table have the same tuples in the same order, where the kept world is the same,
/// whichever proofs they have, and over whichever later words.
pub fn certain_lists_agree()
    ensures { (old now later : List ℕ) (global : ℕ) (rows : List CRow) (kept : World) (a b : List CertainRow) → ListsCertain old now global rows kept a → ListsCertain old later global rows kept b
        → tuples_in a ≡ tuples_in b }
{}

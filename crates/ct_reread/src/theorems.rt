// What the texts of terms and of conditions are read as.

ghost use Rattle.std.specs.Prelude.{ℕ, List, IsTrue};
ghost use Rattle.std.specs.List.{list_all};
ghost use Rattle.ct_word.specs.declared.values.Term.{Term};
ghost use Rattle.ct_word.specs.Condition.{Condition};
ghost use Rattle.ct_word.specs.Named.{IsNamed};
ghost use Rattle.ct_print.specs.TermText.{term_text};
ghost use Rattle.ct_rewrite.specs.declared.answer.Node.{Node};
ghost use Rattle.ct_rewrite.specs.Nodes.{node_condition};
ghost use Rattle.ct_rewrite.specs.Rules.{are_children_within};
ghost use Rattle.ct_rewrite.specs.Sizes.{text_of};
ghost use Rattle.ct_reread.specs.Mapped.{mapped};
ghost use Rattle.ct_reread.specs.Printed.{IsPlain, IsPrinted};
ghost use Rattle.ct_reread.specs.Reread.{IsReadAs, IsOneToken, KeepsWithin};

/// The text of a number, a text or a null named by a word is one token, which is read as it.
pub fn terms_are_read_back()
    ensures { (t : Term) → IsPlain t → IsOneToken (term_text t) t }
{}

/// The text of a condition of such terms, as a node list may have it, is read as a condition of
/// its truth, and nests no deeper than is said of it.
pub fn conditions_are_read_back()
    ensures { (c : Condition) → IsPrinted IsPlain c → IsReadAs (text_of term_text c) c }
{}

/// The same of the condition at a position of a node list that is the form of another condition,
/// with other terms in the place of its own, where these are such terms.
pub fn forms_are_read_back()
    ensures { (nodes : List Node) (k : ℕ) (c : Condition) (f : Term → Term) → IsTrue (list_all are_children_within nodes) → KeepsWithin (node_condition nodes k) c
        → ((t : Term) → IsNamed c t → IsPlain (f t)) → IsReadAs (text_of (λ t. term_text (f t)) (node_condition nodes k)) (mapped f (node_condition nodes k)) }
{}

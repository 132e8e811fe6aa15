// Equality and hashing of texts and lists, by what they hold.

ghost use Rattle.std.specs.Prelude.{◌≡◌, nat_eq};
ghost use Rattle.std.specs.Cmp.{partial_equiv_from_equiv};
ghost use Rattle.std.specs.Cmp.Lexicographic.{pointwise, nat_list_eq_equiv, lists_per, lists_equiv};
ghost use Rattle.std.specs.Hash as fed;
ghost use Rattle.std.specs.Hash.{on_Alike, items_Alike};
ghost use Rattle.std.proofs.Common.{rules};
ghost use Rattle.std.specs.Cmp.Rules.{hashing};

use crate::lists::List;
use crate::texts::Text;
use std::hash::{Hash, Hasher};

impl PartialEq for Text {
    ghost eq = { λ a b. pointwise nat_eq a b };

    ghost laws = { partial_equiv_from_equiv nat_list_eq_equiv };

    fn eq(&self, other: &Text) -> bool {
        self.as_str() == other.as_str()
    }
}

impl Eq for Text {
    ghost laws = { nat_list_eq_equiv };
}

impl Hash for Text {
    ghost hash_input = { λ p. fed.str p };

    ghost respects_eq = { Prim.search (hashing, rules) };

    fn hash<H: Hasher>(&self, state: &mut H) {
        self.as_str().hash(state);
    }
}

impl<T: PartialEq> PartialEq for List<T> {
    ghost eq = { λ v w. pointwise T.eq v w };

    ghost laws = { lists_per T.laws };

    fn eq(&self, other: &Self) -> bool {
        self.as_slice() == other.as_slice()
    }
}

impl<T: Eq> Eq for List<T> {
    ghost laws = { lists_equiv T.Eq.laws };
}

impl<T: Hash> Hash for List<T> {
    ghost hash_input = { λ v. fed.slice T.hash_input v };

    ghost respects_eq = { (items_Alike (record { fed = T.respects_eq })).fed };

    fn hash<H: Hasher>(&self, state: &mut H) {
        self.as_slice().hash(state);
    }
}

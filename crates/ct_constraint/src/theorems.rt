// Laws of the definitions: what the tests on tuples tell.

ghost use Rattle.std.specs.Prelude.{◌≡◌, ℕ, List, Contains};
ghost use Rattle.std.specs.Bool.{Decides};
ghost use Rattle.ct_word.specs.declared.values.Value.{Value};
ghost use Rattle.ct_query.specs.Database.{SameSet};
ghost use Rattle.ct_query.specs.Assertions.{has_member, is_key, IsKey};

/// The tests tell whether there is a tuple, and whether any two tuples that agree at the columns are one.
pub fn tests_tell()
    ensures members { (ts : List (List Value)) → Decides (has_member ts) ((t : List Value) × Contains ts t) }
    ensures keys { (columns : List ℕ) (ts : List (List Value)) → Decides (is_key columns ts) (IsKey columns ts) }
{}

/// They tell the same of lists of tuples that are the same set.
pub fn tests_see_sets()
    ensures members { (a b : List (List Value)) → SameSet a b → has_member a ≡ has_member b }
    ensures keys { (columns : List ℕ) (a b : List (List Value)) → SameSet a b → is_key columns a ≡ is_key columns b }
{}

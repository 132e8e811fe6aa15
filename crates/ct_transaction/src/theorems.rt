// Laws of the bounds on words.

ghost use Rattle.std.specs.Prelude.{◌≡◌, ◌≤◌, ℕ, List, [], length, take, Option};
ghost use Rattle.ct_word.specs.Change.{PlainCommit};
ghost use Rattle.ct_query.specs.Bounds.{bound};
ghost use Rattle.ct_query.specs.Fits.{FitsAction};
ghost use Rattle.ct_query.specs.Patterns.{count};
ghost use Rattle.ct_query.specs.Plain as plain;
ghost use Rattle.ct_query.specs.Plain.{PlainAction, PlainStatement};
ghost use Rattle.ct_query.specs.Schema.{schema};
ghost use Rattle.ct_statement.specs.Making.{widths_in};
ghost use Rattle.ct_transaction.specs.Seeing.{Asks, Sees};
ghost use Rattle.ct_transaction.specs.State.{SessionState, own_actions};

/// One bound: tables keep their columns. So where an action fits the tables of a version, its bound, by the counts of all rows of
/// a history, is the same number at each later version of it.
pub fn actions_keep_their_bounds()
    ensures { (H : List PlainCommit) (at later : ℕ) → at ≤ later → later ≤ length H → (own : Option (List PlainAction)) (a : PlainAction) → FitsAction (schema (take at H) []).tables a → bound (count H []) (widths_in (schema (take later H) []).tables) own (plain.Act a) ≡ bound (count H []) (widths_in (schema (take at H) []).tables) own (plain.Act a) }
{}

/// A text has one bound: a session in a state may see it at several versions, and what it asks for has the same bound at each of
/// them, by the counts of all rows of a history. So a bound of a text in a state (`HasBound`) is this number or 0.
pub fn texts_have_one_bound()
    ensures { (H : List PlainCommit) (s : SessionState) (x : List ℕ) (at at' : ℕ) (own own' : List PlainAction) (st st' : PlainStatement) → Sees H s at own → Asks H s x at own st → Sees H s at' own' → Asks H s x at' own' st' → bound (count H own) (widths_in (schema (take at H) own).tables) (own_actions s) st ≡ bound (count H own') (widths_in (schema (take at' H) own').tables) (own_actions s) st' }
{}

// What the places of words are worth in one world.

ghost use Rattle.std.specs.Prelude.{◌≡◌, ℕ, List, IsTrue};
ghost use Rattle.ct_word.specs.declared.kinds.Class.TheVariants as class;
ghost use Rattle.ct_word.specs.Condition.{holds_at};
ghost use Rattle.ct_word.specs.Reading.{condition_at};
ghost use Rattle.ct_word.specs.Value.{World};
ghost use Rattle.ct_word.specs.WellFormed.{is_place_of};
ghost use Rattle.ct_condition.specs.Worth.{AreWorths};

use std::marker::Model;

/// Whether the condition at each place holds in one world. Other places have an entry, too, which tells nothing.
#[derive(Drop)]
pub struct Worths {
    truths: Vec<bool>,
}

impl Model for Worths {
    ghost use Rattle.std.specs.Prelude.{Bool, List};

    ghost Value = { List Bool };

    ghost view = { λ w. w.truths.items };
}

impl Worths {
    pub(crate) fn from_list(truths: Vec<bool>) -> Worths
        ensures { result ≡ truths.items }
    {
        Worths { truths }
    }

    /// Whether the condition at a place holds. It takes constant time.
    pub fn holds(&self, place: u32) -> bool
        ensures { (words : List ℕ) (v : World) → AreWorths words v self.now → IsTrue (is_place_of words class.Cond place) → result ≡ holds_at v (condition_at words place) }
    {
        match self.truths.get(place as usize) {
            Some(truth) => *truth,
            None => false,
        }
    }
}

// A guest of a log's keeper.

ghost use Rattle.std.specs.Prelude.{◌≡◌, IsTrue, Some, false};
ghost use Rattle.ct_word.specs.declared.kinds.Class.TheVariants as class;
ghost use Rattle.ct_word.specs.WellFormed.{is_formed_as, has_class};

use crate::tests::checks::{has_words, is};
use ct_arena::{Arena, Blank, Full, Guest, KeeperPass, Site};
use ct_word::{Kind, pack};
use std::alloc::Global;
use std::marker::Brand;
use std::process::Abort;
use std::test::Fail;

/// The log after it: true, false, and the end of a text.
const WORDS: [u64; 3] = [0x0a00000000000000, 0x0b00000000000000, 0x0100000000000000];

/// A guest interns the word of a kind without fields.
fn intern_as<N: Site>(
    arena: &Arena<N>,
    keeper: &mut KeeperPass<N>,
    guest: &mut Guest<N>,
    of: Kind,
) -> Result<u32, Full>
    requires guest { keeper.old.guest ≡ Some guest.old }
    requires formed { IsTrue (is_formed_as (Some of) keeper.old.words 0 0) }
    requires plain { has_class (Some of) class.Commit ≡ false }
    ensures guest { keeper.new.guest ≡ Some guest.new }
    ensures enrolled { keeper.new.enrolled ≡ keeper.old.enrolled }
    ensures ended { keeper.new.ended ≡ keeper.old.ended }
{
    keeper.intern(arena, guest, pack(of, 0, 0))
}

/// A call was answered this place.
fn has_place(rt: &impl Abort, found: Result<u32, Full>, place: u32) {
    assert_eq!(rt; found, Ok(place));
}

/// A guest interns a word that stands already, and a new one.
fn intern_as_guest<N: Site>(rt: &impl Abort, alloc: Global, blank: Blank) -> Result<(), Fail>
    requires { blank ≡ N.log }
{
    let (arena, mut keeper) = Arena::<N>::make(blank);
    let pass = keeper.enrol(alloc, &arena)?;
    let mut guest = keeper.enter(&arena, pass);
    has_place(
        rt,
        intern_as(&arena, &mut keeper, &mut guest, Kind::True),
        0,
    );
    has_place(
        rt,
        intern_as(&arena, &mut keeper, &mut guest, Kind::TextEnd),
        2,
    );
    let pass = keeper.leave(&arena, guest);
    is(rt, pass.made(), 1);
    is(rt, pass.mine(), 0);
    let _ = keeper.end(&arena, pass);
    has_words(rt, keeper.finish(arena).into_words().as_slice(), &WORDS);
    Ok(())
}

#[test]
fn guests_intern(rt: HostRuntime) -> Result<(), Fail> {
    let blank = Blank::make(rt.alloc(), 64)?;
    intern_as_guest::<Brand>(&rt, rt.alloc(), blank)
}

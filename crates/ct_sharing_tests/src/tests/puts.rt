// Interning through a pass, and committing.

ghost use Rattle.std.specs.Prelude.{◌≡◌, ◌<◌, ◌^◌, IfOk, IsTrue, None, Some, false};
ghost use mathlib.Core.List.{IsPrefix};
ghost use Rattle.ct_word.specs.declared.kinds.Class.TheVariants as class;
ghost use Rattle.ct_word.specs.WellFormed.{is_formed_as, is_place_of, class_of, has_class};

use ct_arena::{Arena, Full, KeeperPass, Pass, Site};
use ct_word::{Kind, pack};

/// How many commits a session may have.
const MOST_COMMITS: u32 = 0x4_0000;

/// The place of the word of a kind, with fields as the table of kinds asks.
pub fn put<N: Site>(
    arena: &Arena<N>,
    pass: &mut Pass<N>,
    kind: Kind,
    a: u32,
    b: u32,
) -> Result<u32, Full>
    requires left { a < 2 ^ 28 }
    requires right { b < 2 ^ 28 }
    requires formed { IsTrue (is_formed_as (Some kind) pass.old.words a b) }
    requires plain { has_class (Some kind) class.Commit ≡ false }
    ensures place { IfOk result (λ place. IsTrue (is_place_of pass.new.words (class_of kind) place)) }
    ensures small { IfOk result (λ place. place < 2 ^ 28) }
    ensures longer { IsPrefix pass.old.words pass.new.words }
    ensures mine { pass.new.mine ≡ pass.old.mine }
{
    let place = pass.intern(arena, pack(kind, a, b))?;
    Ok(place)
}

/// The place of the word of a part of a number.
pub fn put_part<N: Site>(
    arena: &Arena<N>,
    pass: &mut Pass<N>,
    upper: u32,
    part: u32,
) -> Result<u32, Full>
    requires left { upper < 2 ^ 28 }
    requires right { part < 2 ^ 28 }
{
    put(arena, pass, Kind::NumberHigh, upper, part)
}

/// A session commits a change list without changes. Answers its pass, and the commit's place.
pub fn commit<N: Site>(
    arena: &Arena<N>,
    keeper: &mut KeeperPass<N>,
    mut pass: Pass<N>,
) -> (Pass<N>, Result<u32, Full>)
    requires guest { keeper.old.guest ≡ None }
    ensures enrolled { keeper.new.enrolled ≡ keeper.old.enrolled }
    ensures ended { keeper.new.ended ≡ keeper.old.ended }
    ensures guest { keeper.new.guest ≡ None }
{
    let Ok(changes) = put(arena, &mut pass, Kind::ChangesEnd, 0, 0) else {
        return (pass, Err(Full));
    };
    if pass.mine() >= MOST_COMMITS {
        return (pass, Err(Full));
    }
    let mut guest = keeper.enter(arena, pass);
    let place = keeper.append_commit(arena, &mut guest, changes);
    (keeper.leave(arena, guest), place)
}

// Items that were dealt to rows like cards, and come back in one list.

ghost use Rattle.std.specs.Prelude.{◌≡◌, ◌≢◌, ◌<◌, ◌/◌, ◌%◌, ℕ, Some, IfOk, IsSome, get_or, vec_len};
ghost use Rattle.ct_workers.specs.Dealing.{AreDealt, item_at};

use ct_word::Memory;
use std::alloc::Global;

/// Takes the item at a place of a row. No other place changes.
fn taken<T: Drop>(rows: &mut Vec<Vec<Option<T>>>, row: usize, place: usize) -> T
    requires there { IsSome (item_at (λ r. r.items) rows.old.items row place) }
    ensures item { item_at (λ r. r.items) rows.old.items row place ≡ Some result }
    ensures others { (r p : ℕ) → (r ≡ row → p ≢ place) → item_at (λ r. r.items) rows.new.items r p ≡ item_at (λ r. r.items) rows.old.items r p }
    ensures count { vec_len rows.new ≡ vec_len rows.old }
{
    match rows[row][place].take() {
        Some(item) => item,
        None => unreachable!(),
    }
}

/// So many items in the order in which they were dealt: the first of each row, then the second of each, and so on.
///
/// # Errors
/// `Memory` where there is none for the list.
pub fn put_back<T: Drop>(
    alloc: Global,
    dealt: Vec<Vec<Option<T>>>,
    count: usize,
) -> Result<Vec<T>, Memory>
    requires some { 0 < vec_len dealt }
    requires dealt { AreDealt (λ r. r.items) dealt.items (vec_len dealt) count }
    ensures count { IfOk result (λ all. vec_len all ≡ count) }
    ensures each { IfOk result (λ all. (q : ℕ) (d : T) → q < count → item_at (λ r. r.items) dealt.items (q % vec_len dealt) (q / vec_len dealt) ≡ Some (get_or all.items q d)) }
{
    let mut rows = dealt;
    let width = rows.len();
    let mut all = Vec::new(alloc);
    for number in 0..count {
        let item = taken(&mut rows, number % width, number / width);
        all.push(item)?;
    }
    Ok(all)
}

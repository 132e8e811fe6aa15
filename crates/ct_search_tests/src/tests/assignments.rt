// All assignments of a few variables, one after another.

use ct_word::List;

/// Whether a literal is true where the bits of a number are the truths of the variables, the lowest one that of variable 1.
fn is_true_at(bits: u32, literal: i32) -> bool {
    let variable = literal.unsigned_abs();
    if variable == 0 || variable > 9 {
        return false;
    }
    ((bits >> (variable - 1)) % 2 == 1) == (literal > 0)
}

fn holds_at(bits: u32, clause: &[i32]) -> bool {
    for literal in clause {
        if is_true_at(bits, *literal) {
            return true;
        }
    }
    false
}

fn all_hold_at(bits: u32, clauses: &[List<i32>]) -> bool {
    for clause in clauses {
        if !holds_at(bits, clause.as_slice()) {
            return false;
        }
    }
    true
}

/// Whether all of these clauses over up to nine variables hold for some truths.
pub fn can_hold(clauses: &[List<i32>]) -> bool {
    for bits in 0..512 {
        if all_hold_at(bits, clauses) {
            return true;
        }
    }
    false
}

/// Whether a literal is true by a model, which has the truth of variable 1 first.
fn is_true_in(model: &[bool], literal: i32) -> bool {
    let variable = literal.unsigned_abs() as usize;
    if variable == 0 {
        return false;
    }
    match model.get(variable - 1) {
        Some(truth) => *truth == (literal > 0),
        None => false,
    }
}

fn holds_in(model: &[bool], clause: &[i32]) -> bool {
    for literal in clause {
        if is_true_in(model, *literal) {
            return true;
        }
    }
    false
}

/// Whether a model satisfies each of these clauses.
pub fn all_hold_in(model: &[bool], clauses: &[List<i32>]) -> bool {
    for clause in clauses {
        if !holds_in(model, clause.as_slice()) {
            return false;
        }
    }
    true
}

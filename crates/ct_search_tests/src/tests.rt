mod assignments;
mod checker;
mod clauses;
mod equality;
mod memory;
mod search;
mod sets;
mod solver;

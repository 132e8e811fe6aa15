mod chains;
mod checks;
mod committing;
mod many_words;
mod puts;
mod sessions;
mod threads;

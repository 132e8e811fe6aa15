mod certificates;
mod explained;
mod saying;

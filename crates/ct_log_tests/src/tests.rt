mod arena;
mod changes;
mod checks;
mod conditions;
mod encoded;
mod logs;
mod printed;
mod transcript;

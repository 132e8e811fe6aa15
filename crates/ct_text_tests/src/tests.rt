mod command_line;
mod csv_files;
mod generated;
mod outside;
mod queries;
mod statements;
mod words;

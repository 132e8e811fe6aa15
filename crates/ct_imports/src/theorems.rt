// What the script of a CSV file is read as.

ghost use Rattle.ct_imports.specs.Statements.{MakesTables};

/// The law that the texts of a script that was imported are a CREATE of the file's columns and an
/// INSERT for each of its rows, in order.
pub fn scripts_are_statements()
    ensures { MakesTables }
{}

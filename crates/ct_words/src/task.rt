// What can be asked for.

use ct_word::Text;

/// What the words ask for.
#[derive(Drop)]
pub enum Asked<'a> {
    /// A session for each file, in their order, all on one log.
    Run {
        /// How many words of 64 bits the log has: 64 to 4,194,304.
        capacity: u32,
        /// The names of the files, one to 64, or to 16 where the log has more than 1,048,576 words.
        files: Vec<&'a str>,
        /// Whether the session of the first file comes to its end before the others begin.
        is_first_alone: bool,
        /// How many workers decide the questions of a statement: 1 to 16.
        workers: u32,
    },
    /// The sessions of generated scripts.
    Fill {
        /// The number to generate them with: 1 to 2,000.
        number: u32,
    },
    /// The judgement of a certificate.
    Check {
        /// The name of its file.
        file: &'a str,
    },
    /// A session for one file, and the certificate of one of its replies.
    Prove {
        /// The number of the reply: 1 to 65,535.
        reply: u32,
        /// The name of the file.
        file: &'a str,
    },
    /// A session for one file, behind the script of a table that is in CSV.
    Import {
        /// The name of the table, in lower case.
        name: Text,
        /// The name of the CSV file.
        csv: &'a str,
        /// The name of the file with the script.
        file: &'a str,
    },
    /// A session for one file, and the CSV file of a table after it.
    Export {
        /// The name of the table, in lower case.
        name: Text,
        /// The name of the file.
        file: &'a str,
    },
}

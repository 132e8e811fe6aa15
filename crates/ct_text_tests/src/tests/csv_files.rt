// CSV files: the scripts that they are imported as, and why others are refused.

use ct_csv::{ImportError, import};
use ct_word::Text;
use std::alloc::Global;
use std::test::Fail;

/// Files, and what their scripts have behind the line of the table `t` with the column `a`.
const ROWS: [(&str, &str); 16] = [
    ("A,if\n", ""),
    ("a,if", ""),
    ("\"a\",if\r\n", ""),
    (
        "a,if\n1,?x <> 1\n2,?x <> 2\n",
        "insert into t values (1) if ?x <> 1;\ninsert into t values (2) if ?x <> 2;\n",
    ),
    (
        "a,if\n-0,\n007,\n",
        "insert into t values (0);\ninsert into t values (7);\n",
    ),
    (
        "a,if\n9223372036854775807,\n-9223372036854775808,\n",
        "insert into t values (9223372036854775807);\ninsert into t values (-9223372036854775808);\n",
    ),
    ("a,if\r1,\r", "insert into t values (1);\n"),
    ("a,if\r\n\r\n1,\r\n", "insert into t values (1);\n"),
    ("\u{feff}a,if\n1,\n", "insert into t values (1);\n"),
    ("a,if\n ?X -- a null,\n", "insert into t values (?x);\n"),
    (
        "a,if\n\"'x\n;--\"\"''y'\",\n",
        "insert into t values ('x\n;--\"''y');\n",
    ),
    ("a,if\n'x\"y',\n", "insert into t values ('x\"y');\n"),
    ("a,if\n1,\"true", "insert into t values (1) if true;\n"),
    (
        "a,if\n1,?X=1 OR(?y!='b')-- or\n",
        "insert into t values (1) if ?X = 1 OR ( ?y != 'b' );\n",
    ),
    (
        "a,if\n1,\"?x = 'b,\"\"''c' and\nnot false\"\n",
        "insert into t values (1) if ?x = 'b,\"''c' and not false;\n",
    ),
    (
        "a,if\n'','' = ''\n",
        "insert into t values ('') if '' = '';\n",
    ),
];

/// The script of a file of the table `T`.
fn imported(alloc: Global, bytes: &[u8]) -> Result<Text, ImportError> {
    import(alloc, "T", bytes)
}

/// Whether a script makes the table `t` with the column `a`, and then has these lines.
fn is_script(script: &str, lines: &str) -> bool {
    script.strip_prefix("create table t (a);\n") == Some(lines)
}

#[test]
fn files_are_imported_as_scripts(rt: HostRuntime) -> Result<(), Fail> {
    for (file, lines) in ROWS {
        let script = imported(rt.alloc(), file.as_bytes())?;
        let text = script.as_str();
        assert!(rt; is_script(text, lines), "{file:?} is {text:?}");
    }
    Ok(())
}

#[test]
fn a_file_may_have_several_columns(rt: HostRuntime) -> Result<(), Fail> {
    let script = imported(rt.alloc(), b"b,_C1,if\n'x',-5,true\n")?;
    assert_eq!(rt;
        script.as_str(),
        "create table t (b, _c1);\ninsert into t values ('x', -5) if true;\n"
    );
    // The statement is refused later, and not the file.
    let script = imported(rt.alloc(), b"a,a,if\n")?;
    assert_eq!(rt; script.as_str(), "create table t (a, a);\n");
    Ok(())
}

/// Whether a file is refused for this cause.
fn is_refused(alloc: Global, bytes: &[u8], cause: ImportError) -> bool {
    imported(alloc, bytes).err() == Some(cause)
}

/// Files whose first record names no columns.
const UNNAMED: [&str; 15] = [
    "",
    "\n\r\n",
    " ",
    "if",
    "a",
    "a,if,b",
    "a,IF",
    "a, if",
    "select,if",
    "a b,if",
    " a,if",
    ",if",
    "a-b,if",
    "1a,if",
    "a.b,if",
];

#[test]
fn a_first_record_names_columns(rt: HostRuntime) -> Result<(), Fail> {
    for file in UNNAMED {
        assert!(rt;
            is_refused(rt.alloc(), file.as_bytes(), ImportError::BadHeader),
            "{file:?}"
        );
    }
    Ok(())
}

/// Files with a field that is no cell or no condition, and where the first such stands.
const BAD: [(&str, u64, u64); 30] = [
    ("a,if\nabc,\n", 2, 1),
    ("a,if\nnull,\n", 2, 1),
    ("a,if\nNULL,\n", 2, 1),
    ("a,if\n1 2,\n", 2, 1),
    ("a,if\n'open,\n", 2, 1),
    ("a,if\n?,\n", 2, 1),
    ("a,if\n99999999999999999999,\n", 2, 1),
    ("a,if\n-9223372036854775809,\n", 2, 1),
    ("a,if\n,\n", 2, 1),
    ("a,if\n-- x,\n", 2, 1),
    ("a,if\n=,\n", 2, 1),
    ("a,if\n(1),\n", 2, 1),
    ("a,if\n1, \n", 2, 2),
    ("a,if\n1,-- x\n", 2, 2),
    ("a,if\n1,a = 1\n", 2, 2),
    ("a,if\n1,t.a = 1\n", 2, 2),
    ("a,if\n1,?x = 1 or\n", 2, 2),
    ("a,if\n1,?x\n", 2, 2),
    ("a,if\n1,1\n", 2, 2),
    ("a,if\n1,?x = 1 ?y = 1\n", 2, 2),
    ("a,if\n1,(true\n", 2, 2),
    ("a,if\n1,?x = 'open\n", 2, 2),
    ("a,if\n1,null = 1\n", 2, 2),
    ("a,if\n1,?x = 99999999999999999999\n", 2, 2),
    ("a,if\n1,true;\n", 2, 2),
    ("a,b,if\n1,2,\n3,x,\n", 3, 2),
    ("a,b,if\n1,2,true\n\n3,4,y\n", 3, 3),
    ("a,if\nx,\n1,a = 1\n", 2, 1),
    ("a,b,if\nx,y,z\n", 2, 1),
    ("a,b,if\n1,y,z\n", 2, 2),
];

#[test]
fn the_first_bad_field_is_answered(rt: HostRuntime) -> Result<(), Fail> {
    for (file, number, field) in BAD {
        let cause = ImportError::BadCell { number, field };
        assert!(rt; is_refused(rt.alloc(), file.as_bytes(), cause), "{file:?}");
    }
    Ok(())
}

/// Bytes that are no CSV, whatever else is wrong with them.
const NO_CSV: [&[u8]; 7] = [
    b"a,if\n1\n",
    b"a,if\n1,,\n",
    b"a,if\n\"\xff\",\n",
    b"\xff",
    b"a,b\n1\n",
    b"if\na,b\n",
    b"a,if\nabc,\n1\n",
];

#[test]
fn records_are_texts_of_one_length(rt: HostRuntime) -> Result<(), Fail> {
    for bytes in NO_CSV {
        assert!(rt;
            is_refused(rt.alloc(), bytes, ImportError::NotCsv),
            "{bytes:?}"
        );
    }
    Ok(())
}

/// A file whose one row has `true` in so many parentheses as its condition.
fn nested(alloc: Global, depth: usize) -> Result<String, Fail> {
    let mut file = String::from_str(alloc, "a,if\n1,")?;
    for _ in 0..depth {
        file.push('(')?;
    }
    file.push_str("true")?;
    for _ in 0..depth {
        file.push(')')?;
    }
    Ok(file)
}

#[test]
fn conditions_nest_64_deep(rt: HostRuntime) -> Result<(), Fail> {
    let file = nested(rt.alloc(), 64)?;
    assert!(rt; imported(rt.alloc(), file.as_bytes()).is_ok());
    let file = nested(rt.alloc(), 65)?;
    let cause = ImportError::BadCell {
        number: 2,
        field: 2,
    };
    assert!(rt; is_refused(rt.alloc(), file.as_bytes(), cause));
    Ok(())
}

use super::*;
use q4_value::Kind;
use std::alloc::Global;
use std::process::Abort;
use std::test::*;

const TWO_TABLES: &str = "[[table]]
name = \"jobs\"
columns = [\"prio int\", \"body text\"]

[[table]]
name = \"hot\"
columns = [\"prio int\"]
";

fn read(rt: &impl Abort, alloc: Global, text: &str) -> Defs {
    read_defs(alloc, text.as_bytes()).expect(rt, "definitions")
}

fn fault_of(rt: &impl Abort, alloc: Global, bytes: &[u8]) -> DefFault {
    match read_defs(alloc, bytes) {
        Ok(_) => panic!(rt; "no fault"),
        Err(fault) => fault,
    }
}

// A file of so many tables, each of so many columns.
fn file_of(alloc: Global, tables: u32, columns: u32) -> Result<String, Fail> {
    let mut text = String::new(alloc);
    for table in 1..=tables {
        text.push_str(format!(in alloc; "[[table]]\nname = \"t{table}\"\ncolumns = [")?.as_str())?;
        for column in 1..=columns {
            text.push_str(format!(in alloc; "\"c{column} int\", ")?.as_str())?;
        }
        text.push_str("]\n")?;
    }
    Ok(text)
}

// The columns of a table as the file would have them.
fn columns_of(rt: &impl Abort, alloc: Global, def: &TableDef) -> Result<String, Fail> {
    let mut text = String::new(alloc);
    for place in 0..def.columns.len() {
        let column = def.columns.at(place).ok_or("column")?;
        let kind = match (column.kind, column.optional) {
            (Kind::Int, false) => "int",
            (Kind::Int, true) => "int null",
            (Kind::Words, false) => "text",
            (Kind::Words, true) => "text null",
        };
        text.push_str(format!(in alloc; "{} {};", column.name.as_str(), kind)?.as_str())?;
    }
    assert_eq!(rt; def.columns.as_slice().len(), def.columns.len());
    Ok(text)
}

#[test]
fn two_tables(rt: HostRuntime) -> Result<(), Fail> {
    let alloc = rt.alloc();
    let read = read(&rt, alloc, TWO_TABLES);
    for defs in [&read, &read.copy(alloc).expect(&rt, "memory")] {
        assert_eq!(rt; defs.len(), 2);
        assert_eq!(rt; defs.as_slice().len(), 2);
        let jobs = defs.table(0).ok_or("jobs")?;
        assert_eq!(rt; jobs.name.as_str(), "jobs");
        assert_eq!(rt;
            columns_of(&rt, alloc, jobs)?.as_str(),
            "prio int;body text;"
        );
        let hot = defs
            .table(1)
            .ok_or("hot")?
            .copy(alloc)
            .expect(&rt, "memory");
        assert_eq!(rt; hot.name.as_str(), "hot");
        assert_eq!(rt; columns_of(&rt, alloc, &hot)?.as_str(), "prio int;");
        assert!(rt; defs.table(2).is_none());
        assert_eq!(rt; defs.find("jobs"), Some(0));
        assert_eq!(rt; defs.find("hot"), Some(1));
        assert_eq!(rt; defs.find("job"), None);
    }
    Ok(())
}

#[test]
fn no_byte_is_the_built_in_table(rt: HostRuntime) -> Result<(), Fail> {
    let alloc = rt.alloc();
    let defs = read(&rt, alloc, "");
    assert_eq!(rt; defs.len(), 1);
    let jobs = defs.table(0).ok_or("jobs")?;
    assert_eq!(rt; jobs.name.as_str(), "jobs");
    assert_eq!(rt;
        columns_of(&rt, alloc, jobs)?.as_str(),
        "prio int;body text;"
    );
    Ok(())
}

#[test]
fn optional_columns(rt: HostRuntime) -> Result<(), Fail> {
    let alloc = rt.alloc();
    let defs = read(
        &rt,
        alloc,
        "[[table]]\nname = 't'\ncolumns = ['n int null', 's text null', 'm int', 'null text']",
    );
    for defs in [&defs, &defs.copy(alloc).expect(&rt, "memory")] {
        let table = defs.table(0).ok_or("t")?;
        assert_eq!(rt;
            columns_of(&rt, alloc, table)?.as_str(),
            "n int null;s text null;m int;null text;"
        );
    }
    Ok(())
}

#[test]
fn as_much_as_may_be(rt: HostRuntime) -> Result<(), Fail> {
    let alloc = rt.alloc();
    assert_eq!(rt;
        read(&rt, alloc, file_of(alloc, 16, 32)?.as_str()).len(),
        16
    );
    let cases = [
        // A table may have a name that no column may have, and names of 64 characters stand.
        "table = [{name = \"and\", columns = [\"n int\"]}]",
        "table = [{name = \"a123456789b123456789c123456789d123456789e123456789f123456789_123\", columns = [\"n int\"]}]",
        "table = [{name = \"t\", columns = [\"a123456789b123456789c123456789d123456789e123456789f123456789_123 text\"]}]",
        // Columns of two tables may have one name.
        "table = [{name = \"t\", columns = [\"n int\"]}, {name = \"n\", columns = [\"n int\", \"t text\"]}]",
        "# first\n\n[[table]] # the table\ncolumns = ['nota int', 'andor text']\nname = 't'",
    ];
    for text in cases {
        assert!(rt; read_defs(alloc, text.as_bytes()).is_ok(), "{text}");
    }
    Ok(())
}

#[test]
fn faults_of_a_document(rt: HostRuntime) -> Result<(), Fail> {
    let alloc = rt.alloc();
    assert_eq!(rt; fault_of(&rt, alloc, b"\xff"), DefFault::NotToml);
    assert_eq!(rt;
        fault_of(&rt, alloc, file_of(alloc, 17, 1)?.as_bytes()),
        DefFault::Count(0)
    );
    // Too many tables go before a fault of the first.
    assert_eq!(rt;
        fault_of(&rt, alloc, file_of(alloc, 17, 0)?.as_bytes()),
        DefFault::Count(0)
    );
    assert_eq!(rt;
        fault_of(&rt, alloc, file_of(alloc, 1, 33)?.as_bytes()),
        DefFault::Count(1)
    );
    let cases = [
        ("[[table]", DefFault::NotToml),
        ("table = ", DefFault::NotToml),
        ("# comments alone\n", DefFault::Shape(0)),
        (" \n", DefFault::Shape(0)),
        ("table = 3", DefFault::Shape(0)),
        ("table = []", DefFault::Shape(0)),
        (
            "[table]\nname = 't'\ncolumns = ['n int']",
            DefFault::Shape(0),
        ),
        (
            "[[tables]]\nname = 't'\ncolumns = ['n int']",
            DefFault::Shape(0),
        ),
        (
            "x = 1\n[[table]]\nname = 't'\ncolumns = ['n int']",
            DefFault::Shape(0),
        ),
    ];
    for (text, fault) in cases {
        assert_eq!(rt; fault_of(&rt, alloc, text.as_bytes()), fault, "{text}");
    }
    Ok(())
}

#[test]
fn faults_of_a_table(rt: HostRuntime) {
    let alloc = rt.alloc();
    let cases = [
        ("table = [3]", DefFault::Shape(1)),
        (
            "table = [{name = 't', columns = ['n int']}, 3]",
            DefFault::Shape(2),
        ),
        (
            "[[table]]\nname = 't'\ncolumns = ['n int']\nrows = 3",
            DefFault::Shape(1),
        ),
        ("[[table]]\nname = 't'", DefFault::Shape(1)),
        ("[[table]]\ncolumns = ['n int']", DefFault::Shape(1)),
        (
            "[[table]]\nname = 3\ncolumns = ['n int']",
            DefFault::Shape(1),
        ),
        (
            "[[table]]\nname = 't'\ncolumns = 'n int'",
            DefFault::Shape(1),
        ),
        // The form goes before the names and the columns in front.
        (
            "[[table]]\nname = 'And'\ncolumns = ['n', 3]",
            DefFault::Shape(1),
        ),
        (
            "[[table]]\nname = 'And'\ncolumns = []",
            DefFault::BadName(1, 0),
        ),
        (
            "[[table]]\nname = ''\ncolumns = ['n int']",
            DefFault::BadName(1, 0),
        ),
        (
            "[[table]]\nname = '1t'\ncolumns = ['n int']",
            DefFault::BadName(1, 0),
        ),
        (
            "[[table]]\nname = '_t'\ncolumns = ['n int']",
            DefFault::BadName(1, 0),
        ),
        (
            "[[table]]\nname = 't-1'\ncolumns = ['n int']",
            DefFault::BadName(1, 0),
        ),
        (
            "[[table]]\nname = 'a123456789b123456789c123456789d123456789e123456789f123456789_1234'\ncolumns = ['n int']",
            DefFault::BadName(1, 0),
        ),
        (
            "table = [{name = 'a', columns = ['n int']}, {name = 'b', columns = ['n int']}, {name = 'a', columns = []}]",
            DefFault::Twice(3, 0),
        ),
        ("[[table]]\nname = 't'\ncolumns = []", DefFault::Count(1)),
        // The columns of one table go before the next table.
        (
            "table = [{name = 'a', columns = ['n int', 'm']}, 3]",
            DefFault::BadKind(1, 2),
        ),
        (
            "table = [{name = 'a', columns = ['n int']}, {name = 'b', columns = []}]",
            DefFault::Count(2),
        ),
    ];
    for (text, fault) in cases {
        assert_eq!(rt; fault_of(&rt, alloc, text.as_bytes()), fault, "{text}");
    }
}

#[test]
fn faults_of_a_column(rt: HostRuntime) -> Result<(), Fail> {
    let alloc = rt.alloc();
    let cases = [
        ("\"prio integer\", \"body text\"", DefFault::BadKind(1, 1)),
        ("\"n\"", DefFault::BadKind(1, 1)),
        ("\"n \"", DefFault::BadKind(1, 1)),
        ("\"n  int\"", DefFault::BadKind(1, 1)),
        ("\"n int \"", DefFault::BadKind(1, 1)),
        ("\"n int\\t\"", DefFault::BadKind(1, 1)),
        ("\"n Int\"", DefFault::BadKind(1, 1)),
        ("\"n null\"", DefFault::BadKind(1, 1)),
        ("\"n null int\"", DefFault::BadKind(1, 1)),
        ("\"n int  null\"", DefFault::BadKind(1, 1)),
        ("\"n int null \"", DefFault::BadKind(1, 1)),
        ("\"n int nulls\"", DefFault::BadKind(1, 1)),
        ("\"n int NULL\"", DefFault::BadKind(1, 1)),
        ("\"n int\\tnull\"", DefFault::BadKind(1, 1)),
        ("\"n text null null\"", DefFault::BadKind(1, 1)),
        ("\"n int null\", \"n int\"", DefFault::Twice(1, 2)),
        ("\"n\\tint\"", DefFault::BadName(1, 1)),
        ("\"\"", DefFault::BadName(1, 1)),
        ("\" int\"", DefFault::BadName(1, 1)),
        ("\"And int\"", DefFault::BadName(1, 1)),
        ("\"m int\", \"and int\"", DefFault::BadName(1, 2)),
        ("\"m int\", \"or\"", DefFault::BadName(1, 2)),
        ("\"m int\", \"not text\", 'm int'", DefFault::BadName(1, 2)),
        (
            "\"a123456789b123456789c123456789d123456789e123456789f123456789_1234 int\"",
            DefFault::BadName(1, 1),
        ),
        ("\"n int\", \"n text\"", DefFault::Twice(1, 2)),
        // The kind of a column goes before a name that stands twice.
        ("\"n int\", \"n number\"", DefFault::BadKind(1, 2)),
        (
            "\"n int\", \"m int\", \"n int\", \"And\"",
            DefFault::Twice(1, 3),
        ),
    ];
    for (columns, fault) in cases {
        let text = format!(in alloc; "[[table]]\nname = 't'\ncolumns = [{columns}]\n")?;
        assert_eq!(rt; fault_of(&rt, alloc, text.as_bytes()), fault, "{columns}");
    }
    Ok(())
}

#[test]
fn faults_in_words(rt: HostRuntime) -> Result<(), Fail> {
    let alloc = rt.alloc();
    let cases = [
        (DefFault::NotToml, "not toml"),
        (DefFault::Shape(2), "shape 2"),
        (DefFault::Count(0), "count 0"),
        (DefFault::BadName(1, 2), "bad name 1 2"),
        (DefFault::Twice(3, 0), "twice 3 0"),
        (DefFault::BadKind(1, 1), "bad kind 1 1"),
        (DefFault::Memory, "out of memory"),
    ];
    for (fault, words) in cases {
        assert_eq!(rt; format!(in alloc; "{fault}")?.as_str(), words);
    }
    Ok(())
}

use super::*;
use q4_value::{Column, Kind, Row, Value, Words};
use std::alloc::Global;
use std::test::Fail;

fn words(alloc: Global, text: &str) -> Result<Words, Fail> {
    match Words::new(alloc, text) {
        Ok(words) => Ok(words),
        Err(_) => Err(Fail::from("no memory")),
    }
}

/// The columns `prio int`, `body text` and `n int`, the first two optional or not.
fn columns(alloc: Global, optional: bool) -> Result<Vec<Column>, Fail> {
    let mut columns = Vec::new(alloc);
    columns.push(Column {
        name: words(alloc, "prio")?,
        kind: Kind::Int,
        optional,
    })?;
    columns.push(Column {
        name: words(alloc, "body")?,
        kind: Kind::Words,
        optional,
    })?;
    columns.push(Column {
        name: words(alloc, "n")?,
        kind: Kind::Int,
        optional: false,
    })?;
    Ok(columns)
}

/// A row of these columns, with null where there is no value.
fn row(alloc: Global, prio: Option<i64>, body: Option<&str>, n: i64) -> Result<Row, Fail> {
    let prio = match prio {
        Some(number) => Value::Int(number),
        None => Value::Null,
    };
    let body = match body {
        Some(text) => Value::Word(words(alloc, text)?),
        None => Value::Null,
    };
    let mut row = Row::new(alloc);
    for value in [prio, body, Value::Int(n)] {
        if row.push(value).is_err() {
            return Err(Fail::from("no memory"));
        }
    }
    Ok(row)
}

/// The fault that a text reads as, or none, with optional columns or without.
fn fault(alloc: Global, text: &str, optional: bool) -> Result<Option<CondFault>, Fail> {
    match read(alloc, text, &columns(alloc, optional)?) {
        Ok(_) => Ok(None),
        Err(fault) => Ok(Some(fault)),
    }
}

/// So many times the text, and then the end.
fn repeated(alloc: Global, text: &str, times: u32, end: &str) -> Result<String, Fail> {
    let mut all = String::new(alloc);
    for _ in 0..times {
        all.push_str(text)?;
    }
    all.push_str(end)?;
    Ok(all)
}

#[test]
fn texts_read_or_have_a_fault(rt: HostRuntime) -> Result<(), Fail> {
    let cases = [
        ("", None),
        ("  ", None),
        ("prio>=5", None),
        ("prio > ", Some(CondFault::At(7))),
        ("prio = 07", Some(CondFault::At(7))),
        ("prio = 'a", Some(CondFault::At(7))),
        ("n > 1 or", Some(CondFault::At(8))),
        ("size > 1 or", Some(CondFault::At(11))),
        ("-prio*2+1 = 3 and not body <> ''", None),
        ("prio<2<3", Some(CondFault::At(6))),
        ("prio=2=3", Some(CondFault::At(6))),
        ("(prio<2)<3", None),
        ("size>1", Some(CondFault::NoColumn(0))),
        ("prio=body", Some(CondFault::Kinds(5))),
        ("prio and size = body", Some(CondFault::NoColumn(9))),
        ("body", Some(CondFault::Kinds(0))),
        ("body < 'a'", Some(CondFault::Kinds(0))),
        ("body='x'='y'", Some(CondFault::At(8))),
        ("(body='x')='y'", Some(CondFault::Kinds(11))),
        ("((body))=('x')", None),
        ("prio + 'a' = 1", Some(CondFault::Kinds(7))),
        ("prio = 'a'", Some(CondFault::Kinds(7))),
        ("1 = not 2", Some(CondFault::At(4))),
        ("not not 1", None),
        ("- - 1", None),
        ("-not 1", Some(CondFault::At(1))),
        (")", Some(CondFault::At(0))),
        ("(1", Some(CondFault::At(2))),
        ("1)", Some(CondFault::At(1))),
        ("1 2", Some(CondFault::At(2))),
        ("body='a' 'b'", Some(CondFault::At(9))),
        ("body=''''", None),
        ("body='''", Some(CondFault::At(5))),
        ("body='a''b'", None),
        ("12a", Some(CondFault::At(0))),
        ("007", Some(CondFault::At(0))),
        ("0", None),
        ("1A", Some(CondFault::At(1))),
        ("1.5", Some(CondFault::At(1))),
        ("1\t+ 1", Some(CondFault::At(1))),
        ("body='\t'", None),
        ("prio <>1", None),
        ("prio < > 1", Some(CondFault::At(7))),
        ("andy", Some(CondFault::NoColumn(0))),
        ("n_", Some(CondFault::NoColumn(0))),
        ("170141183460469231731687303715884105727", None),
        (
            "170141183460469231731687303715884105728",
            Some(CondFault::At(0)),
        ),
        (
            "1701411834604692317316873037158841057270000",
            Some(CondFault::At(0)),
        ),
        ("body = 'ö€'", None),
        ("prio ; 1", Some(CondFault::At(5))),
    ];
    for (text, expected) in cases {
        for optional in [false, true] {
            assert_eq!(rt; fault(rt.alloc(), text, optional)?, expected, "{text}");
        }
    }
    Ok(())
}

#[test]
fn depth_and_length_have_limits(rt: HostRuntime) -> Result<(), Fail> {
    let cases = [
        ("(", 33, "1", Some(CondFault::Deep(32))),
        ("(", 32, "1", Some(CondFault::At(33))),
        ("not ", 32, "1", None),
        ("not ", 33, "1", Some(CondFault::Deep(128))),
        ("-", 32, "1", None),
        ("-", 33, "1", Some(CondFault::Deep(32))),
        ("not -", 16, "1", Some(CondFault::At(5))),
        ("(-", 16, "1", Some(CondFault::At(33))),
        ("(-", 17, "1", Some(CondFault::Deep(32))),
        ("not (", 16, "1", Some(CondFault::At(81))),
        ("not (", 17, "1", Some(CondFault::Deep(80))),
        ("not n and ", 102, "n", None),
        ("-1*", 100, "1", None),
        ("1+", 511, "1 ", None),
        ("1+", 511, "1  ", Some(CondFault::Long)),
    ];
    for (text, times, end, expected) in cases {
        let all = repeated(rt.alloc(), text, times, end)?;
        assert_eq!(rt;
            fault(rt.alloc(), all.as_str(), false)?,
            expected,
            "{times} times {text}"
        );
    }
    Ok(())
}

#[test]
fn rows_meet_conditions(rt: HostRuntime) -> Result<(), Fail> {
    let most = 9_223_372_036_854_775_807;
    let cases = [
        ("", 3, "", 0, true),
        ("prio>=5", 5, "", 0, true),
        ("prio>=5", 4, "", 0, false),
        ("10/(n-3)>0", 0, "", 3, false),
        ("not (10/(n-3)>0)", 0, "", 3, false),
        ("10/(n-3)>0", 0, "", 4, true),
        ("n*n>0", 0, "", most, true),
        ("n*n*n>0", 0, "", most, false),
        ("not n*n*n>0", 0, "", most, false),
        ("0 and 1/0", 0, "", 0, false),
        ("not (0 and 1/0)", 0, "", 0, true),
        ("not (1/0 and 0)", 0, "", 0, true),
        ("1 or 1/0", 0, "", 0, true),
        ("1/0 or 1", 0, "", 0, true),
        ("not (1 and 1/0)", 0, "", 0, false),
        ("0 or 1/0", 0, "", 0, false),
        ("not (0 or 1/0)", 0, "", 0, false),
        ("n/2 = 0-3", 0, "", -7, true),
        ("n%2 = 0-1", 0, "", -7, true),
        ("7%n = 1", 0, "", -2, true),
        ("-7/n = 3", 0, "", -2, true),
        (
            "(-170141183460469231731687303715884105727-1)%-1 = 0",
            0,
            "",
            0,
            true,
        ),
        (
            "(-170141183460469231731687303715884105727-1)/-1 = 0",
            0,
            "",
            0,
            false,
        ),
        (
            "-(-170141183460469231731687303715884105727-1) < 1",
            0,
            "",
            0,
            false,
        ),
        (
            "170141183460469231731687303715884105727+1 < 0",
            0,
            "",
            0,
            false,
        ),
        (
            "not 170141183460469231731687303715884105727+1 < 0",
            0,
            "",
            0,
            false,
        ),
        ("10-3-2 = 5", 0, "", 0, true),
        ("100/10/5 = 2", 0, "", 0, true),
        ("1+2*3 = 7", 0, "", 0, true),
        ("not n = 1", 0, "", 2, true),
        ("1 or 0 and 0", 0, "", 0, true),
        ("(1 or 0) and 0", 0, "", 0, false),
        ("body='it''s'", 0, "it's", 0, true),
        ("body<>'it''s'", 0, "it's", 0, false),
        ("body=body and 'a'<>body", 0, "b", 0, true),
        ("prio", 0, "", 0, false),
        ("prio", -1, "", 0, true),
        ("n <= 2 and n < 3 and n > 1 and n <> 3", 0, "", 2, true),
    ];
    let columns = columns(rt.alloc(), false)?;
    let mut steps = cond_steps();
    for (text, prio, body, n, expected) in cases {
        let Ok(cond) = read(rt.alloc(), text, &columns) else {
            return Err(Fail::from(text));
        };
        let row = row(rt.alloc(), Some(prio), Some(body), n)?;
        assert_eq!(rt; met(&cond, &row, &mut steps), expected, "{text}");
        let Ok(copied) = cond.copy(rt.alloc()) else {
            return Err(Fail::from(text));
        };
        assert_eq!(rt;
            met(&copied, &row, &mut steps),
            expected,
            "a copy of {text}"
        );
    }
    Ok(())
}

#[test]
fn nulls_are_absent(rt: HostRuntime) -> Result<(), Fail> {
    let cases = [
        ("", None, None, 0, true),
        ("prio", None, None, 0, false),
        ("not prio", None, None, 0, false),
        ("prio>5", None, None, 0, false),
        ("not prio>5", None, None, 0, false),
        ("not prio>5", Some(0), None, 0, true),
        ("prio=0", None, None, 0, false),
        ("prio<>0", None, None, 0, false),
        ("prio=prio", None, None, 0, false),
        ("not prio=prio", None, None, 0, false),
        ("prio+n=n", None, None, 0, false),
        ("prio*0=0", None, None, 0, false),
        ("-prio<=0", None, None, 0, false),
        ("body=''", None, None, 0, false),
        ("body<>''", None, None, 0, false),
        ("not body=''", None, None, 0, false),
        ("not body='a'", None, None, 0, false),
        ("not body='a'", None, Some("b"), 0, true),
        ("body=body", None, None, 0, false),
        ("not body<>body", None, None, 0, false),
        ("body=body", None, Some(""), 0, true),
        ("prio=1 or n=0", None, None, 0, true),
        ("n=0 or body='a'", None, None, 0, true),
        ("prio=1 or n=1", None, None, 0, false),
        ("not (prio=1 or n=1)", None, None, 0, false),
        ("not (prio=1 and n=1)", None, None, 0, true),
        ("not (prio=1 and n=0)", None, None, 0, false),
        ("body='a' and prio=prio", None, Some("a"), 0, false),
        ("body='a' and n=n", None, Some("a"), 0, true),
    ];
    let columns = columns(rt.alloc(), true)?;
    let mut steps = cond_steps();
    for (text, prio, body, n, expected) in cases {
        let Ok(cond) = read(rt.alloc(), text, &columns) else {
            return Err(Fail::from(text));
        };
        let row = row(rt.alloc(), prio, body, n)?;
        assert_eq!(rt; met(&cond, &row, &mut steps), expected, "{text}");
    }
    Ok(())
}

/// `n` in so many sums within one another: `(n+(n+0))` for 2.
fn nested_sums(alloc: Global, times: u32) -> Result<String, Fail> {
    let mut text = repeated(alloc, "(n+", times, "0")?;
    for _ in 0..times {
        text.push_str(")")?;
    }
    text.push_str("=n*")?;
    Ok(text)
}

#[test]
fn operands_have_room_at_every_depth(rt: HostRuntime) -> Result<(), Fail> {
    let columns = columns(rt.alloc(), false)?;
    let mut steps = cond_steps();
    for (times, end) in [
        (2, "2"),
        (3, "3"),
        (4, "4"),
        (30, "30"),
        (31, "31"),
        (32, "32"),
    ] {
        let mut text = nested_sums(rt.alloc(), times)?;
        text.push_str(end)?;
        let Ok(cond) = read(rt.alloc(), text.as_str(), &columns) else {
            return Err(Fail::from(end));
        };
        assert!(rt;
            met(&cond, &row(rt.alloc(), None, None, 7)?, &mut steps),
            "{end}"
        );
    }
    Ok(())
}

#[test]
fn conditions_of_one_tree_are_told(rt: HostRuntime) -> Result<(), Fail> {
    let cases = [
        ("", " ", true),
        ("", "n", false),
        ("prio>=5", "(prio) >= 5", true),
        ("prio>=5", "prio>=6", false),
        ("prio>=5", "n>=5", false),
        ("prio>=5", "prio>5", false),
        ("body='a'", "body = ('a')", true),
        ("body='a'", "body='b'", false),
        ("n", "n and n", false),
        ("1 or (n or 2)", "1 or n or 2", false),
        ("(1 or n) or 2", "1 or n or 2", true),
        ("not n", "-n", false),
    ];
    let columns = columns(rt.alloc(), false)?;
    for (text, with, expected) in cases {
        let (Ok(cond), Ok(other)) = (
            read(rt.alloc(), text, &columns),
            read(rt.alloc(), with, &columns),
        ) else {
            return Err(Fail::from(text));
        };
        assert_eq!(rt; cond.has_tree_of(&other), expected, "{text} and {with}");
    }
    Ok(())
}

#[test]
fn conditions_are_shown(rt: HostRuntime) -> Result<(), Fail> {
    let cases = [
        ("", ""),
        ("not ( prio >= 5 ) or body = 'x'", "not prio>=5 or body='x'"),
        ("n - (3 - 2) - 1", "n-(3-2)-1"),
        ("n / (3 * 2) % 7", "n/(3*2)%7"),
        ("(n / 3) * 2", "n/3*2"),
        ("((n + 1)) * 2 < - (3)", "(n+1)*2<-3"),
        ("- (n + 1) = 0", "-(n+1)=0"),
        ("- - n = 0", "--n=0"),
        ("not (not (n))", "not not n"),
        ("(not n) = 1", "(not n)=1"),
        ("not (n = 1)", "not n=1"),
        ("not (n and 1)", "not(n and 1)"),
        ("1 and (n or 2)", "1 and(n or 2)"),
        ("(1 or n) or 2", "1 or n or 2"),
        ("1 or (n or 2)", "1 or(n or 2)"),
        ("(n < 2) < (3 > 1)", "(n<2)<(3>1)"),
        ("body <> 'it''s' and 'ö' = body", "body<>'it''s'and'ö'=body"),
        ("(((body))) = ('''')", "body=''''"),
        ("0 <= n", "0<=n"),
    ];
    let columns = columns(rt.alloc(), false)?;
    for (text, expected) in cases {
        let Ok(cond) = read(rt.alloc(), text, &columns) else {
            return Err(Fail::from(text));
        };
        let Ok(shown) = show(rt.alloc(), &cond, &columns) else {
            return Err(Fail::from(text));
        };
        assert_eq!(rt; shown.as_str(), expected, "{text}");
        let Ok(again) = read(rt.alloc(), shown.as_str(), &columns) else {
            return Err(Fail::from(text));
        };
        let Ok(twice) = show(rt.alloc(), &again, &columns) else {
            return Err(Fail::from(text));
        };
        assert_eq!(rt; twice.as_str(), expected, "{text} again");
    }
    Ok(())
}

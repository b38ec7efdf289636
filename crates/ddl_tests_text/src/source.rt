use crate::forms::EVERY_FORM;
use ddl_show::show;
use ddl_source::{SourceError, shown_modules_are_read_back, tree_of};
use ddl_tree::Module;
use std::alloc::Global;
use std::process::Abort;
use std::test::Fail;

#[test]
fn the_law_can_be_called() {
    shown_modules_are_read_back();
}

/// Each production is read, and shown as it was written.
#[test]
fn every_form_is_read_and_shown(rt: HostRuntime) -> Result<(), Fail> {
    let alloc = rt.alloc();
    match tree_of(alloc, 0, EVERY_FORM.as_bytes()) {
        Ok(tree) => assert_eq!(rt; show(alloc, &tree)?.as_slice(), EVERY_FORM.as_bytes()),
        Err(error) => assert!(rt; false, "{error:?}"),
    }
    Ok(())
}

/// What is wrong with a text, and where.
#[test]
fn wrong_texts(rt: HostRuntime) -> Result<(), Fail> {
    let alloc = rt.alloc();
    let rows = [
        ("def Main = x ==", 5, 15, 15),
        ("def Main = First { a = A; B }", 9, 26, 27),
        ("def Main = x == y == z", 6, 18, 20),
        ("def Main = Many (1 ..) ^ A", 8, 23, 24),
        ("def Main = {}\n  }", 5, 16, 17),
    ];
    for (text, token, from, to) in rows {
        let found = tree_of(alloc, 0, text.as_bytes());
        assert!(rt;
            matches!(found, Err(SourceError::Unexpected { token: k, from: f, to: t }) if k == token && f == from && t == to),
            "{text}"
        );
    }
    Ok(())
}

/// Behind the mark that ends an item, another item is wanted.
#[test]
fn no_mark_ends_the_last_item(rt: HostRuntime) -> Result<(), Fail> {
    let alloc = rt.alloc();
    let found = tree_of(alloc, 0, b"def Main = block { A; }");
    assert!(rt;
        matches!(found, Err(SourceError::Unexpected { token: k, from: f, to: t }) if k == 7 && f == 22 && t == 23),
        "no item behind the mark"
    );
    Ok(())
}

/// `def Main = UInt8` with so many pairs of parentheses.
fn nested(alloc: Global, pairs: usize) -> Result<Vec<u8>, Fail> {
    let mut text = b"def Main = ".to_vec(alloc)?;
    for _ in 0..pairs {
        text.push(b'(')?;
    }
    text.extend_from_slice(b"UInt8")?;
    for _ in 0..pairs {
        text.push(b')')?;
    }
    Ok(text)
}

/// What `def Main = UInt8` with so many pairs of parentheses is.
fn nested_tree(
    rt: &impl Abort,
    alloc: Global,
    pairs: usize,
) -> Result<Result<Module, SourceError>, Fail> {
    let text = nested(alloc, pairs)?;
    assert!(rt; text.len() <= 1 << 22);
    Ok(tree_of(alloc, 0, &text))
}

/// 199 pairs of parentheses are read; with more, the name inside is one form too many, or a parenthesis is.
#[test]
fn depths(rt: HostRuntime) -> Result<(), Fail> {
    let alloc = rt.alloc();
    assert!(rt; nested_tree(&rt, alloc, 199)?.is_ok());
    for pairs in [200, 201, 10_000] {
        let found = nested_tree(&rt, alloc, pairs)?;
        assert!(rt;
            matches!(found, Err(SourceError::TooNested { token: 202, .. })),
            "{pairs}"
        );
    }
    Ok(())
}

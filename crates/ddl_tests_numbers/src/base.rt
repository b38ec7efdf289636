use ddl_base::Names;
use std::process::Abort;
use std::test::Fail;

#[test]
fn names(rt: HostRuntime) -> Result<(), Fail> {
    let mut names = Names::new(rt.alloc());
    let first = names.intern(b"a")?;
    assert_eq!(rt; first, 0);
    let second = names.intern(b"")?;
    assert_eq!(rt; second, 1);
    let again = names.intern(b"a")?;
    assert_eq!(rt; again, 0);
    assert!(rt; names.text(1) == Some(b"".as_slice()));
    assert!(rt; names.text(0) == Some(b"a".as_slice()));
    assert!(rt; names.text(2).is_none());
    Ok(())
}

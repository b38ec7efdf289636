use ddl_base::Bytes;
use ddl_token::{Base, Mark, Tok, Word};
use std::test::Fail;

#[test]
fn words_and_marks_are_spelled(rt: HostRuntime) {
    assert_eq!(rt; Word::AsFit.spelling(), b"as?".as_slice());
    assert_eq!(rt; Mark::OrElse.spelling(), b"<|".as_slice());
}

#[test]
fn a_copy_succeeds(rt: HostRuntime) -> Result<(), Fail> {
    let alloc = rt.alloc();
    let name = Tok::Lower(Bytes::of(alloc, b"x")?);
    let number = Tok::Number {
        value: 255,
        base: Base::Hexadecimal,
        digits: 2,
    };
    assert!(rt; matches!(name.copy(alloc)?, Tok::Lower(_)));
    assert!(rt; matches!(number.copy(alloc)?, Tok::Number { value: 255, .. }));
    Ok(())
}

use crate::forms::EVERY_FORM;
use ddl_lex::{layout, lex};
use ddl_syntax::{SyntaxError, parse};
use ddl_token::{Tok, Token, Word};
use std::alloc::Global;
use std::process::Abort;
use std::test::Fail;

/// The first tokens, and behind them an `import`, which stands only before all declarations.
fn with_import(alloc: Global, tokens: &[Token]) -> Result<Vec<Token>, Fail> {
    let mut out = Vec::new(alloc);
    for token in tokens {
        out.push(Token {
            kind: token.kind.copy(alloc)?,
            line: token.line,
            col: token.col,
            from: token.from,
            to: token.to,
        })?;
    }
    out.push(Token {
        kind: Tok::Word(Word::Import),
        line: 0,
        col: 0,
        from: 0,
        to: 6,
    })?;
    Ok(out)
}

/// At each place behind the imports, a token that no module goes on with is refused there.
fn refused_at_each_token(rt: &impl Abort, alloc: Global, tokens: &[Token]) -> Result<(), Fail> {
    for k in 5..tokens.len() {
        let wrong = with_import(alloc, &tokens[..k])?;
        let found = parse(alloc, 0, &wrong);
        assert!(rt;
            matches!(found, Err(SyntaxError::Unexpected(at)) if at == k),
            "token {k}"
        );
    }
    Ok(())
}

#[test]
fn a_wrong_token_is_refused_where_it_stands(rt: HostRuntime) -> Result<(), Fail> {
    let alloc = rt.alloc();
    match lex(alloc, EVERY_FORM.as_bytes()) {
        Ok(tokens) => refused_at_each_token(&rt, alloc, &layout(alloc, tokens)?)?,
        Err(error) => assert!(rt; false, "{error:?}"),
    }
    Ok(())
}

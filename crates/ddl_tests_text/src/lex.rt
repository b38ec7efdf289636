use ddl_lex::{LexError, Tok, Token, layout, lex};
use std::alloc::Global;
use std::test::Fail;

/// The tokens of a text of at most 4 MiB.
fn lexed(alloc: Global, text: &[u8]) -> Result<Vec<Token>, LexError> {
    if text.len() > 1 << 22 {
        return Err(LexError::NoMemory);
    }
    lex(alloc, text)
}

/// The error of a text.
fn error_of(alloc: Global, text: &[u8]) -> Option<LexError> {
    lexed(alloc, text).err()
}

/// A letter for the kind of each token, then its bytes in the text or those that it was given, and a space.
fn shown(alloc: Global, tokens: &[Token], text: &[u8]) -> Result<Vec<u8>, Fail> {
    let mut shown = Vec::new(alloc);
    for token in tokens {
        let kind = match &token.kind {
            Tok::Word(_) => b'w',
            Tok::Mark(_) => b'm',
            Tok::Upper(_) => b'U',
            Tok::Lower(_) => b'l',
            Tok::Class(_) => b'c',
            Tok::Number { .. } => b'n',
            Tok::Char(_) => b'\'',
            Tok::Text(_) => b'"',
        };
        shown.push(kind)?;
        let bytes = match &token.kind {
            Tok::Mark(mark) => mark.spelling(),
            _ => text
                .get(token.from as usize..token.to as usize)
                .unwrap_or(b"?"),
        };
        shown.extend_from_slice(bytes)?;
        shown.push(b' ')?;
    }
    Ok(shown)
}

/// The line, the column and the range of bytes of each token.
fn places(alloc: Global, tokens: &[Token]) -> Result<Vec<(u32, u32, u32, u32)>, Fail> {
    let mut places = Vec::new(alloc);
    for token in tokens {
        places.push((token.line, token.col, token.from, token.to))?;
    }
    Ok(places)
}

#[test]
fn texts_are_cut_by_longest_match(rt: HostRuntime) -> Result<(), Fail> {
    let alloc = rt.alloc();
    let rows: [(&[u8], &[u8]); 16] = [
        (b"def Main =", b"wdef UMain m= "),
        (b"<|| <<| <# <= <", b"m<| m| m<< m| m<# m<= m< "),
        (b"as!x as?x as x as_", b"was! lx was? lx was lx las_ "),
        (
            b"Many? Many Optional? Optional Many1",
            b"wMany? wMany wOptional? wOptional UMany1 ",
        ),
        (
            b"1..2 0x1.. 1.5 0x 0b2 0b12",
            b"n1 m.. n2 n0x1 m.. n1 m. n5 n0 lx n0 lb2 n0b1 n2 ",
        ),
        (b"_ _a __ $$ $[ $a1_", b"m_ l_a l__ m$$ m$[ c$a1_ "),
        (b".&. .|. .^. .. .", b"m.&. m.|. m.^. m.. m. "),
        (
            b"{| |} || | { } ( ) [ ]",
            b"m{| m|} m|| m| m{ m} m( m) m[ m] ",
        ),
        (
            b"^ -> = == != ! > >= >> + - * / % # ~ && , ; :",
            b"m^ m-> m= m== m!= m! m> m>= m>> m+ m- m* m/ m% m# m~ m&& m, m; m: ",
        ),
        (
            b"import bitdata where block let case of if then else for map in is true false just nothing First Choose",
            b"wimport wbitdata wwhere wblock wlet wcase wof wif wthen welse wfor wmap win wis wtrue wfalse wjust wnothing wFirst wChoose ",
        ),
        (b"a -- b \x80\n--\nc", b"la lc "),
        (b"a {- {- \xff -} -- -} b {--} c", b"la lb lc "),
        (b"a--b", b"la "),
        (
            b"\"a\\n\\x4f\" 'a' '\\'' '\"'",
            b"\"\"a\\n\\x4f\" ''a' ''\\'' ''\"' ",
        ),
        (b" \t\r\n", b""),
        (b"", b""),
    ];
    for (text, want) in rows {
        let tokens = lexed(alloc, text)?;
        let got = shown(alloc, tokens.as_slice(), text)?;
        assert_eq!(rt; got.as_slice(), want);
    }
    Ok(())
}

#[test]
fn the_first_error_is_told(rt: HostRuntime) {
    let alloc = rt.alloc();
    let rows: [(&[u8], LexError); 21] = [
        (
            b"def Main = ^ 340282366920938463463374607431768211456",
            LexError::NumberTooWide(13),
        ),
        (b"def Main = @", LexError::BadByte(11)),
        (b"def Main = \"ab", LexError::OpenText(11)),
        (b"def Main = \"\\q\"", LexError::BadEscape(12)),
        (b"a {- {- -}", LexError::OpenText(2)),
        (b"{-", LexError::OpenText(0)),
        (b"{-}", LexError::OpenText(0)),
        (b"''", LexError::OpenText(0)),
        (b"'ab'", LexError::OpenText(0)),
        (b"'a\\q'", LexError::OpenText(0)),
        (b"'", LexError::OpenText(0)),
        (b"'\n'", LexError::OpenText(0)),
        (b"'\x01'", LexError::BadByte(1)),
        (b"\"a\nb\"", LexError::OpenText(0)),
        (b"\"a\x01\\q", LexError::BadByte(2)),
        (b"\"a\x7f\"", LexError::BadByte(2)),
        (b"\"a\\\n\"", LexError::BadEscape(2)),
        (b"\"\\x4\n\"", LexError::BadEscape(1)),
        (b"\"\\", LexError::BadEscape(1)),
        (b"a $ b", LexError::BadByte(2)),
        (b"a \x80", LexError::BadByte(2)),
    ];
    for (text, want) in rows {
        assert_eq!(rt; error_of(alloc, text), Some(want));
    }
}

#[test]
fn literals_have_their_bytes(rt: HostRuntime) -> Result<(), Fail> {
    let alloc = rt.alloc();
    let text =
        b"\"\\n\\t\\r\\\\\\\"\\'\\x0aA\x80\" '\\xFf' 0x00Ff 0b101 340282366920938463463374607431768211455";
    let tokens = lexed(alloc, text)?;
    let mut numbers = Vec::new(alloc);
    for token in tokens.as_slice() {
        match &token.kind {
            Tok::Text(bytes) => assert_eq!(rt; bytes.get(), b"\n\t\r\\\"'\nA\x80".as_slice()),
            Tok::Char(byte) => assert_eq!(rt; *byte, 255),
            Tok::Number { value, digits, .. } => numbers.push((*value, *digits))?,
            _ => assert!(rt; false),
        }
    }
    let want = [(255, 4), (5, 3), (u128::MAX, 39)];
    assert_eq!(rt; numbers.as_slice(), want.as_slice());
    Ok(())
}

#[test]
fn lines_and_columns_count_tabs(rt: HostRuntime) -> Result<(), Fail> {
    let alloc = rt.alloc();
    let tokens = lexed(alloc, b"a\tb\n \t  c {- \n\t-}d")?;
    let want = [(0, 0, 0, 1), (0, 8, 2, 3), (1, 10, 8, 9), (2, 10, 17, 18)];
    assert_eq!(rt;
        places(alloc, tokens.as_slice())?.as_slice(),
        want.as_slice()
    );
    Ok(())
}

#[test]
fn tokens_and_added_marks_have_their_places(rt: HostRuntime) -> Result<(), Fail> {
    let alloc = rt.alloc();
    let rows: [(&[u8], &[u8], &[(u32, u32, u32, u32)]); 2] = [
        (
            b"def Main =",
            b"wdef UMain m= ",
            &[(0, 0, 0, 3), (0, 4, 4, 8), (0, 9, 9, 10)],
        ),
        // What is added has no bytes; it stands at the token behind it, or at the end of the last one.
        (
            b"block\n  a",
            b"wblock m{ la m} ",
            &[(0, 0, 0, 5), (1, 2, 8, 8), (1, 2, 8, 9), (1, 2, 9, 9)],
        ),
    ];
    for (text, want, wanted_places) in rows {
        let laid = layout(alloc, lexed(alloc, text)?)?;
        assert_eq!(rt; shown(alloc, laid.as_slice(), text)?.as_slice(), want);
        assert_eq!(rt; places(alloc, laid.as_slice())?.as_slice(), wanted_places);
    }
    Ok(())
}

#[test]
fn a_text_has_at_most_a_million_tokens(rt: HostRuntime) -> Result<(), Fail> {
    let alloc = rt.alloc();
    let mut text = Vec::new(alloc);
    text.resize(1 << 20, b';')?;
    assert_eq!(rt; lexed(alloc, text.as_slice())?.len(), 1 << 20);
    text.push(b';')?;
    assert_eq!(rt;
        error_of(alloc, text.as_slice()),
        Some(LexError::TooManyTokens(1048576))
    );
    text.pop();
    text.extend_from_slice(b" --")?;
    assert_eq!(rt; error_of(alloc, text.as_slice()), None);
    text.extend_from_slice(b"\n\"")?;
    assert_eq!(rt;
        error_of(alloc, text.as_slice()),
        Some(LexError::TooManyTokens(1048580))
    );
    Ok(())
}

#[test]
fn lists_are_laid_out(rt: HostRuntime) -> Result<(), Fail> {
    let alloc = rt.alloc();
    let rows: [(&[u8], &[u8]); 10] = [
        // An item for each line of one column, and the end by a smaller one.
        (
            b"d = block\n  a\n  b\nc",
            b"ld m= wblock m{ la m; lb m} lc ",
        ),
        // A tab reaches the column of eight spaces.
        (
            b"def Main = (block\n\tUInt8\n        UInt8)",
            b"wdef UMain m= m( wblock m{ UUInt8 m; UUInt8 m} m) ",
        ),
        // An empty list at the end.
        (b"d = block", b"ld m= wblock m{ m} "),
        // A list that a bracket, or a comma, ends.
        (b"(block a) b", b"m( wblock m{ la m} m) lb "),
        (b"[block a, b]", b"m[ wblock m{ la m} m, lb m] "),
        // With no bracket open neither ends a list.
        (b"block a , b )", b"wblock m{ la m, lb m) m} "),
        // Braces that are written.
        (b"block { a ; b }", b"wblock m{ la m; lb m} "),
        // A list that cannot begin inside the one around it is empty.
        (b"block\n  First\n  a", b"wblock m{ wFirst m{ m} m; la m} "),
        // Two lists that one line ends.
        (
            b"case x of\n  y -> First\n    a\n    b\nc",
            b"wcase lx wof m{ ly m-> wFirst m{ la m; lb m} m} lc ",
        ),
        // A line of a greater column goes on.
        (b"block\n  a\n    b", b"wblock m{ la lb m} "),
    ];
    for (text, want) in rows {
        let laid = layout(alloc, lexed(alloc, text)?)?;
        let got = shown(alloc, laid.as_slice(), text)?;
        assert_eq!(rt; got.as_slice(), want);
    }
    Ok(())
}

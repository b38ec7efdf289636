ghost use Rattle.std.specs.Prelude.{◌≡◌, ◌≤◌, length, IfSome};
ghost use Rattle.ddl_lex.specs.Comments.{comment};

/// How many bytes there are to the end of the comment that the text is in.
#[tactic(auto, using(crate::proofs::Steps::plus_one))]
pub(crate) fn comment_len(text: &[u8]) -> Option<usize>
    ensures value { result ≡ comment 0 0 text.now }
    ensures within { IfSome result (λ n. n ≤ length text.now) }
{
    let mut depth: usize = 0;
    let mut before = 0;
    let mut n = 0;
    while n < text.len() {
        let byte = text[n];
        n += 1;
        if before == b'{' && byte == b'-' {
            depth += 1;
            before = 0;
        } else if before == b'-' && byte == b'}' {
            if depth == 0 {
                return Some(n);
            }
            depth -= 1;
            before = 0;
        } else {
            before = byte;
        }
    }
    None
}

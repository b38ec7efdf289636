//! What holds of the definitions alone.

ghost use Rattle.ddl_lex.specs.Only.{OneList, NoTokensWithError, OneError, TokensOrError};

/// The laws of texts: each text has its one list of tokens or its one error, other than want of memory, and not both. So what
/// `lex` answers is told by the text alone, unless memory runs out. There is nothing to run.
pub fn lex_law()
    ensures one_list { OneList }
    ensures no_tokens_with_error { NoTokensWithError }
    ensures one_error { OneError }
    ensures tokens_or_error { TokensOrError }
{}

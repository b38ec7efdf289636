ghost use Rattle.std.specs.Prelude.{ℕ, ◌≤◌, ◌^◌, List, length};
ghost use Rattle.ddl_token.specs.declared.token.Token.{Token};
ghost use Rattle.ddl_tree.specs.ModuleTree as tree;
ghost use Rattle.ddl_tree.specs.PrintModule.{print_module};
ghost use Rattle.ddl_lex.specs.Tokens.{Cut};
ghost use Rattle.ddl_show.specs.ReadBack.{AreBytes, AreTokenForms, ReadsBack, kinds};

/// The text of a module is read back: it is cut whole into tokens, which are, laid out, those that are printed.
///
/// The contract is the law, of all modules whose tokens are of the forms of the language and no more than a text may
/// have. The function does nothing.
pub fn show_law()
    ensures reads_back { (x : tree.Module) → AreTokenForms (print_module x) → length (print_module x) ≤ 2 ^ 20
        → ReadsBack x }
    // The forms are those of the tokens that texts have.
    ensures forms { (text : List ℕ) (tokens : List Token) (at : ℕ) → AreBytes text → Cut text tokens at
        → AreTokenForms (kinds tokens) }
{}

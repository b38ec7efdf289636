//! What holds of the definitions alone.

ghost use Rattle.std.specs.Prelude.{ℕ, ◌≤◌, ◌^◌, length};
ghost use Rattle.ddl_tree.specs.ModuleTree as tree;
ghost use Rattle.ddl_tree.specs.Depth.{module_depth};
ghost use Rattle.ddl_tree.specs.GrammarModule.{IsModule};
ghost use Rattle.ddl_tree.specs.PrintModule.{print_module};
ghost use Rattle.ddl_tree.specs.SpansModule.{SameButSpans};
ghost use Rattle.ddl_show.specs.ReadBack.{AreTokenForms};
ghost use Rattle.ddl_show.specs.Show.{show_text};
ghost use Rattle.ddl_source.specs.Source.{HasTree};

/// A module that is shown is read back as itself: the text that it is shown as has a tree, which differs from the module
/// in nothing but spans, and so does each tree that the text has.
///
/// The contract is the law, of all modules of the grammar that nest at most 200 forms, whose tokens are of the forms of the
/// language and no more than a text may have. The function does nothing.
pub fn shown_modules_are_read_back()
    ensures there { (m : ℕ) (a : tree.Module) → IsModule a → AreTokenForms (print_module a)
        → length (print_module a) ≤ 2 ^ 20
        → module_depth a ≤ 200 → (b : tree.Module) × HasTree m (show_text a) b × SameButSpans a b }
    ensures same { (m : ℕ) (a : tree.Module) (b : tree.Module) → IsModule a → AreTokenForms (print_module a)
        → length (print_module a) ≤ 2 ^ 20
        → HasTree m (show_text a) b → SameButSpans a b }
{}

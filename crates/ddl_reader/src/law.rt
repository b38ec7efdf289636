ghost use Rattle.std.specs.Prelude.{ℕ, ◌≡◌, ◌≤◌, ◌<◌, List, Some};
ghost use Rattle.ddl_tree.specs.ModuleTree as tree;
ghost use Rattle.ddl_tree.specs.Depth.{module_depth};
ghost use Rattle.ddl_tree.specs.PrintModule.{print_module};
ghost use Rattle.ddl_tree.specs.GrammarModule.{IsModule};
ghost use Rattle.ddl_tree.specs.SpansModule.{SameButSpans, StandsAt};
ghost use Rattle.ddl_reader.specs.Frames.{Seen, State};
ghost use Rattle.ddl_reader.specs.Step.{begun, parsed, reach, step_at, finish, kinds, places, IsStuck};
ghost use Rattle.ddl_reader.specs.Depths.{lowest};
ghost use Rattle.ddl_reader.specs.Answers.{Begins, BeginsWithin, TooNested, Unexpected};

/// The grammar is unambiguous: two modules of it with the same tokens differ in nothing but spans.
///
/// The contract is the law, of all modules. The function does nothing.
pub fn prints_tell_modules_apart()
    ensures { (a : tree.Module) (b : tree.Module) → IsModule a → IsModule b
        → print_module a ≡ print_module b → SameButSpans a b }
{}

/// The machine reads the modules of the grammar and nothing else, each part with the span of its tokens, and
/// stops at the first token that no module goes on with.
///
/// The contract is the law, of all tokens. The function does nothing.
pub fn machine_reads_modules_exactly()
    // What it reads is a module with these tokens at these places.
    ensures sound { (xs : List Seen) (a : tree.Module) → parsed xs ≡ Some a
        → IsModule a × (print_module a ≡ kinds xs) × StandsAt a (places xs) }
    // It reads each module.
    ensures complete { (xs : List Seen) (a : tree.Module) → IsModule a
        → print_module a ≡ kinds xs → StandsAt a (places xs) → parsed xs ≡ Some a }
    // The tokens that it has taken begin a module.
    ensures begins { (used : List Seen) (z : State) → reach used begun ≡ Some z → Begins (kinds used) }
    // Where it takes no token, no module goes on so; where the tokens end too early, they are no module.
    ensures stops { (used : List Seen) (rest : List Seen) (z : State) → reach used begun ≡ Some z
        → IsStuck z rest → Unexpected (kinds used) (kinds rest) }
{}

/// The machine knows how deep the shallowest module is that begins with the tokens it has taken. So one that stops
/// before a token that leads beyond a depth d stops at the first token that no module within d goes on with.
///
/// The contract is the law, of all depths and all tokens. The function does nothing.
pub fn machine_knows_the_least_depth()
    // Up to d, the tokens that it has taken begin a module within d.
    ensures within { (d : ℕ) (used : List Seen) (z : State) → reach used begun ≡ Some z → lowest z ≤ d
        → BeginsWithin d (kinds used) }
    // The token that leads beyond d still begins a module, but none within d.
    ensures beyond { (d : ℕ) (used : List Seen) (x : Seen) (z : State) (y : State) → reach used begun ≡ Some z
        → lowest z ≤ d → step_at z.1 z.0 x.kind x.at ≡ Some y → d < lowest y → TooNested d (kinds used) x.kind }
    // The module that it reads is as deep as it knows.
    ensures depth { (xs : List Seen) (z : State) (a : tree.Module) → reach xs begun ≡ Some z
        → finish z.1 z.0 ≡ Some a → module_depth a ≡ lowest z }
{}

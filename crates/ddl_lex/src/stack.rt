use ddl_base::NoMemory;
use std::alloc::Global;
use std::marker::Model;

/// What is open: a list of items with its column, or a bracket.
#[derive(Clone, Copy, PartialEq, Eq)]
pub enum Open {
    Items(u32),
    Bracket,
}

/// What is open, seen with the innermost first.
#[derive(Drop)]
pub struct Stack {
    open: Vec<Open>,
    /// How many of them are brackets.
    brackets: usize,
}

impl Model for Stack {
    ghost use Rattle.std.specs.Prelude.{◌≡◌, List, reverse};
    ghost use Rattle.ddl_lex.specs.declared.stack.Open.{Open};
    ghost use Rattle.ddl_lex.specs.Brackets.{bracket_count};

    ghost Value = { List Open };

    ghost view = { λ s. reverse s.open.items };

    ghost invariant = { λ s. s.brackets ≡ bracket_count (reverse s.open.items) };
}

impl Stack {
    ghost use Rattle.std.specs.Prelude.{◌≡◌, [], ◌∷◌, OnOk};
    ghost use Rattle.ddl_lex.specs.declared.stack.Open.TheVariants.{Items, Bracket};
    ghost use Rattle.ddl_lex.specs.Brackets.{column as column_of, innermost as innermost_of};
    ghost use Rattle.ddl_lex.specs.Layout.{has_bracket as has_bracket_of, reaches as reaches_of, without_bracket};

    /// Nothing is open.
    pub fn new(alloc: Global) -> Self
        ensures { result ≡ [] }
    {
        Stack {
            open: Vec::new(alloc),
            brackets: 0,
        }
    }

    /// The column of the innermost list, unless a bracket is further in.
    pub fn column(&self) -> Option<u32>
        ensures { result ≡ column_of self.now }
    {
        match self.open.last() {
            Some(Open::Items(column)) => Some(*column),
            _ => None,
        }
    }

    /// The innermost.
    pub fn innermost(&self) -> Option<Open>
        ensures { result ≡ innermost_of self.now }
    {
        self.open.last().copied()
    }

    /// Whether the innermost is a list of this column or a greater one.
    pub fn reaches(&self, column: u32) -> bool
        ensures { result ≡ reaches_of column self.now }
    {
        match self.open.last() {
            Some(Open::Items(innermost)) => *innermost >= column,
            _ => false,
        }
    }

    /// Whether some bracket is open.
    pub fn has_bracket(&self) -> bool
        ensures { result ≡ has_bracket_of self.now }
    {
        self.brackets > 0
    }

    /// Opens a list of items.
    pub fn push_items(&mut self, column: u32) -> Result<(), NoMemory>
        ensures { OnOk result (self.new ≡ Items column ∷ self.old) }
    {
        self.open.push(Open::Items(column))?;
        Ok(())
    }

    /// Opens a bracket.
    pub fn push_bracket(&mut self) -> Result<(), NoMemory>
        ensures { OnOk result (self.new ≡ Bracket ∷ self.old) }
    {
        self.open.push(Open::Bracket)?;
        self.brackets += 1;
        Ok(())
    }

    /// Takes away the innermost, if something is open.
    pub fn pop(&mut self)
        ensures { self.new ≡ without_bracket self.old }
    {
        if let Some(Open::Bracket) = self.open.pop() {
            self.brackets -= 1;
        }
    }
}

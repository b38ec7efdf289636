ghost use Rattle.ddl_typed.specs.LayoutLaws.{SameWidths, SameNumbers, SameConstructors, SameLayouts, KeptLayouts};

/// The law of layouts. Those of the meaning, which have names, and those of the crate of bit layouts, which have none, are
/// of the same widths and have the same numbers, each with the same constructor. A layout of the program stands by either
/// view for the same one, and one that is checked is accepted. There is nothing to run.
pub fn layout_law()
    ensures widths { SameWidths }
    ensures numbers { SameNumbers }
    ensures constructors { SameConstructors }
    ensures layouts { SameLayouts }
    ensures kept { KeptLayouts }
{}

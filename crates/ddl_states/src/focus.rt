use crate::frame::{
    Found, FoundClass, FoundType, Head, Layout, PartStart, Parted, Repeat, Sort, Start,
};
use ddl_base::Span;
use ddl_tree::{Alt, Binding, ByteLit, Con, Item, Name, Names, Pat};

/// What stands before the names of a loop.
#[derive(Drop)]
pub enum Loop {
    For {
        from: Span,
        state: Name,
        start: Found,
    },
    Map(Span),
}

/// A `case` up to one of its patterns.
#[derive(Drop)]
pub struct Cases {
    pub from: Span,
    pub subject: Found,
    pub alts: Vec<Alt>,
    pub deep: u32,
}

/// What stands at the hole of the innermost form.
#[derive(Drop)]
pub enum Focus {
    /// Before an import or a declaration.
    Import,
    /// Before a declaration.
    Decl,
    Type(TypeFocus),
    Class(ClassFocus),
    /// Before an expression.
    Want,
    /// After an expression.
    Have(Found),
    Loop(LoopFocus),
    Field(FieldFocus),
    List(ListFocus),
    Case(CaseFocus),
    Head(HeadFocus),
    Bits(BitsFocus),
}

/// In a type.
#[derive(Drop)]
pub enum TypeFocus {
    Want,
    Have(FoundType),
    /// After `uint`.
    Uint(Span),
    /// After `sint`.
    Sint(Span),
    /// After `{`.
    Empty(Span),
}

/// In a class.
#[derive(Drop)]
pub enum ClassFocus {
    Want,
    Have(FoundClass),
    /// After a byte that may begin a range.
    Byte(ByteLit),
    /// After `..`.
    Last(ByteLit),
}

/// Between `for` or `map` and its list.
#[derive(Drop)]
pub enum LoopFocus {
    OpenFor(Span),
    State(Span),
    Equals { from: Span, state: Name },
    OpenMap(Span),
    First(Loop),
    AfterFirst { before: Loop, first: Name },
    Second { before: Loop, first: Name },
    In { before: Loop, names: Names },
}

/// Where a name is wanted, in records, tags, `is` and `.`.
#[derive(Drop)]
pub enum FieldFocus {
    /// After `is`.
    Shape(Found),
    /// After `.`.
    Select(Found),
    FirstOfRecord(Span),
    NextOfRecord {
        from: Span,
        fields: Vec<Binding>,
        deep: u32,
    },
    RecordEquals {
        from: Span,
        fields: Vec<Binding>,
        deep: u32,
        name: Name,
    },
    OpenTagged(Span),
    AfterTag {
        from: Span,
        tag: Name,
    },
}

/// Between the words of `block`, `First` and `Choose` and their parts.
#[derive(Drop)]
pub enum ListFocus {
    OpenBlock(Span),
    ItemEquals {
        from: Span,
        items: Vec<Item>,
        deep: u32,
        start: Start,
    },
    LetName {
        from: Span,
        items: Vec<Item>,
        deep: u32,
        at: Span,
    },
    OpenChoice(Repeat),
    WantTag {
        repeat: Repeat,
        alternatives: Vec<Binding>,
        deep: u32,
    },
    TagEquals {
        repeat: Repeat,
        alternatives: Vec<Binding>,
        deep: u32,
        tag: Name,
    },
}

/// At a pattern of `case`.
#[derive(Drop)]
pub enum CaseFocus {
    Open { from: Span, subject: Found },
    Pattern(Cases),
    Just { cases: Cases, from: Span },
    Tag { cases: Cases, tag: Name },
    Arrow { cases: Cases, pattern: Pat },
}

/// In an import, or in a declaration before its body.
#[derive(Drop)]
pub enum HeadFocus {
    Import(Span),
    Name(Span),
    Param(Head),
    OpenParam {
        head: Head,
        from: Span,
    },
    ParamColon {
        head: Head,
        from: Span,
        sort: Sort,
        name: Name,
    },
    ClassEquals {
        from: Span,
        name: Name,
    },
}

/// In a bitdata, outside of types.
#[derive(Drop)]
pub enum BitsFocus {
    Name(Span),
    AfterName {
        from: Span,
        name: Name,
    },
    OpenCons {
        from: Span,
        name: Name,
    },
    Con {
        from: Span,
        name: Name,
        cons: Vec<Con>,
        deep: u32,
    },
    ConEquals {
        from: Span,
        name: Name,
        cons: Vec<Con>,
        deep: u32,
        con: Name,
    },
    AfterCon {
        from: Span,
        name: Name,
        cons: Vec<Con>,
        deep: u32,
    },
    Bits(Layout),
    Part(Parted),
    AfterPart(Parted),
    PartColon {
        parted: Parted,
        start: PartStart,
    },
}

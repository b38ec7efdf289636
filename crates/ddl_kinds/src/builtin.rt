ghost use Rattle.std.specs.Prelude.{◌≡◌, find, bytes_eq};
ghost use Rattle.ddl_kinds.specs.BuiltIns.{builtin_kind, builtin_named, builtin_params, builtin_spelling};

use crate::want::Want;
use ddl_tree::Kind;

/// What a name stands for where nothing else binds it.
#[derive(Clone, Copy, PartialEq, Eq)]
pub enum BuiltIn {
    /// `UInt8`: the next byte.
    UInt8,
    /// `Match xs`: these bytes.
    Match,
    /// `END`: the end of the stream.
    End,
    /// `GetStream`: the stream itself.
    GetStream,
    /// `Offset`: how far the stream is in its bytes.
    Offset,
    /// `SetStream s`: goes on with another stream.
    SetStream,
    /// `Take n s`: the first bytes of a stream.
    Take,
    /// `Drop n s`: a stream without its first bytes.
    Drop,
    /// `Index xs i`: an element of an array, or a failure.
    Index,
    /// `Lookup k m`: the value of a key, or a failure.
    Lookup,
    /// `Insert k v m`: a map with one more key, or a failure.
    Insert,
    /// `Fail "text"`: a failure that tells the text.
    Fail,
    /// `length xs`
    Length,
    /// `concat xss`
    Concat,
    /// `arrayStream xs`
    ArrayStream,
    /// `bytesOfStream s`
    BytesOfStream,
    /// `empty`: the map without keys.
    Empty,
    /// `insert k v m`: a map in which the key has this value.
    Put,
    /// `lookup k m`: the value of a key, or `nothing`.
    Seek,
}

/// Every built-in name.
const BUILT_INS: [BuiltIn; 19] = [
    BuiltIn::UInt8,
    BuiltIn::Match,
    BuiltIn::End,
    BuiltIn::GetStream,
    BuiltIn::Offset,
    BuiltIn::SetStream,
    BuiltIn::Take,
    BuiltIn::Drop,
    BuiltIn::Index,
    BuiltIn::Lookup,
    BuiltIn::Insert,
    BuiltIn::Fail,
    BuiltIn::Length,
    BuiltIn::Concat,
    BuiltIn::ArrayStream,
    BuiltIn::BytesOfStream,
    BuiltIn::Empty,
    BuiltIn::Put,
    BuiltIn::Seek,
];

/// The first of these that has this spelling.
fn first_of(builtins: &[BuiltIn], name: &[u8]) -> Option<BuiltIn>
    ensures { result ≡ find (λ b. bytes_eq (builtin_spelling b) name.now) builtins.now }
{
    for builtin in builtins {
        if builtin.spelling() == name {
            return Some(*builtin);
        }
    }
    None
}

impl BuiltIn {
    /// The built-in name that has this spelling.
    pub fn named(name: &[u8]) -> Option<BuiltIn>
        ensures { result ≡ builtin_named name.now }
    {
        first_of(&BUILT_INS, name)
    }

    /// The bytes of the name in a text, without a copy.
    pub fn spelling(self) -> &'static [u8]
        ensures { result.now ≡ builtin_spelling self }
    {
        match self {
            BuiltIn::UInt8 => b"UInt8",
            BuiltIn::Match => b"Match",
            BuiltIn::End => b"END",
            BuiltIn::GetStream => b"GetStream",
            BuiltIn::Offset => b"Offset",
            BuiltIn::SetStream => b"SetStream",
            BuiltIn::Take => b"Take",
            BuiltIn::Drop => b"Drop",
            BuiltIn::Index => b"Index",
            BuiltIn::Lookup => b"Lookup",
            BuiltIn::Insert => b"Insert",
            BuiltIn::Fail => b"Fail",
            BuiltIn::Length => b"length",
            BuiltIn::Concat => b"concat",
            BuiltIn::ArrayStream => b"arrayStream",
            BuiltIn::BytesOfStream => b"bytesOfStream",
            BuiltIn::Empty => b"empty",
            BuiltIn::Put => b"insert",
            BuiltIn::Seek => b"lookup",
        }
    }

    /// What the name stands for.
    pub fn kind(self) -> Kind
        ensures { result ≡ builtin_kind self }
    {
        match self {
            BuiltIn::UInt8
            | BuiltIn::Match
            | BuiltIn::End
            | BuiltIn::GetStream
            | BuiltIn::Offset
            | BuiltIn::SetStream
            | BuiltIn::Take
            | BuiltIn::Drop
            | BuiltIn::Index
            | BuiltIn::Lookup
            | BuiltIn::Insert
            | BuiltIn::Fail => Kind::Grammar,
            BuiltIn::Length
            | BuiltIn::Concat
            | BuiltIn::ArrayStream
            | BuiltIn::BytesOfStream
            | BuiltIn::Empty
            | BuiltIn::Put
            | BuiltIn::Seek => Kind::Value,
        }
    }

    /// What its arguments have to be.
    pub fn params(self) -> &'static [Want]
        ensures { result.now ≡ builtin_params self }
    {
        match self {
            BuiltIn::UInt8 | BuiltIn::End | BuiltIn::GetStream | BuiltIn::Offset | BuiltIn::Empty =>
                &[],
            BuiltIn::Fail => &[Want::Text],
            BuiltIn::Match
            | BuiltIn::SetStream
            | BuiltIn::Length
            | BuiltIn::Concat
            | BuiltIn::ArrayStream
            | BuiltIn::BytesOfStream => &[Want::Value],
            BuiltIn::Take | BuiltIn::Drop | BuiltIn::Index | BuiltIn::Lookup | BuiltIn::Seek => {
                &[Want::Value, Want::Value]
            }
            BuiltIn::Insert | BuiltIn::Put => &[Want::Value, Want::Value, Want::Value],
        }
    }
}

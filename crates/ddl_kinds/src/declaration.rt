ghost use Rattle.std.specs.Prelude.{◌≡◌, map};
ghost use Rattle.ddl_tree.specs.ViewModule.{decl_view, param_view};
ghost use Rattle.ddl_kinds.specs.Meanings.{decl_kind, decl_name, decl_params};

use ddl_tree::{Decl, Kind, Name, Param};

/// The name that is declared.
pub fn name_of(decl: &Decl) -> &Name
    ensures { result.now ≡ decl_name (decl_view decl.now) }
{
    match decl {
        Decl::Grammar { name, .. }
        | Decl::Value { name, .. }
        | Decl::Class { name, .. }
        | Decl::Bits { name, .. }
        | Decl::BitsUnion { name, .. } => name,
    }
}

/// What the name stands for.
pub fn kind_of(decl: &Decl) -> Kind
    ensures { result ≡ decl_kind (decl_view decl.now) }
{
    match decl {
        Decl::Grammar { .. } => Kind::Grammar,
        Decl::Value { .. } => Kind::Value,
        Decl::Class { .. } => Kind::Class,
        Decl::Bits { .. } | Decl::BitsUnion { .. } => Kind::Bits,
    }
}

/// The parameters of what is declared.
pub fn params_of(decl: &Decl) -> &[Param]
    ensures { map param_view result.now ≡ decl_params (decl_view decl.now) }
{
    match decl {
        Decl::Grammar { params, .. } | Decl::Value { params, .. } => params,
        Decl::Class { .. } | Decl::Bits { .. } | Decl::BitsUnion { .. } => &[],
    }
}

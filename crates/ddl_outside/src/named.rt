ghost use Rattle.std.specs.Prelude.{◌≡◌, map};
ghost use Rattle.ddl_outside.specs.Named.{name_of, place_of};

/// A thing under a name. Of the things under one name in a list, the first counts.
#[derive(Drop)]
pub(crate) struct Named<T> {
    pub(crate) name: String,
    pub(crate) thing: T,
}

/// Where a name stands first.
pub(crate) fn place<T>(entries: &[Named<T>], name: &str) -> Option<usize>
    ensures { result ≡ place_of (map name_of entries.now) name.now }
{
    for (at, entry) in entries.iter().enumerate() {
        if entry.name.as_str() == name {
            return Some(at);
        }
    }
    None
}

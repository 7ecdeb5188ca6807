//! Lists of named values.

ghost use Rattle.std.specs.Prelude.{◌≡◌};
ghost use Rattle.lam_types_kinds.specs.Values.{keyed};
ghost use Rattle.lam_resolve_tables.specs.Named.{words, firsts};

use indexmap::IndexMap;

/// Values with names, oldest first, of which names may be equal. Contracts see them by `entries_of`.
#[derive(Drop)]
pub struct Named<'a, T> {
    pub(crate) entries: Vec<(&'a str, T)>,
    pub(crate) index: IndexMap<&'a str, usize>,
    ghost indexed: { keyed index.entries ≡ firsts (words entries.items) },
}

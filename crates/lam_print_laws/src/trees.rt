//! The laws of reading canonical text.

ghost use Rattle.lam_print_laws.specs.Law.{TreeLaw, WayRound, Steady};

/// The canonical tokens of a tree that some tokens spell are read as the same tree, but for its positions, where the
/// depth sum passes its limit at none of them.
pub fn canonical_tokens_are_read_as_the_tree()
    ensures { TreeLaw }
{}

/// The canonical text of a tree that some text spells is read as the same tree, but for its positions, where the depth
/// sum passes its limit at none of its tokens.
pub fn canonical_text_is_read_as_the_tree()
    ensures { WayRound }
{}

/// Trees that are the same but for their positions have the same canonical text, so what was read from canonical text
/// is printed as that text.
pub fn canonical_text_is_steady()
    ensures { Steady }
{}

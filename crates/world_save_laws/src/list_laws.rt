//! The laws of the lists in a saved world's document, in proofs alone.
//!
//! `world_save_terms` writes the tags, the counters, and the files and directories of a saved world as JSON values,
//! with labels by their texts. These laws say what is read of each list (`specs/ListLaws`). The tags come with their
//! kinds, as those that made public what is public. The counters are of each home its own. The items have their paths,
//! names and contents. It needs that each label is of tags that have names.

ghost use Rattle.world_save_laws.specs.ListLaws.{TagsAreRead, CountersAreSaid, ItemsAreSaid};

/// The list of tags is read as the tags, with the kinds that make public what is public.
pub fn saved_tags_are_read()
    ensures { TagsAreRead }
{}

/// The list of counters says of each home its counter, each home once, and these are the counters that were saved.
pub fn saved_counters_are_said()
    ensures { CountersAreSaid }
{}

/// The list of files and directories says each item, in their order.
pub fn saved_items_are_said()
    ensures { ItemsAreSaid }
{}

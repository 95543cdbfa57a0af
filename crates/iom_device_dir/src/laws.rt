//! Laws of contexts, of paths and of caches, each the contract of a function that does nothing.
ghost use Rattle.std.specs.Prelude.{◌≡◌, Ok};
ghost use Rattle.iom_device_dir.specs.declared.context.Context.{Context};
ghost use Rattle.iom_device_dir.specs.Words.{context_words};
ghost use Rattle.iom_device_dir.specs.Formats.{IsContext};
ghost use Rattle.iom_device_dir.specs.Decoded.{decoded_context, decoded_non_leaf_entry};
ghost use Rattle.iom_device_dir.specs.Encoded.{encoded_context_words, encoded_context, encoded_non_leaf_entry};
ghost use Rattle.iom_device_dir.specs.Laws.{PathsEndOnce, PathsDependOnLoadedWords, PathsDependOnLoadedFrames, ContextsDontOverlap, IndicesNameOneId};
ghost use Rattle.iom_device_dir.specs.CacheLaws.{AnswersWhatWasLastHanded};

use crate::context::{CONTEXT_SIZE, Context};
use crate::entry::NonLeafEntry;

/// No bytes have two meanings.
pub fn one_meaning(bytes: &[u8; CONTEXT_SIZE], one: Context, other: Context)
    requires one { IsContext bytes.now one }
    requires other { IsContext bytes.now other }
    ensures { one ≡ other }
{}

/// What is written for a context is decoded to it: its words, and so its bytes.
pub fn reads_back(context: Context)
    ensures words { decoded_context (encoded_context_words context) ≡ Ok context }
    ensures bytes { decoded_context (context_words (encoded_context context)) ≡ Ok context }
{}

/// What is written for an entry is decoded to it.
pub fn entry_reads_back(entry: NonLeafEntry)
    ensures { decoded_non_leaf_entry (encoded_non_leaf_entry entry) ≡ Ok entry }
{}

/// The path of an id has one end.
pub fn one_end()
    ensures { PathsEndOnce }
{}

/// A change of memory outside the words that the path of an id loads leaves it.
pub fn same_path()
    ensures { PathsDependOnLoadedWords }
{}

/// A change of memory outside the frames that the path of an id goes through leaves it.
pub fn same_frames()
    ensures { PathsDependOnLoadedFrames }
{}

/// Contexts of other pages, or with other indices, have other bytes.
pub fn contexts_apart()
    ensures { ContextsDontOverlap }
{}

/// Ids that differ have an index that differs.
pub fn one_id_by_indices()
    ensures { IndicesNameOneId }
{}

/// A cache that only looks, keeps and drops answers nothing but what it was last handed for the id, where no drop
/// has covered it since.
pub fn answers_what_was_last_handed()
    ensures { AnswersWhatWasLastHanded Context }
{}

//! States the laws of keys and of mentions that are read. Each is the contract of a function that does nothing.

ghost use Rattle.std.specs.Prelude.{◌≡◌, ℕ, true, List, Some, IsTrue, find};
ghost use Rattle.std.specs.List.{AllByRecursion, list_all};
ghost use Rattle.std.specs.Str.{bytes_eq};
ghost use Rattle.path_settings.specs.declared.keys.TheConstants.{ALL_PATH_KEYS};
ghost use Rattle.path_settings.specs.declared.keys.PathKey.{PathKey};
ghost use Rattle.path_settings.specs.declared.mentions.Mention.{Mention};
ghost use Rattle.path_settings.specs.Short.{is_short};
ghost use Rattle.path_settings.specs.declared.dialect.Dialect.{Dialect};
ghost use Rattle.path_settings.specs.declared.dialect.Dialect.TheVariants.{Base};
ghost use Rattle.path_settings.specs.FolderWords.{mentions_of_word};
ghost use Rattle.path_settings.specs.Keys.{path_keys, name_of, names_of, is_of_base, key_named, is_implied, mention_of};

/// `ALL_PATH_KEYS` has all keys, and each name of a key finds this key. The base profile knows one name of each of its keys.
pub fn keys_and_names()
    ensures all_keys { ALL_PATH_KEYS ≡ path_keys }
    ensures found_by_its_name { (key : PathKey) → find (λ other. bytes_eq (name_of other) (name_of key)) path_keys ≡ Some key }
    ensures base_finds_by_name { (key : PathKey) → IsTrue (is_of_base key) → key_named Base (name_of key) ≡ Some key }
    ensures base_has_no_other { (text : List ℕ) (key : PathKey) → key_named Base text ≡ Some key → (is_of_base key ≡ true) × (name_of key ≡ text) }
    ensures found_by_each_name { (dialect : Dialect) (key : PathKey) → AllByRecursion (λ name. key_named dialect name ≡ Some key) (names_of dialect key) }
{}

/// A mention that is read has a path of at most 250 bytes, as does the source of a bind. The mentions of a folder are
/// optional.
pub fn mentions_that_are_read()
    ensures short_paths { (key : PathKey) (word : List ℕ) (mention : Mention)
        → mention_of key word ≡ Some mention → IsTrue (is_short mention) }
    ensures implied_are_optional { (key : PathKey) (word : List ℕ) (mention : Mention)
        → IsTrue (is_implied key) → mention_of key word ≡ Some mention → IsTrue mention.optional }
    ensures all_short { (dialect : Dialect) (key : PathKey) (word : List ℕ) (mentions : List Mention)
        → mentions_of_word dialect key word ≡ Some mentions → list_all is_short mentions ≡ true }
    ensures all_implied_are_optional { (dialect : Dialect) (key : PathKey) (word : List ℕ) (mentions : List Mention)
        → IsTrue (is_implied key) → mentions_of_word dialect key word ≡ Some mentions → list_all (λ mention. mention.optional) mentions ≡ true }
{}

//! States the laws of views and of kept mentions. Each is the contract of a function that does nothing.

ghost use Rattle.std.specs.Prelude.{◌≡◌, List, map, Ok, IsTrue};
ghost use Rattle.std.specs.List.{AllByRecursion, Contains};
ghost use Rattle.abs_path.specs.Paths.{Path, is_normal};
ghost use Rattle.abs_path.specs.Prefix.{rest_of, is_below};
ghost use Rattle.path_settings.specs.declared.mentions.Mention.{Mention};
ghost use Rattle.path_settings.specs.Mentions.{hides};
ghost use Rattle.abs_path.specs.ByteOrder.{in_byte_order};
ghost use Rattle.path_settings.specs.view_map.Asked.{asked_of, beneath_places};
ghost use Rattle.path_settings.specs.view_map.Resting.{KeptRestsOnWhatIsAsked};
ghost use Rattle.path_settings.specs.view_map.View.{leading_to, is_read_only, is_no_exec};
ghost use Rattle.path_settings.specs.view_map.Object.{object_at, object_behind};
ghost use Rattle.path_settings.specs.view_map.OnTheWay.{HasNoneBetween};
ghost use Rattle.path_settings.specs.view_map.Kept.{Host, kept_of, KeepsByRules};

/// If no kept mention lies between a place and a path below it, the same mentions decide at both. The service finds at
/// the path what the object of the place has there.
pub fn view_on_the_way()
    ensures same_mentions_decide { (kept : List Mention) (place path : Path)
        → HasNoneBetween kept place path → leading_to place kept ≡ leading_to path kept }
    ensures object_is_carried_on { (kept : List Mention) (place path : Path)
        → HasNoneBetween kept place path → object_at kept path ≡ object_behind (object_at kept place) (rest_of place path) }
    ensures as_read_only { (kept : List Mention) (place path : Path)
        → HasNoneBetween kept place path → is_read_only kept path ≡ is_read_only kept place }
    ensures as_executable { (kept : List Mention) (place path : Path)
        → HasNoneBetween kept place path → is_no_exec kept path ≡ is_no_exec kept place }
{}

/// The kept mentions are some of the given ones. The rules keep just these if they are asked with the kept mentions
/// themselves, so no order of paths matters. The rules ask the host only about places beneath the kept mentions and
/// about the sources of binds. They keep nothing below a hidden path.
pub fn kept_by_the_rules()
    ensures none_is_made_up { (row_at : Host) (mentions kept : List Mention)
        → kept_of row_at mentions ≡ Ok kept → AllByRecursion (Contains mentions) kept }
    ensures by_the_kept_ones { (row_at : Host) (mentions kept : List Mention)
        → AllByRecursion (λ mention. IsTrue (is_normal mention.path)) mentions
        → kept_of row_at mentions ≡ Ok kept → KeepsByRules row_at mentions kept }
    ensures asks_beneath_the_kept { (row_at : Host) (mentions kept : List Mention)
        → kept_of row_at mentions ≡ Ok kept
        → asked_of row_at mentions ≡ beneath_places kept (in_byte_order (map (λ mention. mention.path) mentions)) }
    ensures rests_on_what_is_asked { KeptRestsOnWhatIsAsked }
    ensures none_below_what_is_hidden { (row_at : Host) (mentions kept : List Mention) (one other : Mention)
        → KeepsByRules row_at mentions kept → Contains kept one → IsTrue (hides one.kind)
        → Contains kept other → IsTrue (is_below other.path one.path) → ⊥ }
{}

//! States the laws of paths. Each is the contract of a function that does nothing.

ghost use Rattle.std.specs.Prelude.{◌≡◌, ◌⊎◌, ◌↔◌, ◌≤◌, ℕ, List, [], ◌++◌, IsTrue, Some, None, length};
ghost use Rattle.std.specs.List.{AllByRecursion, Contains};
ghost use Rattle.abs_path.specs.Paths.{Path, text_of, tail_of, parts_of, is_normal};
ghost use Rattle.abs_path.specs.Prefix.{is_prefix, rest_of, rest_text, IsRest};
ghost use Rattle.abs_path.specs.ByteOrder.{is_before, in_byte_order, AreAscending};
ghost use Rattle.abs_path.specs.Read.{fault_of};

/// Prefixes are a partial order. The root is a prefix of every path, and the prefixes of one path
/// are a chain.
pub fn prefix_order()
    ensures of_itself { (path : Path) → IsTrue (is_prefix path path) }
    ensures root_of_all { (path : Path) → IsTrue (is_prefix [] path) }
    ensures each_of_the_other_is_same { (one other : Path)
        → IsTrue (is_prefix one other) → IsTrue (is_prefix other one) → one ≡ other }
    ensures through_a_third { (one other third : Path)
        → IsTrue (is_prefix one other) → IsTrue (is_prefix other third) → IsTrue (is_prefix one third) }
    ensures chain { (one other path : Path) → IsTrue (is_prefix one path)
        → IsTrue (is_prefix other path) → IsTrue (is_prefix one other) ⊎ IsTrue (is_prefix other one) }
{}

/// `rest` and `join` undo each other. A path's text is the text of a prefix followed by the rest.
pub fn rest_and_join()
    ensures rest_then_join { (front path : Path) (rest : List ℕ) → IsTrue (is_normal path)
        → rest_text front path ≡ Some rest → front ++ parts_of rest ≡ path }
    ensures join_then_rest { (front : Path) (rest : List ℕ)
        → IsRest rest → rest_text front (front ++ parts_of rest) ≡ Some rest }
    ensures text_then_rest { (front path : Path)
        → IsTrue (is_prefix front path) → tail_of path ≡ tail_of front ++ tail_of (rest_of front path) }
{}

/// The text of a normal path of at most 512 bytes is read as that path.
pub fn text_read_again()
    ensures no_fault { (path : Path) → IsTrue (is_normal path)
        → length (text_of path) ≤ 512 → fault_of (text_of path) ≡ None }
    ensures same_parts { (path : Path) → IsTrue (is_normal path) → parts_of (text_of path) ≡ path }
{}

/// Byte order is an order. It puts each path after its proper prefixes, and no two different normal paths are equal in it. A
/// list of normal paths keeps exactly its paths when it is put in byte order.
pub fn byte_order()
    ensures after_prefixes { (front path : Path)
        → IsTrue (is_prefix front path) → (front ≡ path) ⊎ IsTrue (is_before front path) }
    ensures not_before_itself { (path : Path) → IsTrue (is_before path path) → ⊥ }
    ensures through_a_third { (one other third : Path)
        → IsTrue (is_before one other) → IsTrue (is_before other third) → IsTrue (is_before one third) }
    ensures one_first { (one other : Path) → IsTrue (is_normal one) → IsTrue (is_normal other)
        → (one ≡ other) ⊎ (IsTrue (is_before one other) ⊎ IsTrue (is_before other one)) }
    ensures lists_ascend { (paths : List Path) → AreAscending (in_byte_order paths) }
    ensures lists_have_what_is_given { (paths : List Path) (path : Path)
        → AllByRecursion (λ one. IsTrue (is_normal one)) paths
        → (Contains (in_byte_order paths) path ↔ Contains paths path) }
{}

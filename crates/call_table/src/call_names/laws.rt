//! States the laws of the tables. Each is the contract of a function that does nothing.

ghost use Rattle.std.specs.Prelude.{◌≡◌, ℕ, List, Some, None, map, slice_get};
ghost use Rattle.std.specs.Map.{lookup};
ghost use Rattle.std.specs.Str.{bytes_eq};
ghost use Rattle.std.specs.List.{IsDistinct};
ghost use Rattle.call_table.specs.call_names.Known.{known_calls, linux_calls, known_call};
ghost use Rattle.call_table.specs.declared.call_names.kernel.Kernel.TheVariants.{Base, Linux};
ghost use Rattle.call_table.specs.declared.call_names.known.KnownCall.{KnownCall};

/// No name occurs twice in a table, so the name of each line finds that line. Linux has the entry of its own table, and
/// knows any other name as the base kernel does.
pub fn names_stand_once()
    ensures once { IsDistinct bytes_eq (map (λ line. line.0) known_calls) }
    ensures each_line_is_found { (place : ℕ) (name : List ℕ) (call : KnownCall)
        → slice_get known_calls place ≡ Some (name, call) → known_call Base name ≡ Some call }
    ensures once_in_linux { IsDistinct bytes_eq (map (λ line. line.0) linux_calls) }
    ensures each_line_of_linux_is_found { (place : ℕ) (name : List ℕ) (call : KnownCall)
        → slice_get linux_calls place ≡ Some (name, call) → known_call Linux name ≡ Some call }
    ensures others_are_as_in_base { (name : List ℕ) → lookup (bytes_eq name) linux_calls ≡ None
        → known_call Linux name ≡ known_call Base name }
{}

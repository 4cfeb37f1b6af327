//! The six words of a call.

ghost use Rattle.std.specs.Prelude.{◌≡◌, ◌<◌};
ghost use Rattle.kernel_model.specs.kernel_calls.Words.{low_word};

/// Returns the low 32 bits of the word at a place, counted from 0: the value of an argument of type int, syscall(2).
pub fn low_word(args: &[u64; 6], at: usize) -> u32
    requires { at < 6 }
    ensures low_half { result ≡ low_word args.now at }
{
    (args[at] % (1 << 32)) as u32
}

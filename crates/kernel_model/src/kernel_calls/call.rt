//! A call of a process.

ghost use Rattle.std.specs.Prelude.{◌≡◌, ◌<◌};
ghost use Rattle.kernel_model.specs.kernel_calls.Words.{low_word};

use crate::kernel_calls::payload::Payload;
use crate::kernel_calls::words::low_word;

/// One system call of one process, syscall(2).
#[derive(Drop)]
pub struct Call {
    /// The number of the process that makes the call, from 1.
    pub pid: u32,
    /// The ABI of the call: its position in the table of calls, from 0.
    pub abi: u8,
    /// The number of the call.
    pub nr: u32,
    /// The six argument words.
    pub args: [u64; 6],
    /// The data that the pointers among the words point to.
    pub payload: Payload,
}

impl Call {
    /// Returns the low 32 bits of the word at a place, counted from 0.
    pub fn word(&self, at: usize) -> u32
        requires { at < 6 }
        ensures low_half { result ≡ low_word self.now.args at }
    {
        low_word(&self.args, at)
    }
}

//! Orders call data by their words.
ghost use Rattle.std.specs.Prelude.{◌≡◌, ◌%◌, ◌/◌, ◌^◌};
ghost use Rattle.std.specs.Bool.{OnTrue, OnFalse};
ghost use Rattle.seccomp_compile.specs.bpf_code.Effects.{words_of};
ghost use Rattle.filter_check.specs.Order.{IsNotAfter};

use seccomp_compile::CallData;

fn low(number: u64) -> u32
    ensures { result ≡ number % 2 ^ 32 }
{
    (number & 0xffff_ffff) as u32
}

fn high(number: u64) -> u32
    ensures { result ≡ number / 2 ^ 32 }
{
    (number >> 32) as u32
}

// Returns the sixteen words of a call's data, in the order of their offsets.
fn words(call: &CallData) -> [u32; 16]
    ensures { result ≡ words_of call.now }
{
    let [a, b, c, d, e, f] = call.args;
    [
        call.nr,
        call.arch,
        low(call.ip),
        high(call.ip),
        low(a),
        high(a),
        low(b),
        high(b),
        low(c),
        high(c),
        low(d),
        high(d),
        low(e),
        high(e),
        low(f),
        high(f),
    ]
}

/// Returns whether the words of one call's data precede the other's: at the first place where they differ, they are less.
pub fn comes_before(one: &CallData, other: &CallData) -> bool
    ensures before { OnTrue result (IsNotAfter (words_of one.now) (words_of other.now)) }
    ensures behind { OnFalse result (IsNotAfter (words_of other.now) (words_of one.now)) }
{
    words(one).cmp(&words(other)).is_lt()
}

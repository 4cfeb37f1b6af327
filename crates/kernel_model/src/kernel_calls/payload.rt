//! The data that the pointers among a call's words point to.

ghost use Rattle.std.specs.Prelude.{◌≡◌};
ghost use Rattle.kernel_model.specs.kernel_calls.Calls.{form_of_payload};

use crate::kernel_calls::request::Request;
use abs_path::AbsPath;
use call_table::ItemList;
use call_table::call_names::PayloadForm;
use site_table::CapSet;

/// Ids of groups, credentials(7). Contracts see a list.
pub type IdList = ItemList<u32>;

/// The bytes of a program, seccomp(2). Contracts see a list.
pub type Bytes = ItemList<u8>;

/// The data of a call besides its six words.
#[derive(Drop)]
pub enum Payload {
    /// Nothing.
    Nothing,
    /// One path.
    OnePath(AbsPath),
    /// Two paths, source and target, mount(2).
    TwoPaths(AbsPath, AbsPath),
    /// A path, and the flags by which it is opened, to which openat2(2) points.
    PathFlags(AbsPath, u32),
    /// Three sets of capabilities: permitted, effective and inheritable, capset(2).
    Sets(CapSet, CapSet, CapSet),
    /// Ids of groups, setgroups(2).
    Ids(IdList),
    /// The number of an address family, the first of the words that socketcall(2) points to; the policy that
    /// sched_setattr(2) points to; or the flags that clone3(2) points to.
    Number(u32),
    /// The bytes of a program, seccomp(2).
    Code(Bytes),
    /// A request to a ring, io_uring_enter(2).
    Ring(Request),
}

impl Payload {
    /// Returns its form, which a call's rule checks.
    pub fn form(&self) -> PayloadForm
        ensures form { result ≡ form_of_payload self.now }
    {
        match self {
            Payload::Nothing => PayloadForm::Nothing,
            Payload::OnePath(_) => PayloadForm::OnePath,
            Payload::TwoPaths(_, _) => PayloadForm::TwoPaths,
            Payload::PathFlags(_, _) => PayloadForm::PathFlags,
            Payload::Sets(_, _, _) => PayloadForm::Sets,
            Payload::Ids(_) => PayloadForm::Ids,
            Payload::Number(_) => PayloadForm::Number,
            Payload::Code(_) => PayloadForm::Program,
            Payload::Ring(_) => PayloadForm::Request,
        }
    }
}

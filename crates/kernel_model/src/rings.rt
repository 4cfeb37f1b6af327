//! io_uring_setup(2) and io_uring_enter(2). No filter sees what is submitted to a ring.

ghost use Rattle.std.specs.Prelude.{◌≡◌, Bool};
ghost use Rattle.kernel_model.specs.Effects.{request_effect, submit_effect, set_up_effect};
ghost use Rattle.kernel_model.specs.Parts.{caller_by};
ghost use Rattle.kernel_model.specs.Replies.{Answers, Changes};
ghost use Rattle.kernel_model.specs.State.{host_with};
ghost use Rattle.kernel_model.specs.World.{is_newer};

use crate::kernel_calls::Request;
use crate::process::Process;
use crate::reply::Reply;
use crate::told::Told;
use kern_creds::Creds;
use kern_mounts::MountTable;
use kern_mounts::linux_numbers::errnos::{EBADF, EPERM};

// The first descriptor after the three standard ones.
const DESCRIPTOR: u64 = 3;

impl<'a> Told<'a> {
    /// io_uring_setup(2): the process has a ring from now on. Returns EPERM if the host has no rings.
    pub fn set_up_ring(&self, creds: &mut Creds) -> Reply
        ensures changes { Changes creds.old result creds.new (set_up_effect self.now.site.now.io_uring creds.old) }
    {
        if !self.site.io_uring() {
            return Reply::Refused(EPERM);
        }
        creds.set_up_ring();
        Reply::Done(DESCRIPTOR)
    }

    // Performs a request as it performs a call.
    fn request(&self, caller: &Process, newer: bool, table: &MountTable, request: &Request) -> Reply
        requires its_namespace { newer ≡ is_newer caller.now }
        ensures { (owns : Bool) → Answers result (request_effect (host_with self.now) (caller_by caller.now table.now owns) request.now) }
    {
        match request {
            Request::Stat(path) => self.see(table, path),
            Request::Open(path, flags) => self.open(table, path, *flags),
            Request::Socket(family) => self.socket(&caller.creds, newer, *family),
            Request::Mode(_) => Reply::Done(0),
        }
    }

    /// io_uring_enter(2) with a request. Returns EBADF without a ring, else what the kernel replies to the request.
    pub fn submit(
        &self,
        caller: &Process,
        newer: bool,
        table: &MountTable,
        request: &Request,
    ) -> Reply
        requires its_namespace { newer ≡ is_newer caller.now }
        ensures by_the_ring { (owns : Bool) → Answers result (submit_effect (host_with self.now) (caller_by caller.now table.now owns) request.now) }
    {
        if !caller.creds.ring() {
            return Reply::Refused(EBADF);
        }
        self.request(caller, newer, table, request)
    }
}

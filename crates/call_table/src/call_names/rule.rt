//! Defines the rules of the modelled kernel, and which argument of a call a rule looks at.

ghost use Rattle.std.specs.Prelude.{◌≡◌, ◌<◌};
ghost use Rattle.call_table.specs.call_names.Known.{mode_place_of, place_of};

/// The argument with the flags or the mode of a call, syscall(2). Some calls of a rule have it one argument further.
#[derive(Clone, Copy)]
pub enum Argument {
    /// Argument 1, after one path or descriptor.
    Second,
    /// Argument 2, after a folder's descriptor and a path.
    Third,
}

impl Argument {
    /// Returns the place of the argument among the six words of a call.
    pub fn place(self) -> usize
        ensures place { result ≡ place_of self }
        ensures in_range { result < 6 }
    {
        match self {
            Argument::Second => 1,
            Argument::Third => 2,
        }
    }

    /// Returns the place of the argument after it: the mode of open(2) and openat(2), after their flags.
    pub fn mode_place(self) -> usize
        ensures place { result ≡ mode_place_of self }
        ensures in_range { result < 6 }
    {
        match self {
            Argument::Second => 2,
            Argument::Third => 3,
        }
    }
}

/// A rule of the modelled kernel for the calls of one line of its table, and the question about them.
#[derive(Clone, Copy)]
pub enum CallRule {
    /// stat(2), access(2) and similar calls find a path. Asked: which rows are seen.
    See,
    /// open(2) and openat(2), with their flags. Asked: which rows are read, and written.
    Open(Argument),
    /// open(2) and openat(2) of Linux, with their flags and the mode after them. Asked: also whether a set-id bit is given.
    OpenWith(Argument),
    /// creat(2) opens for writing. Asked: which rows are written.
    Create,
    /// creat(2) of Linux, with the mode. Asked: also whether a set-id bit is given.
    CreateWith,
    /// truncate(2) writes. Asked: which rows are written.
    Truncate,
    /// execve(2) and execveat(2). Asked: which rows are executed.
    Execve,
    /// chmod(2), mkdir(2), mknod(2) and similar calls, with the mode. Asked: whether a set-id bit is given.
    SetMode(Argument),
    /// mmap(2). Asked: whether memory is mapped writable and executable.
    Map,
    /// mprotect(2) and pkey_mprotect(2). Asked: whether memory becomes executable.
    Protect,
    /// shmat(2). Asked: whether shared memory is attached executable.
    Attach,
    /// sched_setscheduler(2). Asked: whether a realtime policy is taken.
    Schedule,
    /// sched_setattr(2), with the policy that its attributes hold. Asked: whether a realtime policy is taken.
    SetAttributes,
    /// personality(2). Asked: whether another personality is taken.
    Personality,
    /// socket(2). Asked: which families have sockets.
    Socket,
    /// socketcall(2), whose operation 1 is socket(2) with the family to which it points. Asked: which families have
    /// sockets.
    Socketcall,
    /// socketpair(2), which makes two sockets of AF_UNIX and of no other family. Asked: which families have sockets.
    Socketpair,
    /// setns(2), which is refused.
    Enter,
    /// fork(2) and vfork(2) copy the process.
    Fork,
    /// clone(2) copies the process, with flags. Asked: which namespaces are made.
    Clone,
    /// openat2(2), with the flags that its arguments hold. Asked: as of open(2).
    Openat2,
    /// clone3(2), with the flags that its arguments hold. Asked: which namespaces are made.
    Clone3,
    /// unshare(2). Asked: which namespaces are made.
    Unshare,
    /// exit(2) and exit_group(2) end the process.
    Exit,
    /// mount(2).
    Mount,
    /// umount2(2).
    Umount,
    /// setuid(2). Asked: which uids are taken.
    Setuid,
    /// setgid(2). Asked: which gids are taken.
    Setgid,
    /// setresuid(2). Asked: which uids are taken.
    Setresuid,
    /// setresgid(2). Asked: which gids are taken.
    Setresgid,
    /// setreuid(2). Asked: which uids are taken.
    Setreuid,
    /// setregid(2). Asked: which gids are taken.
    Setregid,
    /// setgroups(2). Asked: which gids are taken.
    Setgroups,
    /// capset(2). Asked: which capabilities are effective.
    Capset,
    /// prctl(2).
    Prctl,
    /// seccomp(2) installs a filter.
    Seccomp,
    /// io_uring_setup(2) gives the process a ring.
    SetUpRing,
    /// io_uring_enter(2) submits requests to a ring. Asked: which rows are seen, read and written, which families have sockets, and
    /// whether a set-id bit is given.
    Submit,
}

//! prctl(2): the operations that the kernel models.

ghost use Rattle.std.specs.Prelude.{◌≡◌, ◌==◌, ◌&&◌};
ghost use Rattle.kernel_model.specs.Effects.{is_set_effect, ambient_effect, no_new_privs_effect, keepcaps_effect, prctl_effect};
ghost use Rattle.kernel_model.specs.Effects.{prctl_effect_of, set_mdwe_effect};
ghost use Rattle.kernel_model.specs.Replies.{Answers, Changes};
ghost use Rattle.kernel_model.specs.World.{has_mdwe};

use crate::reply::{Reply, zero_reply};
use crate::told::Told;
use kern_creds::Creds;
use kern_mounts::linux_numbers::capabilities::CAP_LAST_CAP;
use kern_mounts::linux_numbers::errnos::{EINVAL, EPERM};

// The options.
const PR_SET_KEEPCAPS: u32 = 8;

const PR_CAPBSET_DROP: u32 = 24;

const PR_SET_NO_NEW_PRIVS: u32 = 38;

const PR_GET_NO_NEW_PRIVS: u32 = 39;

const PR_CAP_AMBIENT: u32 = 47;

const PR_SET_MDWE: u32 = 65;

const PR_GET_MDWE: u32 = 66;

// The value of PR_SET_MDWE that refuses memory to be both written and executed.
const PR_MDWE_REFUSE_EXEC_GAIN: u32 = 1;

// The operations of PR_CAP_AMBIENT.
const PR_CAP_AMBIENT_IS_SET: u32 = 1;

const PR_CAP_AMBIENT_RAISE: u32 = 2;

const PR_CAP_AMBIENT_LOWER: u32 = 3;

const PR_CAP_AMBIENT_CLEAR_ALL: u32 = 4;

// PR_CAP_AMBIENT_IS_SET. Returns EINVAL above 40.
fn is_ambient(creds: &Creds, cap: u32) -> Reply
    ensures { Answers result (is_set_effect creds.now cap) }
{
    if cap > CAP_LAST_CAP as u32 {
        return Reply::Refused(EINVAL);
    }
    Reply::Done(creds.ambient().contains(cap as u8).into())
}

// PR_CAP_AMBIENT. Returns EINVAL for an unknown operation.
fn ambient(creds: &mut Creds, op: u32, cap: u32) -> Reply
    ensures { Changes creds.old result creds.new (ambient_effect creds.old op cap) }
{
    match op {
        PR_CAP_AMBIENT_IS_SET => is_ambient(creds, cap),
        PR_CAP_AMBIENT_RAISE => zero_reply(creds.raise(cap)),
        PR_CAP_AMBIENT_LOWER => zero_reply(creds.lower(cap)),
        PR_CAP_AMBIENT_CLEAR_ALL => {
            creds.clear_ambient();
            Reply::Done(0)
        }
        _ => Reply::Refused(EINVAL),
    }
}

// PR_SET_NO_NEW_PRIVS. Returns EINVAL for any value but 1.
fn set_no_new_privs(creds: &mut Creds, value: u32) -> Reply
    ensures { Changes creds.old result creds.new (no_new_privs_effect creds.old value) }
{
    if value != 1 {
        return Reply::Refused(EINVAL);
    }
    creds.set_no_new_privs();
    Reply::Done(0)
}

// PR_SET_KEEPCAPS. Returns EINVAL for any value but 0 and 1.
fn set_keepcaps(creds: &mut Creds, value: u32) -> Reply
    ensures { Changes creds.old result creds.new (keepcaps_effect creds.old value) }
{
    if value > 1 {
        return Reply::Refused(EINVAL);
    }
    creds.set_keepcaps(value == 1);
    Reply::Done(0)
}

// PR_SET_MDWE. Returns EINVAL for a further argument, and for any value but 0 and PR_MDWE_REFUSE_EXEC_GAIN. The value 0 changes nothing;
// once the mark is set it returns EPERM.
fn set_mdwe(creds: &mut Creds, value: u32, third: u32, fourth: u32, fifth: u32) -> Reply
    ensures { Changes creds.old result creds.new (set_mdwe_effect creds.old value ((third == 0 && fourth == 0) && fifth == 0)) }
{
    if third != 0 || fourth != 0 || fifth != 0 {
        return Reply::Refused(EINVAL);
    }
    match value {
        PR_MDWE_REFUSE_EXEC_GAIN => {
            creds.set_mdwe();
            Reply::Done(0)
        }
        0 if creds.mdwe() => Reply::Refused(EPERM),
        0 => Reply::Done(0),
        _ => Reply::Refused(EINVAL),
    }
}

// prctl(2) without the operations on memory, with the option and the next two arguments. Returns EINVAL for an unknown option.
fn prctl(creds: &mut Creds, option: u32, value: u32, third: u32) -> Reply
    ensures { Changes creds.old result creds.new (prctl_effect creds.old option value third) }
{
    match option {
        PR_SET_NO_NEW_PRIVS => set_no_new_privs(creds, value),
        PR_GET_NO_NEW_PRIVS => Reply::Done(creds.no_new_privs().into()),
        PR_SET_KEEPCAPS => set_keepcaps(creds, value),
        PR_CAPBSET_DROP => zero_reply(creds.drop_bounding(value)),
        PR_CAP_AMBIENT => ambient(creds, value, third),
        _ => Reply::Refused(EINVAL),
    }
}

impl<'a> Told<'a> {
    // Whether the host's prctl(2) has PR_SET_MDWE and PR_GET_MDWE.
    fn has_mdwe(&self) -> bool
        ensures { result ≡ has_mdwe self.now.site.now }
    {
        self.site.systemd().is_some()
    }

    /// prctl(2), with the option and its four arguments. Returns EINVAL for an unknown option.
    pub fn prctl(
        &self,
        creds: &mut Creds,
        option: u32,
        value: u32,
        third: u32,
        fourth: u32,
        fifth: u32,
    ) -> Reply
        ensures by_the_option { Changes creds.old result creds.new (prctl_effect_of (has_mdwe self.now.site.now) creds.old option value third fourth fifth) }
    {
        match option {
            PR_SET_MDWE if self.has_mdwe() => set_mdwe(creds, value, third, fourth, fifth),
            PR_GET_MDWE if self.has_mdwe() => Reply::Done(creds.mdwe().into()),
            _ => prctl(creds, option, value, third),
        }
    }
}

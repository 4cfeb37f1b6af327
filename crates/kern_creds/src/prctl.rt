//! The calls that change sets and marks: capset(2) and prctl(2).

ghost use Rattle.std.specs.Prelude.{◌≡◌};
ghost use Rattle.kern_creds.specs.Answer.{Becomes};
ghost use Rattle.kern_creds.specs.Capset.{may_capset, after_capset};
ghost use Rattle.kern_creds.specs.Prctl.{after_drop_bounding, after_raise, after_lower, after_clear_ambient, after_set_keepcaps, after_set_no_new_privs, after_set_mdwe};

use crate::creds::Creds;
use crate::sets::single;
use cap_sets::CapSet;
use cap_sets::linux_numbers::capabilities::{CAP_LAST_CAP, CAP_SETPCAP};
use cap_sets::linux_numbers::errnos::{EINVAL, EPERM};

impl Creds {
    fn may_capset(&self, permitted: CapSet, effective: CapSet, inheritable: CapSet) -> bool
        ensures { result ≡ may_capset self.now permitted effective inheritable }
    {
        permitted.within(self.permitted)
            && effective.within(permitted)
            && (inheritable.within(self.inheritable.union(self.bounding))
                && (self.effective.contains(CAP_SETPCAP)
                    || inheritable.within(self.inheritable.union(self.permitted))))
    }

    /// capset(2): sets the permitted, the effective and the inheritable set. Ambient capabilities stay only if they are still
    /// permitted and inheritable.
    ///
    /// Returns EPERM unless all of these hold:
    ///
    /// - The permitted set is within the old permitted set.
    /// - The effective set is within the new permitted set.
    /// - The inheritable set is within the old inheritable set and the bounding set together.
    /// - The inheritable set is within the old inheritable and permitted sets together, or the caller has CAP_SETPCAP.
    pub fn capset(
        &mut self,
        permitted: CapSet,
        effective: CapSet,
        inheritable: CapSet,
    ) -> Result<(), u32>
        ensures by_the_rule { Becomes self.old self.new result (after_capset self.old permitted effective inheritable) }
    {
        if !self.may_capset(permitted, effective, inheritable) {
            return Err(EPERM);
        }
        self.ambient = self.ambient.cut(permitted.cut(inheritable));
        self.permitted = permitted;
        self.effective = effective;
        self.inheritable = inheritable;
        Ok(())
    }

    /// PR_CAPBSET_DROP: removes a capability from the bounding set.
    ///
    /// Returns EINVAL above 40, then EPERM without CAP_SETPCAP.
    pub fn drop_bounding(&mut self, cap: u32) -> Result<(), u32>
        ensures by_the_rule { Becomes self.old self.new result (after_drop_bounding self.old cap) }
    {
        if cap > CAP_LAST_CAP as u32 {
            return Err(EINVAL);
        }
        if !self.effective.contains(CAP_SETPCAP) {
            return Err(EPERM);
        }
        self.bounding = self.bounding.minus(single(cap as u8));
        Ok(())
    }

    /// PR_CAP_AMBIENT_RAISE: adds a capability to the ambient set.
    ///
    /// Returns EINVAL above 40, then EPERM unless the capability is permitted and inheritable.
    pub fn raise(&mut self, cap: u32) -> Result<(), u32>
        ensures by_the_rule { Becomes self.old self.new result (after_raise self.old cap) }
    {
        if cap > CAP_LAST_CAP as u32 {
            return Err(EINVAL);
        }
        let cap = cap as u8;
        if !(self.permitted.contains(cap) && self.inheritable.contains(cap)) {
            return Err(EPERM);
        }
        self.ambient = self.ambient.with(cap);
        Ok(())
    }

    /// PR_CAP_AMBIENT_LOWER: removes a capability from the ambient set.
    ///
    /// Returns EINVAL above 40.
    pub fn lower(&mut self, cap: u32) -> Result<(), u32>
        ensures by_the_rule { Becomes self.old self.new result (after_lower self.old cap) }
    {
        if cap > CAP_LAST_CAP as u32 {
            return Err(EINVAL);
        }
        self.ambient = self.ambient.minus(single(cap as u8));
        Ok(())
    }

    /// PR_CAP_AMBIENT_CLEAR_ALL: empties the ambient set.
    pub fn clear_ambient(&mut self)
        ensures none_ambient { self.new ≡ after_clear_ambient self.old }
    {
        self.ambient = CapSet::empty();
    }

    /// PR_SET_KEEPCAPS: whether the process keeps its permitted set when none of its uids is 0 any more.
    pub fn set_keepcaps(&mut self, on: bool)
        ensures as_asked { self.new ≡ after_set_keepcaps self.old on }
    {
        self.keepcaps = on;
    }

    /// PR_SET_NO_NEW_PRIVS: from now on execve gives no new privileges.
    pub fn set_no_new_privs(&mut self)
        ensures set { self.new ≡ after_set_no_new_privs self.old }
    {
        self.no_new_privs = true;
    }

    /// PR_SET_MDWE with PR_MDWE_REFUSE_EXEC_GAIN: from now on the process is refused memory that it can both write and execute.
    pub fn set_mdwe(&mut self)
        ensures set { self.new ≡ after_set_mdwe self.old }
    {
        self.mdwe = true;
    }
}

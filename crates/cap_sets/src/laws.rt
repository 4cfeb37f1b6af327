//! States the laws of sets of capabilities. Each is the contract of a function that does nothing.

ghost use Rattle.std.specs.Prelude.{◌≡◌, ℕ, ◌≤◌, codes};
ghost use Rattle.linux_numbers.specs.Capabilities.{cap_setgid, cap_setuid, cap_setpcap, cap_sys_module, cap_sys_rawio, cap_sys_admin, cap_sys_time, cap_mknod, cap_syslog, cap_wake_alarm, cap_last_cap};
ghost use Rattle.cap_sets.specs.Sets.{has, IsWithin};
ghost use Rattle.cap_sets.specs.Names.{name_of, in_lower_case};

/// A set is determined by its members, and `within` is a partial order.
pub fn set_order()
    ensures same_members { (one other : ℕ) → ((number : ℕ) → has one number ≡ has other number) → one ≡ other }
    ensures within_itself { (one : ℕ) → IsWithin one one }
    ensures each_within_the_other { (one other : ℕ) → IsWithin one other → IsWithin other one → one ≡ other }
    ensures within_through { (one other third : ℕ) → IsWithin one other → IsWithin other third → IsWithin one third }
{}

/// Any two capabilities have different names, even without regard to case.
pub fn distinct_names()
    ensures distinct { (one other : ℕ) → one ≤ 40 → other ≤ 40
        → in_lower_case (name_of one) ≡ in_lower_case (name_of other) → one ≡ other }
{}

/// The capabilities that rules name by number have these names here.
#[tactic(auto, unfolding(crate::specs::Names::name_of))]
pub fn numbers_have_their_names()
    ensures setgid { name_of cap_setgid ≡ codes "CAP_SETGID" }
    ensures setuid { name_of cap_setuid ≡ codes "CAP_SETUID" }
    ensures setpcap { name_of cap_setpcap ≡ codes "CAP_SETPCAP" }
    ensures sys_module { name_of cap_sys_module ≡ codes "CAP_SYS_MODULE" }
    ensures sys_rawio { name_of cap_sys_rawio ≡ codes "CAP_SYS_RAWIO" }
    ensures sys_admin { name_of cap_sys_admin ≡ codes "CAP_SYS_ADMIN" }
    ensures sys_time { name_of cap_sys_time ≡ codes "CAP_SYS_TIME" }
    ensures mknod { name_of cap_mknod ≡ codes "CAP_MKNOD" }
    ensures syslog { name_of cap_syslog ≡ codes "CAP_SYSLOG" }
    ensures wake_alarm { name_of cap_wake_alarm ≡ codes "CAP_WAKE_ALARM" }
    ensures last { name_of cap_last_cap ≡ codes "CAP_CHECKPOINT_RESTORE" }
{}

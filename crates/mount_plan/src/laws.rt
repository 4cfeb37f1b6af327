//! States the laws of plans. Each is the contract of a function that does nothing.

ghost use Rattle.mount_plan.specs.Form.{PlansHaveForm};
ghost use Rattle.mount_plan.specs.Resting.{PlanIsBlind, PlanRestsOnItsPlaces};

/// Every plan has this form, whatever the length of its paths is. The first mount is the host's root, and the places ascend.
/// In the base profile no mount takes privileges from programs. A hidden object has no flags. /proc is found as a directory,
/// or is the place of a hidden directory.
pub fn plans_have_a_form()
    ensures of_every_plan { PlansHaveForm }
{}

/// A plan depends on the host only by the objects beneath its places. So two hosts have the same plan if they differ only
/// below a folder that the plan does not show, and not at the sources of binds.
pub fn plans_rest_on_what_they_show()
    ensures on_its_places { PlanRestsOnItsPlaces }
    ensures not_on_what_is_not_shown { PlanIsBlind }
{}

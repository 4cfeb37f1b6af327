//! The laws of two sites: a service cannot find out what lies below a folder that it is blind to.
//!
//! Each is the contract of a function that does nothing.

ghost use Rattle.judge.specs.Alike.{BlindToOthers};
ghost use Rattle.judge.specs.Worlds.{RepliesAreBlind, LaunchIsBlind, BlindIsShownNothing};

/// Nothing below a folder changes a world that is blind to it. On every site that agrees outside the folder each list
/// of calls has the same replies and leads to the same world except for the site. A launch that leaves such a world
/// leaves it there too, after the same number of steps. No living process of the world sees the folder or a place
/// below it, if its mount table is no larger than a plan and the folder's path has at most 250 bytes.
pub fn worlds_are_blind()
    ensures replies { RepliesAreBlind }
    ensures launches { LaunchIsBlind }
    ensures shown_nothing { BlindIsShownNothing }
{}

/// A launched service is blind to a folder of its site, and another site agrees outside that folder. The two sites also agree
/// at the paths that the unit implies and at the sources of its binds. Then the service cannot distinguish the sites.
///
/// The other site refuses neither the unit nor its plan, and both settings and plan are the same. A launch with the same
/// programs, whichever they are, leaves the same world except for the site. Every list of calls has the same replies.
pub fn sites_are_alike()
    ensures blind { BlindToOthers }
{}

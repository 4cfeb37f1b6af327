//! Gives the printed facts of a launched service.
ghost use Rattle.std.specs.Prelude.{◌≡◌};
ghost use Rattle.asked_service.specs.launching.Told.{told_of};

use judge::World;
use report_text::Launched;

// Returns the printed facts of a world that a launch of so many steps left.
fn told_by(world: &World, steps: u32) -> Launched
    ensures { result ≡ told_of world.now steps }
{
    match world.process(1) {
        Some(process) => Launched {
            uid: process.creds.uids().effective,
            gid: process.creds.gids().effective,
            no_new_privs: process.creds.no_new_privs(),
            steps,
        },
        None => Launched {
            uid: 0,
            gid: 0,
            no_new_privs: false,
            steps,
        },
    }
}

/// Returns the printed facts of a launched service: the effective ids of its first process, whether that has
/// no_new_privs, and the number of steps that the launch took.
pub fn told(service: &judge::Launched) -> Launched
    ensures tells_the_first_process { result ≡ told_of service.now.world service.now.steps }
{
    told_by(&service.world, service.steps)
}

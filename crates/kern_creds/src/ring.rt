//! Sets up the ring of a process, io_uring_setup(2).

ghost use Rattle.std.specs.Prelude.{◌≡◌};
ghost use Rattle.kern_creds.specs.Ring.{after_set_up_ring};

use crate::creds::Creds;

impl Creds {
    /// io_uring_setup(2): from now on the process has a ring, until it executes another program.
    pub fn set_up_ring(&mut self)
        ensures set_up { self.new ≡ after_set_up_ring self.old }
    {
        self.ring = true;
    }
}

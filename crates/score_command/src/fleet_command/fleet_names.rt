//! Lists the names of all units of a host.
//!
//! They are the names of services among the names of the files directly in the folders of units, each once, in byte
//! order. The crate uses a `host_io` shelf for the folders, `unit_names` for names, and `dropin_merge`, whose
//! contracts say where the folders are.
//!
//! `fleet_names(alloc, &mut shelf)?` has `a.service` before `web.service`.

mod collecting;
mod errors;
mod listing;
mod naming;

pub use errors::NamesError;
pub use naming::fleet_names;

// Defines the lines of a table: a call or a family, and a group of calls.
ghost use Rattle.std.specs.Prelude.{refl};
ghost use Rattle.call_table.specs.Kernels.{read_by};

use crate::call_names::Kernel;
use crate::names::Name;
use name_table::{Marked, NameTable, Named};
use text_forms::item_list::ItemList;

/// A call or a family of sockets.
#[derive(Drop)]
pub struct CallLine {
    pub name: Name,
    /// The number of the system call or of the address family (socket(2)).
    pub number: u32,
    /// The number of the capability that every use needs (capabilities(7)).
    pub cap: Option<u8>,
    /// The position of the call's ABI, from 0. A family has 0.
    pub abi: u8,
    /// The kernel that reads the name of a call. A table that was just read has the base kernel, and a family keeps it.
    pub kernel: Kernel,
}

impl Named for CallLine {
    ghost name_of = { λ line. line.name };

    fn name(&self) -> &str {
        self.name.as_str()
    }
}

impl Marked for CallLine {
    type Mark = Kernel;

    ghost marked = { read_by };

    ghost keeps_name = { λ kernel line. refl };

    fn mark(&mut self, kernel: Kernel) {
        self.kernel = kernel;
    }
}

/// Calls of an ABI, or families, in the order of the file and by name. Contracts see them as a list.
pub type CallLines = NameTable<CallLine>;

/// The members of a group, which contracts see as a list of positions in the table's calls, from 0.
pub type Members = ItemList<usize>;

/// A group of calls.
#[derive(Drop)]
pub struct GroupLine {
    /// The name, without the `@` of the line.
    pub name: Name,
    /// The positions in the table's calls, from 0, ascending, each once.
    pub members: Members,
}

impl Named for GroupLine {
    ghost name_of = { λ group. group.name };

    fn name(&self) -> &str {
        self.name.as_str()
    }
}

/// Groups in the order of the file and by name. Contracts see them as a list.
pub type GroupLines = NameTable<GroupLine>;

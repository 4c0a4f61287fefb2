// Names.

use mw_list::Sequence;

/// The bytes of a name, which contracts see as a list.
pub type Name = Sequence<u8>;

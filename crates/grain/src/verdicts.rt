// The number of each verdict, which a caller in C gets: an enum that carries a span has no numbers of its own.
pub(crate) const FREE: u32 = 100;

pub(crate) const WITHIN: u32 = 101;

pub(crate) const BELOW: u32 = 102;

pub(crate) const ABOVE: u32 = 103;

//! The names of options and of arguments, by which the parser knows them.

// Options: the words behind the two dashes.

pub const GUID: &str = "guid";

pub const AGE: &str = "age";

pub const LIMIT: &str = "limit";

pub const BLOCK_SIZE: &str = "block-size";

pub const MAX_BYTES: &str = "max-bytes";

pub const FILES_FROM: &str = "files-from";

pub const NULL: &str = "null";

pub const MAP: &str = "map";

pub const PROGRESS: &str = "progress";

pub const NO_CLOBBER: &str = "no-clobber";

pub const REPLACE: &str = "replace";

pub const SKIP_REFUSED: &str = "skip-refused";

pub const VERBOSE: &str = "verbose";

pub const ORIGINS: &str = "origins";

pub const MEMBERS: &str = "members";

// Arguments, as the help names them.

pub const OUT: &str = "OUT";

pub const IN: &str = "IN";

pub const FIRST: &str = "A";

pub const SECOND: &str = "B";

pub const FILE: &str = "FILE";

pub const NAME: &str = "NAME";

pub const INDEX: &str = "INDEX";

pub const NUMBER: &str = "N";

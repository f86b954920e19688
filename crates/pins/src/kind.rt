// The kinds of pins and lifts where they are numbers: of the command records (document 01, "The printed plan"), which calls as numbers have too.

pub const PIN: u16 = 6;

pub const LIFT: u16 = 7;

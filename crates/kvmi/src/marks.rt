// The marks of a table image's records: two ASCII letters, the first in the low byte.
pub const VM: u16 = 0x4D56;

pub const VC: u16 = 0x4356;

pub const MS: u16 = 0x534D;

pub const PA: u16 = 0x4150;

pub const EN: u16 = 0x4E45;

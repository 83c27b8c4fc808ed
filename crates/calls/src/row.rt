// A row of a plan: a cartridge and its drive, 0 where it is not held.
#[derive(Clone, Copy, PartialEq, Eq, Debug)]
pub struct Row {
    pub cartridge: u16,
    pub drive: u16,
}

// A unit as minidisks see it.
use cms_journal::BlockSize;
use cms_world::Unit;

/// An attached unit with its device.
#[derive(Clone, Copy)]
pub struct UnitInfo {
    /// the device's number, 1 to 4,095
    pub vdev: u16,
    /// the unit's number and blocks
    pub unit: Unit,
    /// the size of its blocks
    pub bsize: BlockSize,
    /// it may be written
    pub writable: bool,
}

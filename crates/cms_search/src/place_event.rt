// What forgets reading places.
use cms_names::Name;

/// What happened to a file of a device, or to the disk of a device, so that reading doesn't go on in it where it was.
#[derive(Clone, Copy)]
pub enum PlaceEvent {
    /// a file of this name was put, extended, dropped, or has this name no more or only now
    Changed(u16, Name),
    /// FINIS ended the reading of the file
    Finished(u16, Name),
    /// the disk left its letter
    Left(u16),
    /// the disk was accessed
    Accessed(u16),
    /// an empty volume was made of it
    Formatted(u16),
    /// a fault left it in doubt
    Doubted(u16),
    /// a ready line was typed
    Ready,
}

//! Why a registration is not changed.

/// Why an applet is not registered, unregistered, or registered for an event.
#[derive(Clone, Copy, Debug, PartialEq, Eq)]
pub enum RowFault {
    /// The data are none of an installation, or the code is none of an event.
    BadData,
    /// No applet is on the shelf.
    NoBox,
    /// Only a wide card has that shelf, or keeps so many bytes.
    Narrow,
    /// The shelf is taken, or another applet answers call control.
    Taken,
    /// The menu has no room.
    MenuFull,
    /// No sequence number is left.
    Spent,
    /// No applet is registered on the shelf.
    NoRow,
    /// The applet waits for an answer.
    NotIdle,
}

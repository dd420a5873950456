//! How a connection ends, and how a server does.
use http_wire::WireFault;

/// How a connection ended.
#[derive(Clone, Copy, Debug, PartialEq, Eq)]
pub enum End {
    /// The bytes ended behind their last request, or a request that closes was answered.
    Ended,
    /// The bytes ended inside a message.
    Cut,
    /// A message was refused, and that was answered.
    Refused(WireFault),
    ReadFault,
    WriteFault,
    /// There was no memory for the answers' buffer, for the table of the paths or for the bytes.
    Memory,
    /// As many bytes were taken as a connection takes.
    Worn,
}

/// How a server ended.
#[derive(Clone, Copy, Debug, PartialEq, Eq)]
pub enum ServeEnd {
    /// The door gave no further link, or as many connections were taken as may be.
    Ended,
    /// A call on the door failed.
    DoorFault,
    Memory,
}

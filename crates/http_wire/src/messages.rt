//! What a wire gives: a request's head, the pieces of its body and its end, or the fault by which
//! the bytes are no request.
use decimal_rank::{Rows, Text};

/// A field of a request's head (RFC 9112, section 5). The value has no white space around it.
#[derive(Debug, Drop)]
pub struct HttpField {
    pub name: Text,
    pub value: Text,
}

/// A whole request.
#[derive(Debug, Drop)]
pub struct HttpRequest {
    pub method: Text,
    /// The request target as it stands: no escape is decoded, and a query is part of it.
    pub path: Text,
    pub fields: Rows<HttpField>,
    /// At most 16,777,216 bytes.
    pub body: Text,
    /// Whether it is the last of its connection: it is of HTTP/1.0, or a field `Connection` has the
    /// value `close`.
    pub close: bool,
}

/// Why bytes are no request. After it nothing more is read.
#[derive(Clone, Copy, Debug, PartialEq, Eq)]
pub enum WireFault {
    /// The head is none, or says no single length of the body. Status 400.
    Head,
    /// A POST says no length. Status 411.
    Length,
    /// The body has over 16,777,216 bytes. Status 413.
    Body,
    /// The head has over 8,192 bytes. Status 431.
    HeadSize,
    /// The body is in a transfer coding. Status 501.
    Coding,
}

/// The head of a request.
#[derive(Debug, Drop)]
pub struct HttpHead {
    pub method: Text,
    /// As that of a request.
    pub path: Text,
    pub fields: Rows<HttpField>,
    /// How many bytes the body has: at most 16,777,216.
    pub length: u32,
    /// As that of a request.
    pub close: bool,
}

/// What comes next.
#[derive(Debug, Drop)]
pub enum Step {
    /// A request begins.
    Head(HttpHead),
    /// Bytes of its body: all that were fed and not yet given. They are some.
    Piece(Text),
    /// All bytes of its body were given.
    Whole,
    /// More bytes are needed. Clean is that nothing but CR and LF was left behind the last request.
    Need { clean: bool },
    /// The bytes go on with no request. Each further step is the same.
    Refused(WireFault),
}

//! The connections of a campaign. On each its requests are asked as their bytes come, and each
//! answer is written before more is read. `Link` stands for a connection; it has a form in memory
//! and adapters over standard input and output and over TCP. `Teller` stands for the campaign; a
//! book is one, and so is a book in a hall with a pass. `serve` takes links from a `Door`, which
//! has a form in memory and an adapter over TCP, by many workers.
//!
//! - `connections`: the loop. What a connection comes to, by its end: `specs/Connections.antt`;
//!   what is said on it: `specs/Conversations/Chains.antt`, over the list of entries:
//!   `specs/Conversations/Talks.antt`.
//! - `connections::asks`: how bytes become asks (`specs/ConnectionLoop/FedRequests.antt`).
//!   `connections::answers`: an answer and its moment (`specs/ConnectionLoop/RequestAnswers.antt`),
//!   written to `connections::buffers`.
//! - `connections::tellers`: what a campaign does with a request (`Teller`; a book:
//!   `connections::book_tellers`). `sessions`: a session with a book (`specs/Sessions.antt`).
//!   `connections::hall_connections`: a connection to a book in a hall
//!   (`specs/HallConnections.antt`).
//! - `servers`: a server, and what it leaves of its door (`specs/Servers.antt`). Its workers:
//!   `servers::workers`, `servers::teams`; the door that they share: `servers::acceptors`; the
//!   records of the links: `specs/Crews/Records.antt`.
//! - `links`: what a connection tells (`specs/Links.antt`); in memory `memory_forms::memory_link`,
//!   `memory_forms::memory_writes`; over the standard streams `adapters::stream_link`.
//!   `adapters::watches`: the clock.
//! - `doors`: what a door tells (`specs/Doors.antt`); in memory `memory_forms::memory_door`; on the
//!   network `adapters::tcp_door`, over `adapters::listeners`, with `adapters::patience` for a
//!   peer, over `adapters::system_calls`.
//! - `ends`: how a connection and a server end. `laws`: what callers may rely on of a talk.
#![tactic(auto)]

mod adapters;
mod connections;
mod doors;
mod ends;
mod laws;
mod links;
mod memory_forms;
mod numbers;
mod servers;
mod sessions;

pub use adapters::stream_link::StreamLink;
pub use adapters::system_calls::taken_by;
pub use adapters::tcp_door::{TcpDoor, TcpLink};
pub use connections::converse;
pub use connections::hall_connections::serve_connection;
pub use connections::tellers::Teller;
pub use decimal_rank::Failed;
pub use doors::Door;
pub use ends::{End, ServeEnd};
pub use laws::talks_go_on;
pub use links::{Link, write_all};
pub use memory_forms::memory_door::MemoryDoor;
pub use memory_forms::memory_link::MemoryLink;
pub use memory_forms::memory_writes::MemoryWrites;
pub use numbers::ServerNumbers;
pub use servers::serve;
pub use sessions::session;

//! What a request to a campaign asks and who asks it, by the table of the paths and the callers'
//! keys, and the texts of the answers.
//!
//! - `route_table`: the table of the paths, `ROWS`, which has to be `rows` in
//!   `specs/PathTable/RouteTable.antt`, and what is asked at each row (`Asks` there). That each row
//!   agrees with the rules is proved in `proofs/PathTable/RowAsks.antt`. `paths`: the parameter of
//!   a path. `router`: the row of a path (`specs/PathTable/Router.antt`).
//! - `keys`: the callers. `openings`: who asks, and the faults before a body
//!   (`specs/Openings.antt`; `faults`).
//! - `bodies`: what a body says (`specs/Json/Bodies.antt`). `asks`: a whole request
//!   (`specs/Asks.antt`).
//! - `ask_reader`: a request whose body comes in pieces (`specs/AskReading/AskStates.antt`).
//! - `answers`: the status and the text of an answer (`specs/Answers.antt`), over
//!   `answers::statuses`, `answers::replies`, `answers::refusals` and `answers::heads`. JSON
//!   objects as lists of members: `answers::objects`, `answers::values`
//!   (`specs/Json/Objects.antt`).
//! - `laws`: the table allows each role what the rules do, and a request is read in one way at
//!   most.
#![tactic(auto)]

mod answers;
mod ask_reader;
mod asks;
mod bodies;
mod faults;
mod keys;
mod laws;
mod openings;
mod paths;
mod route_table;
mod router;

pub use answers::{Answered, render};
pub use ask_reader::AskReader;
pub use asks::read_ask;
pub use faults::RouteFault;
pub use keys::{KeyRow, Keys, are_rows};
pub use laws::{one_request_reading, roles_are_the_rules};
pub use router::Paths;
